// The check of what is asked for.
ghost use Rattle.std.specs.Prelude.{◌≡◌};
ghost use Rattle.refusals.specs.Numbers.{fault_of};
ghost use Rattle.medium.specs.Record.{point_of};
ghost use Rattle.rays.specs.Open.{all_finite, all_zero, beam_fault};
ghost use Rattle.rays.specs.Answers.{as_beam};

use crate::Beam;
use refusals::Refusal;

fn all_finite(p: [f32; 3]) -> bool
    ensures { result ≡ all_finite (point_of p) }
{
    float::is_finite(p[0]) & float::is_finite(p[1]) & float::is_finite(p[2])
}

fn all_zero(p: [f32; 3]) -> bool
    ensures { result ≡ all_zero (point_of p) }
{
    p == [0.0; 3]
}

impl Beam {
    // 22.
    pub(crate) fn check(self) -> Result<(), Refusal>
        ensures { fault_of result ≡ beam_fault (as_beam self) }
    {
        let points = all_finite(self.origin) & all_finite(self.direction);
        let ends = float::is_finite(self.t_min) & float::is_finite(self.t_max);
        if points & ends & !all_zero(self.direction) {
            Ok(())
        } else {
            Err(Refusal::Ray)
        }
    }
}
