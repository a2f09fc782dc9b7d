// The character of a figure: `.` for a zero, and otherwise the least k from 1 to 9 for which the figure × 9 is at most k × the
// layer's greatest. Both are whole numbers of 2^-149: digits times a power of two.
ghost use Rattle.std.specs.Prelude.{◌≡◌, true, ◌*◌, ◌^◌, ◌<◌, ◌≤◌, leb};
ghost use Rattle.std.specs.Float.Ieee.Scale.{finite};
ghost use Rattle.sheet.specs.Grades.{units_of, grade as grade_of, mark as mark_of};

// digits × 2^place.
#[derive(Clone, Copy)]
struct Scaled {
    digits: u64,
    place: u64,
}

fn units(v: f32) -> Scaled
    requires { finite v ≡ true }
    ensures { (result.digits * 2 ^ result.place ≡ units_of v) × (result.digits < 2 ^ 24) }
{
    let b = float::bits_of(v);
    Scaled {
        digits: float::digits(b),
        place: float::place(b),
    }
}

// a <= b × 2^s. Its twin below shifts the other side: one function would test again which side it is.
// The bound is asked for here, below and in `at_most`: these two take bare numbers, for which a type that holds it is no plainer.
#[tactic(auto, using(crate::proofs::Steps::some_far))]
fn below_shifted(a: u64, b: u64, s: u64) -> bool
    requires { (a < 2 ^ 28) × (b < 2 ^ 28) }
    ensures { result ≡ leb a (b * 2 ^ s) }
{
    if s < 28 {
        return a <= b << s;
    }
    b != 0 || a == 0
}

// a × 2^s <= b.
#[tactic(auto, using(crate::proofs::Steps::far_down))]
fn shifted_below(a: u64, s: u64, b: u64) -> bool
    requires { (a < 2 ^ 28) × (b < 2 ^ 28) }
    ensures { result ≡ leb (a * 2 ^ s) b }
{
    if s < 28 {
        return a << s <= b;
    }
    a == 0
}

impl Scaled {
    // Exactly: by the difference of the exponents.
    #[tactic(auto, using(crate::proofs::GradeLaws::compare_up, crate::proofs::GradeLaws::compare_down))]
    fn at_most(self, other: Scaled) -> bool
        requires { (self.digits < 2 ^ 28) × (other.digits < 2 ^ 28) }
        ensures { result ≡ leb (self.digits * 2 ^ self.place) (other.digits * 2 ^ other.place) }
    {
        if self.place <= other.place {
            below_shifted(self.digits, other.digits, other.place - self.place)
        } else {
            shifted_below(self.digits, self.place - other.place, other.digits)
        }
    }

    #[tactic(auto, using(crate::proofs::GradeLaws::k_times))]
    fn times(self, k: u64) -> Scaled
        requires { (self.digits < 2 ^ 24) × (k ≤ 9) }
        ensures { (result.digits * 2 ^ result.place ≡ k * (self.digits * 2 ^ self.place)) × (result.digits < 2 ^ 28) }
    {
        Scaled {
            digits: k * self.digits,
            place: self.place,
        }
    }
}

// The least k from 1 to 9 for which f × 9 is at most k × g; 9 where no lower one is.
fn grade(f: Scaled, g: Scaled) -> u64
    requires { (f.digits < 2 ^ 24) × (g.digits < 2 ^ 24) }
    ensures { (result ≡ grade_of (f.digits * 2 ^ f.place) (g.digits * 2 ^ g.place)) × (result ≤ 9) }
{
    let nine = f.times(9);
    for k in 1..9 {
        if nine.at_most(g.times(k)) {
            return k;
        }
    }
    9
}

// The character of v where the layer's greatest is g: a scale of the paper's own, which no printing of std has.
pub(crate) fn mark(v: f32, g: f32) -> u8
    requires { (finite v ≡ true) × (finite g ≡ true) }
    ensures { result ≡ mark_of v g }
{
    if v == 0.0 {
        return b'.';
    }
    let k = grade(units(v), units(g));
    b'0' + k as u8
}
