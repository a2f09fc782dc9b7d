// The figures of a table of cells: which of them pass, and the greater of two.
#![tactic(auto)]

ghost use Rattle.std.specs.Prelude.{◌≡◌, Bool, Float};
ghost use Rattle.refusals.specs.Numbers.{fault_of};
ghost use Rattle.figures.specs.Figures.{every, figures_fault, greater as greater_of};

use refusals::Refusal;

// Whether every figure passes the test. There is no way out before the end, so the compiler tests several figures at a time.
fn all_pass<F: Fn(f32) -> bool>(figures: &[f32], passes: F) -> bool
    requires { F.IsAlwaysCallable passes }
    ensures { (p : Float → Bool) → ((v : Float) (t : Bool) → F.post passes v t → t ≡ p v) → result ≡ every p figures.now }
{
    let mut sound = true;
    for v in figures {
        sound &= passes(*v);
    }
    sound
}

// 12 where a figure is not finite, and then 15 where one is negative: -0.0 is not.
#[tactic(auto, unfolding(crate::specs::Figures::figures_fault))]
pub fn check_figures(figures: &[f32]) -> Result<(), Refusal>
    ensures { fault_of result ≡ figures_fault figures.now }
{
    if !all_pass(figures, |v: f32| float::is_finite(v)) {
        return Err(Refusal::NotFinite);
    }
    if !all_pass(figures, |v: f32| !(v < 0.0)) {
        return Err(Refusal::Negative);
    }
    Ok(())
}

// b where a is less, and a otherwise. std's `max` differs: it leaves a NaN in a out, and may give either of two zeros.
pub fn greater(a: f32, b: f32) -> f32
    ensures { result ≡ greater_of a b }
{
    if a < b { b } else { a }
}
