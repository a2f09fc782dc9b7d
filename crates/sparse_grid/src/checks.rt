// The tests of a grid's tables.
ghost use Rattle.std.specs.Prelude.{◌≡◌, ℕ, Bool, Float, IfOk, not, length, slice_index_or};
ghost use Rattle.std.specs.Float.Ieee.{lt};
ghost use Rattle.refusals.specs.Faults.{unless, first_fault};
ghost use Rattle.float.specs.Zero.{+0};
ghost use Rattle.refusals.specs.Numbers.{number, fault_of};
ghost use Rattle.sparse_grid.specs.Validate.{density_fault, entries_fault, entry_fault, negatives_fault, pair_fault, shape_fault, value_fault, values_fault};
ghost use Rattle.sparse_grid.specs.Validate.{negative, validate, validate_density};
ghost use Rattle.sparse_grid.specs.Record.{as_grid};

use crate::grid::{Entries, Grid};
use crate::paired::PairedGrid;
use crate::{Entry, entry_of};
use refusals::Refusal;

// Roots, entries and leaf values must be fewer.
const LIMIT: usize = 4294967296;

fn unless(passes: bool, refusal: Refusal) -> Result<(), Refusal>
    ensures { fault_of result ≡ unless passes (number refusal) }
{
    if passes { Ok(()) } else { Err(refusal) }
}

fn check_finite(v: f32) -> Result<(), Refusal>
    ensures { fault_of result ≡ value_fault v }
{
    unless(float::is_finite(v), Refusal::NotFinite)
}

// Not below zero: -0.0 is a density.
fn is_density(v: f32) -> bool
    ensures { result ≡ not (lt v +0) }
{
    !(v < 0.0)
}

fn check_density_value(v: f32) -> Result<(), Refusal>
    ensures { fault_of result ≡ negative v }
{
    unless(is_density(v), Refusal::Negative)
}

// A child must be one of `count` nodes, with a zero of either sign beside it.
pub(crate) fn check_entry(link: u32, value: f32, count: usize) -> Result<(), Refusal>
    ensures { fault_of result ≡ entry_fault count link value }
{
    match entry_of(link, value) {
        Entry::Child(k) => unless((k as usize) < count && value == 0.0, Refusal::Record),
        Entry::Tile(v) => check_finite(v),
    }
}

// Whether all values pass a test. There is no way out before the end, so the compiler tests several values at a time.
fn all_pass<F: Fn(f32) -> bool>(values: &[f32], passes: F) -> bool
    ghost test: { Float → Bool }
    requires callable { F.IsAlwaysCallable passes }
    requires tested { (v : Float) (b : Bool) → F.post passes v b → b ≡ test v }
    ensures { (n : ℕ) → unless result n ≡ first_fault (length values.now) (λ i. unless (test (slice_index_or values.now i +0)) n) }
{
    let mut sound = true;
    for v in values {
        // `sound &= passes(*v)` says the same, and was half again slower.
        if !passes(*v) {
            sound = false;
        }
    }
    sound
}

fn check_finite_values(values: &[f32]) -> Result<(), Refusal>
    ensures { fault_of result ≡ values_fault values.now }
{
    unless(
        all_pass(values, |v| float::is_finite(v)),
        Refusal::NotFinite,
    )
}

fn check_densities(values: &[f32]) -> Result<(), Refusal>
    ensures { fault_of result ≡ negatives_fault values.now }
{
    unless(all_pass(values, |v| is_density(v)), Refusal::Negative)
}

impl Entries<'_> {
    // Slot by slot, where the level below has `count` nodes.
    #[inline(always)]
    fn check(self, count: usize) -> Result<(), Refusal>
        requires { length self.links.now ≡ length self.values.now }
        ensures { fault_of result ≡ entries_fault count self.entry.links.now self.entry.values.now }
    {
        for i in 0..self.links.len() {
            check_entry(self.links[i], self.values[i], count)?;
        }
        Ok(())
    }
}

impl<'a> Grid<'a> {
    // The same tables, as long as each other, with three numbers for each root's block.
    #[tactic(auto, using(crate::specs::Sound::pairs), unfolding(crate::specs::Validate::pair_fault))]
    pub(crate) fn paired(&self) -> Result<PairedGrid<'a>, Refusal>
        ensures fault { fault_of result ≡ pair_fault (as_grid self.now) }
        ensures same { IfOk result (λ p. p.grid ≡ self.now) }
    {
        if self.roots.links.len() == self.roots.values.len()
            && self.blocks.len() == 3 * self.roots.links.len()
            && self.upper.links.len() == self.upper.values.len()
            && self.lower.links.len() == self.lower.values.len()
        {
            Ok(PairedGrid { grid: *self })
        } else {
            Err(Refusal::Tables)
        }
    }

    // Node tables of whole nodes, and counts that fit a u32.
    #[tactic(auto, unfolding(crate::specs::Validate::shape_fault))]
    fn check_shape(&self) -> Result<(), Refusal>
        ensures { fault_of result ≡ shape_fault (as_grid self.now) }
    {
        let shaped = self.upper.links.len() % 32768 == 0
            && self.lower.links.len() % 4096 == 0
            && self.leaf_values.len() % 512 == 0
            && self.roots.links.len() < LIMIT
            && self.upper.links.len() < LIMIT
            && self.lower.links.len() < LIMIT
            && self.leaf_values.len() < LIMIT;
        unless(shaped, Refusal::Tables)
    }

    // The first fault: the tables' lengths, the roots, upper and lower entries, the background, the leaves. It and its loops over entries are compiled
    // into each caller: a call hands the tables over in memory, which takes a tenth of the time of a grid of one tile.
    #[tactic(auto, unfolding(crate::specs::Validate::validate))]
    #[inline(always)]
    pub fn validate(&self) -> Result<(), Refusal>
        ensures { fault_of result ≡ validate (as_grid self.now) }
    {
        let tables = self.paired()?;
        self.check_shape()?;
        tables.check_roots()?;
        self.upper.check(self.lower.links.len() / 4096)?;
        self.lower.check(self.leaf_values.len() / 512)?;
        check_finite(self.background)?;
        check_finite_values(self.leaf_values)
    }

    // 15 where the background is negative, or a value in a table, also beside a child. Blocks and links play no part.
    #[tactic(auto, unfolding(crate::specs::Validate::density_fault))]
    pub fn check_density(&self) -> Result<(), Refusal>
        ensures { fault_of result ≡ density_fault (as_grid self.now) }
    {
        check_density_value(self.background)?;
        check_densities(self.roots.values)?;
        check_densities(self.upper.values)?;
        check_densities(self.lower.values)?;
        check_densities(self.leaf_values)
    }

    // `validate`, and then 15 for a value below zero.
    #[tactic(auto, unfolding(crate::specs::Validate::validate_density))]
    pub fn validate_density(&self) -> Result<(), Refusal>
        ensures { fault_of result ≡ validate_density (as_grid self.now) }
    {
        self.validate()?;
        self.check_density()
    }
}
