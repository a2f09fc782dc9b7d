// The medium record: the corners of the world box, the corners of the index box, the inverse map row after row, the
// translation, how many cells a build cuts the world box into on each axis, and whether a temperature grid stands beside the
// density grid. Its checks are the decode's and the build's.
#![tactic(auto)]

ghost use Rattle.std.specs.Prelude.{◌≡◌, ◌<◌, ◌&&◌, get_or, pos};
ghost use Rattle.refusals.specs.Numbers.{fault_of};
ghost use Rattle.std.specs.Int.Signed.{le_z};
ghost use Rattle.std.specs.Float.{binary32};
ghost use Rattle.std.specs.Float.Ieee.{sub, lt};
ghost use Rattle.std.specs.Float.Ieee.Scale.{finite};
ghost use Rattle.refusals.specs.Faults.{unless};
ghost use Rattle.medium.specs.Medium.{make_medium, no_temperature, with_temperature};
ghost use Rattle.medium.specs.Medium.{bounds_fault, index_fault, map_fault, medium_fault, each, diagonal, zeroes};
ghost use Rattle.medium.specs.Record.{point_of, coord_of, nine_of, cells_of, as_temperature, as_medium};

use refusals::Refusal;

// Whether there is a temperature grid, and what a value of it is read by: (value - offset) * scale. Its tables stand beside.
// Not an Option: C hands in the flag and both numbers, and the specs keep the numbers where there is no grid.
#[derive(Clone, Copy)]
pub struct Temperature {
    pub present: bool,
    pub offset: f32,
    pub scale: f32,
}

#[derive(Clone, Copy)]
pub struct Medium {
    pub low: [f32; 3],
    pub high: [f32; 3],
    pub index_low: [i32; 3],
    pub index_high: [i32; 3],
    pub map: [f32; 9],
    pub translation: [f32; 3],
    pub cells: [u32; 3],
    pub temperature: Temperature,
}

// No temperature grid, and 0 for both numbers.
fn no_temperature() -> Temperature
    ensures { as_temperature result ≡ no_temperature }
{
    Temperature {
        present: false,
        offset: 0.0,
        scale: 0.0,
    }
}

// Every medium is made here, without a temperature, so that a further field is written in one place.
pub fn make_medium(
    low: [f32; 3],
    high: [f32; 3],
    index_low: [i32; 3],
    index_high: [i32; 3],
    map: [f32; 9],
    translation: [f32; 3],
    cells: [u32; 3],
) -> Medium
    ensures { as_medium result ≡ make_medium (point_of low) (point_of high) (coord_of index_low) (coord_of index_high) (nine_of map)
        (point_of translation) (cells_of cells) }
{
    Medium {
        low,
        high,
        index_low,
        index_high,
        map,
        translation,
        cells,
        temperature: no_temperature(),
    }
}

// The same medium with this temperature.
pub fn with_temperature(m: Medium, temperature: Temperature) -> Medium
    ensures { as_medium result ≡ with_temperature (as_temperature temperature) (as_medium m) }
{
    Medium { temperature, ..m }
}

// One axis of the world box.
fn check_bounds_on(low: f32, high: f32) -> Result<(), Refusal>
    ensures { fault_of result ≡ unless (finite low && finite high && lt low high && finite (sub binary32 high low)) 4 }
{
    let ends = float::is_finite(low) && float::is_finite(high);
    if ends && low < high && float::is_finite(high - low) {
        Ok(())
    } else {
        Err(Refusal::WorldBox)
    }
}

// One axis of the index box.
fn in_order(low: &[i32; 3], high: &[i32; 3], axis: usize) -> bool
    requires { axis < 3 }
    ensures { result ≡ le_z (get_or low.now axis (pos 0)) (get_or high.now axis (pos 0)) }
{
    low[axis] <= high[axis]
}

// A place of the map's diagonal.
fn on_diagonal(v: f32) -> bool
    ensures { result ≡ diagonal v }
{
    float::is_finite(v) && 0.0 < v
}

// Another place of the map.
fn off_diagonal(v: f32) -> bool
    ensures { result ≡ zeroes v }
{
    v == 0.0
}

impl Medium {
    // 4 where the world box does not pass.
    #[tactic(auto, unfolding(crate::specs::Medium::bounds_fault))]
    pub fn check_bounds(&self) -> Result<(), Refusal>
        ensures { fault_of result ≡ each (bounds_fault (as_medium self.now)) }
    {
        check_bounds_on(self.low[0], self.high[0])?;
        check_bounds_on(self.low[1], self.high[1])?;
        check_bounds_on(self.low[2], self.high[2])
    }

    // 14 where the index box is empty on some axis.
    #[tactic(auto, unfolding(crate::specs::Medium::index_fault))]
    pub fn check_index(&self) -> Result<(), Refusal>
        ensures { fault_of result ≡ each (index_fault (as_medium self.now)) }
    {
        let low = &self.index_low;
        let high = &self.index_high;
        if in_order(low, high, 0) & in_order(low, high, 1) & in_order(low, high, 2) {
            Ok(())
        } else {
            Err(Refusal::IndexBox)
        }
    }

    // 13 where the map or the translation does not pass.
    #[tactic(auto, unfolding(crate::specs::Medium::map_fault))]
    pub fn check_map(&self) -> Result<(), Refusal>
        ensures { fault_of result ≡ map_fault (as_medium self.now) }
    {
        let m = &self.map;
        let x = on_diagonal(m[0]) & off_diagonal(m[1]) & off_diagonal(m[2]);
        let y = off_diagonal(m[3]) & on_diagonal(m[4]) & off_diagonal(m[5]);
        let z = off_diagonal(m[6]) & off_diagonal(m[7]) & on_diagonal(m[8]);
        let t = &self.translation;
        let moved = float::is_finite(t[0]) & float::is_finite(t[1]) & float::is_finite(t[2]);
        if x & y & z & moved {
            Ok(())
        } else {
            Err(Refusal::Map)
        }
    }

    // 4, 14, 13: the checks of a build.
    pub fn check(&self) -> Result<(), Refusal>
        ensures { fault_of result ≡ medium_fault (as_medium self.now) }
    {
        self.check_bounds()?;
        self.check_index()?;
        self.check_map()
    }
}
