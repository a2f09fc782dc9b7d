// Temperature beside density: a second grid that is loaded as a scalar grid and read by an offset and a scale.
#![tactic(auto)]

ghost use Rattle.std.specs.Prelude.{◌≡◌};
ghost use Rattle.refusals.specs.Numbers.{fault_of, said_by};
ghost use Rattle.layout.specs.Record.{as_coord};
ghost use Rattle.sparse_grid.specs.Record.{as_grid};
ghost use Rattle.medium.specs.Record.{as_temperature};
ghost use Rattle.nanovdb.specs.Lent.{lengths, left_of};
ghost use Rattle.decode.specs.Answers.{counts};
ghost use Rattle.decode.specs.Record.{as_tables, SameSlices};
ghost use Rattle.temperature.specs.Temperature.{heated, heat_fault, load_into, temperature_at};
ghost use Rattle.temperature.specs.Answers.{as_loaded, loaded, loaded_of, loaded_by};

use decode::{Decoded, Tables, decode_scalar_grid};
use float::{bits_of, is_finite};
use layout::Coordinate;
use medium::Temperature;
use refusals::Refusal;
use sparse_grid::Grid;

// How many roots and nodes are used, the background, and the temperature that a medium record gains.
#[derive(Clone, Copy)]
pub struct Loaded {
    pub roots: usize,
    pub upper: usize,
    pub lower: usize,
    pub leaf: usize,
    pub background: f32,
    pub temperature: Temperature,
}

// 27 where the offset or the scale is not finite.
fn check_heat(t: Temperature) -> Result<(), Refusal>
    ensures { fault_of result ≡ heat_fault (as_temperature t) }
{
    if is_finite(t.offset) && is_finite(t.scale) {
        Ok(())
    } else {
        Err(Refusal::Temperature)
    }
}

// What an accepted load answers: the decode's counts and background. Field by field: the medium, which `Decoded`
// holds too, goes no further.
fn accepted(d: Decoded, temperature: Temperature) -> Loaded
    ensures { as_loaded result ≡ loaded_by (as_temperature temperature) (counts d) }
{
    Loaded {
        roots: d.roots,
        upper: d.upper,
        lower: d.lower,
        leaf: d.leaf,
        background: d.background,
        temperature,
    }
}

// A temperature grid into lent tables: `decode_scalar_grid`, and then 27, which leaves zeros in tables that were full.
#[tactic(auto, using(crate::proofs::LoadLaws::heat_stops, refusals::proofs::Exits::number_some))]
pub fn load_temperature(
    bytes: &[u8],
    offset: f32,
    scale: f32,
    tables: &mut Tables<'_>,
) -> Result<Loaded, Refusal>
    ensures answer { let l = lengths (as_tables tables.old) in
        loaded result ≡ loaded_of (heated offset scale) (load_into bytes.now (heated offset scale) l) }
    ensures tables { let l = lengths (as_tables tables.old) in
        as_tables tables.new ≡ left_of l (load_into bytes.now (heated offset scale) l) }
    ensures same { SameSlices tables.old tables.new }
{
    let t = Temperature {
        present: true,
        offset,
        scale,
    };
    let d = decode_scalar_grid(bytes, tables)?;
    if let Err(refusal) = check_heat(t) {
        tables.clear();
        return Err(refusal);
    }
    Ok(accepted(d, t))
}

// The temperature at a coordinate of the temperature grid, as bits: 0 without one, whatever else is handed over; 27 first, then the
// lookup's 18 and 11.
#[tactic(auto, unfolding(crate::specs::Temperature::temperature_at))]
pub fn heat_at(t: Temperature, grid: &Grid, coordinate: Coordinate) -> Result<u32, Refusal>
    ensures { said_by result ≡ temperature_at (as_temperature t) (as_grid grid.now) (as_coord coordinate) }
{
    if !t.present {
        return Ok(0);
    }
    check_heat(t)?;
    let v = grid.value(coordinate)?;
    Ok(bits_of((v - t.offset) * t.scale))
}
