// Rays through the table of cells: a ray's pieces, one at a call, each with the figure of its cell (majorant_iterator.rs,
// DDAMajorantIterator).
#![tactic(auto)]

ghost use Rattle.std.specs.Prelude.{◌≡◌, length};
ghost use Rattle.medium.specs.Record.{as_medium};
ghost use Rattle.rays.specs.Ray.{next};
ghost use Rattle.rays.specs.Open.{open_ray};
ghost use Rattle.rays.specs.Trace.{traced, Written};
ghost use Rattle.refusals.specs.Results.{value_or};
ghost use Rattle.refusals.specs.Numbers.{said_by, fault_of};
ghost use Rattle.rays.specs.Answers.{as_beam, as_state, ray_said, step_said};

mod check;
mod follow;
mod start;
mod state;
mod step;

use cells::Cells;
use follow::{most_pieces, pieces_into};
use lent::zero;
use medium::Medium;
use refusals::Refusal;
use start::track_on;
pub use state::{Ray, Track};
use step::{Axis, advanced, axis_of, is_sound, place_of, stepped};

// A ray as it is asked for: from `origin` along `direction`, from t_min to t_max.
#[derive(Clone, Copy)]
pub struct Beam {
    pub origin: [f32; 3],
    pub direction: [f32; 3],
    pub t_min: f32,
    pub t_max: f32,
}

// A part of a ray, and the figure of the cell that it lies in.
#[derive(Clone, Copy)]
pub struct Piece {
    pub from: f32,
    pub to: f32,
    pub figure: f32,
}

impl Ray {
    // The ray through the table of a medium.
    #[tactic(auto, using(crate::proofs::Opening::stops))]
    pub fn open(m: Medium, beam: Beam, majorants: &[f32]) -> Result<Ray, Refusal>
        ensures { ray_said result ≡ open_ray (as_medium m) (as_beam beam) (length majorants.now) }
    {
        let [x, y, z] = m.cells;
        Cells { x, y, z }.check_table(majorants.len())?;
        m.check_bounds()?;
        beam.check()?;
        let o = beam.origin;
        let d = beam.direction;
        let t = beam.t_min;
        Ok(Ray {
            t_min: t,
            t_max: beam.t_max,
            x: track_on(m.low[0], m.high[0], o[0], d[0], t, x),
            y: track_on(m.low[1], m.high[1], o[1], d[1], t, y),
            z: track_on(m.low[2], m.high[2], o[2], d[2], t, z),
        })
    }

    // The next piece, and the ray behind it; none at the ray's end.
    pub fn next_piece(self, majorants: &[f32]) -> Result<Option<(Piece, Ray)>, Refusal>
        ensures { step_said result ≡ next (as_state self) majorants.now }
    {
        let Ray {
            t_min,
            t_max,
            x,
            y,
            z,
        } = self;
        let cells = Cells {
            x: x.cells,
            y: y.cells,
            z: z.cells,
        };
        cells.check_table(majorants.len())?;
        if t_max <= t_min {
            return Ok(None);
        }
        let sound = is_sound(x) & is_sound(y) & is_sound(z);
        if !sound {
            return Err(Refusal::Tables);
        }
        let at = place_of(x, y, z);
        let figure = majorants[at];
        let stepped = match axis_of(x.next, y.next, z.next) {
            Axis::X => stepped(self, figure, x, advanced(x), y, z),
            Axis::Y => stepped(self, figure, y, x, advanced(y), z),
            Axis::Z => stepped(self, figure, z, x, y, advanced(z)),
        };
        Ok(Some(stepped))
    }
}

// The pieces of a whole ray, and how many there are: where each ends, and its figure. Each begins where the one before ended, and the
// first at t_min. 9 where a table is too short. After a refusal both tables are zero, and past the last piece they are zero as well.
// Two tables and a count: the public name stands, and 9 is of either table, whose lengths need not agree.
pub fn trace(
    m: Medium,
    beam: Beam,
    majorants: &[f32],
    ends: &mut [f32],
    figures: &mut [f32],
) -> Result<usize, Refusal>
    ensures { Written (traced (as_medium m) (as_beam beam) majorants.now (length ends.old) (length figures.old))
        (length ends.old) (length figures.old) (fault_of result) (value_or 0 (said_by result)) ends.new figures.new }
{
    zero(ends);
    zero(figures);
    let ray = Ray::open(m, beam, majorants)?;
    match pieces_into(ray, most_pieces(m.cells), majorants, ends, figures) {
        Ok(count) => Ok(count),
        Err(e) => {
            zero(ends);
            zero(figures);
            Err(e)
        }
    }
}
