// A ray's state in two flat arrays: 8 times and 9 numbers.
ghost use Rattle.std.specs.Prelude.{◌≡◌, ◌<◌, ◌&&◌, eqb, length};
ghost use Rattle.rays.specs.Ray.{cells_in};
ghost use Rattle.rays.specs.Answers.{as_track, as_state};
ghost use Rattle.rays.proofs.Theorems.{Within};
ghost use Rattle.smokegrid.specs.FlatRay.{count_of, track_from, ray_state_from, times_of, words_of};

use rays::{Ray, Track};

// Whether the two arrays have the lengths of a ray's state.
pub(crate) fn is_ray(times: &[f32], numbers: &[i32]) -> bool
    ensures { result ≡ (eqb (length times.now) 8 && eqb (length numbers.now) 9) }
{
    times.len() == 8 && numbers.len() == 9
}

// Whether the arrays of an opening have their lengths.
pub(crate) fn can_open(medium: &[f32], cells: &[u32], times: &[f32], numbers: &[i32]) -> bool
    ensures { result ≡ (eqb (length medium.now) 18 && eqb (length cells.now) 3 && eqb (length times.now) 8 && eqb (length numbers.now) 9) }
{
    medium.len() == 18 && cells.len() == 3 && times.len() == 8 && numbers.len() == 9
}

// How many cells a number of the state says: none where it is negative, which is refused as 23.
fn count_of(n: i32) -> u32
    ensures { result ≡ count_of n }
{
    u32::try_from(n).unwrap_or(0)
}

// One axis of the arrays.
fn track_from(t: &[f32], n: &[i32], axis: usize) -> Track
    requires times { length t.now ≡ 8 }
    requires numbers { length n.now ≡ 9 }
    requires axis { axis < 3 }
    ensures { as_track result ≡ track_from t.now n.now axis }
{
    Track {
        next: t[2 + axis],
        delta: t[5 + axis],
        step: n[axis],
        cell: n[3 + axis],
        cells: count_of(n[6 + axis]),
    }
}

pub(crate) fn ray_from(t: &[f32], n: &[i32]) -> Ray
    requires times { length t.now ≡ 8 }
    requires numbers { length n.now ≡ 9 }
    ensures { as_state result ≡ ray_state_from t.now n.now }
{
    Ray {
        t_min: t[0],
        t_max: t[1],
        x: track_from(t, n, 0),
        y: track_from(t, n, 1),
        z: track_from(t, n, 2),
    }
}

pub(crate) fn put_times(to: &mut [f32], r: Ray)
    requires { length to.old ≡ 8 }
    ensures { to.new ≡ times_of (as_state r) }
{
    let Ray {
        t_min,
        t_max,
        x,
        y,
        z,
    } = r;
    to.copy_from_slice(&[
        t_min, t_max, x.next, y.next, z.next, x.delta, y.delta, z.delta,
    ]);
}

pub(crate) fn put_numbers(to: &mut [i32], r: Ray)
    requires places { length to.old ≡ 9 }
    requires few { Within (cells_in (as_state r)) }
    ensures { to.new ≡ words_of (as_state r) }
{
    let Ray { x, y, z, .. } = r;
    to.copy_from_slice(&[
        x.step,
        y.step,
        z.step,
        x.cell,
        y.cell,
        z.cell,
        x.cells as i32,
        y.cells as i32,
        z.cells as i32,
    ]);
}
