// The index position of a point, and the ends of a cell's two boxes on one axis (nanovdb.rs, world_to_index_f to build_majorant).
#![tactic(auto)]

ghost use Rattle.std.specs.Prelude.{◌≡◌, ◌<◌, IfSome, IsNone};
ghost use Rattle.std.specs.Float.{binary32};
ghost use Rattle.std.specs.Float.Ieee.{mul, to_bits};
ghost use Rattle.refusals.specs.Numbers.{said_by};
ghost use Rattle.float.specs.Fused.{fma};
ghost use Rattle.medium.specs.Record.{point_of, as_medium};
ghost use Rattle.index.specs.Axes.{corner_on, index_on, majorant_on, first_on, second_on, axis_ends, column, is_last, line_of};
ghost use Rattle.index.specs.Found.{holds_on, axis_cell};
ghost use Rattle.index.specs.Sides.{sides_of};
ghost use Rattle.index.specs.Answers.{index_bits, as_line};
ghost use Rattle.index.specs.Outcomes.{as_axis, as_ends, as_both, said_as, floors_of};

use float::{bits_of, checked_coordinate, mul_add, narrow, widen};
use medium::Medium;
use refusals::Refusal;
use std::num::nearest_u64_to_f32;

// One row of the map times a vector.
fn row_bits(d: [f32; 3], row: [f32; 3]) -> u32
    ensures { let x = point_of d in let a = point_of row in
        result ≡ to_bits binary32 (fma binary32 x.x a.x (fma binary32 x.y a.y (mul binary32 x.z a.z))) }
{
    bits_of(mul_add(d[0], row[0], mul_add(d[1], row[1], d[2] * row[2])))
}

// A point's index position on each axis, as bits: a NaN is 7fc00000.
#[tactic(auto, unfolding(crate::specs::Answers::index_bits, crate::specs::Index::world_to_index))]
pub fn index_position(m: Medium, point: [f32; 3]) -> Result<[u32; 3], Refusal>
    ensures { said_by result ≡ index_bits (as_medium m) (point_of point) }
{
    m.check_map()?;
    let d = [
        point[0] - m.translation[0],
        point[1] - m.translation[1],
        point[2] - m.translation[2],
    ];
    Ok([
        row_bits(d, [m.map[0], m.map[1], m.map[2]]),
        row_bits(d, [m.map[3], m.map[4], m.map[5]]),
        row_bits(d, [m.map[6], m.map[7], m.map[8]]),
    ])
}

// ---- one axis

#[derive(Clone, Copy, Debug, PartialEq, Eq)]
pub enum Axis {
    X,
    Y,
    Z,
}

impl Axis {
    // Its place in a row of three.
    fn column(self) -> usize
        ensures { result ≡ column (as_axis self) }
    {
        self as usize
    }

    // Whether it is z, on which the build takes the product too in f64.
    fn is_last(self) -> bool
        ensures { result ≡ is_last (as_axis self) }
    {
        self == Axis::Z
    }
}

// The ends of a box on one axis.
#[derive(Clone, Copy, Debug, PartialEq, Eq)]
pub struct Ends {
    pub lo: i32,
    pub hi: i32,
}

// The ends of a cell's two boxes on one axis.
#[derive(Clone, Copy, Debug, PartialEq, Eq)]
pub struct CellEnds {
    pub first: Ends,
    pub second: Ends,
}

impl Ends {
    // The floor of v, and one more than the floor of w; 16 where one lies outside i32.
    #[tactic(auto, using(crate::proofs::Steps::ones), unfolding(crate::specs::Axes::second_low, crate::specs::Axes::second_high))]
    fn floors(v: f32, w: f32) -> Result<Ends, Refusal>
        ensures { said_as as_ends result ≡ floors_of v w }
    {
        let lo = checked_coordinate(float::floor(widen(v)))?;
        let hi = checked_coordinate(float::floor(widen(w)) + 1.0)?;
        Ok(Ends { lo, hi })
    }

    // The voxels on either side of an index position.
    #[tactic(auto, unfolding(crate::specs::Sides::sides_of))]
    pub fn around(v: f32) -> Result<Ends, Refusal>
        ensures { said_as as_ends result ≡ sides_of v }
    {
        Ends::floors(v, v)
    }
}

// One axis of a medium: the world box, the translation, the place on the map's diagonal, and the index box.
#[derive(Clone, Copy)]
pub struct Line {
    // Whether it is z. A bool, as the specs' Line has it: no more of the axis is asked for.
    pub last: bool,
    pub low: f32,
    pub high: f32,
    pub translation: f32,
    pub factor: f32,
    pub index_low: i32,
    pub index_high: i32,
}

impl Line {
    #[tactic(auto, using(crate::proofs::Steps::line_is))]
    pub fn of(m: Medium, axis: Axis) -> Line
        ensures { as_line result ≡ line_of (as_medium m) (as_axis axis) }
    {
        let i = axis.column();
        Line {
            last: axis.is_last(),
            low: m.low[i],
            high: m.high[i],
            translation: m.translation[i],
            factor: m.map[4 * i],
            index_low: m.index_low[i],
            index_high: m.index_high[i],
        }
    }

    // Corner k of n.
    #[tactic(auto, using(crate::proofs::Steps::ones), unfolding(crate::specs::Axes::corner_on))]
    fn corner(self, n: u32, k: u64) -> f32
        ensures { result ≡ corner_on self.low self.high n k }
    {
        let t = nearest_u64_to_f32(k) / nearest_u64_to_f32(n as u64);
        (1.0 - t) * self.low + t * self.high
    }

    // The index position of p, as world_to_index_f has it.
    #[tactic(auto, unfolding(crate::specs::Axes::index_on))]
    fn index(self, p: f32) -> f32
        ensures { result ≡ index_on (as_line self) p }
    {
        (p - self.translation) * self.factor
    }

    // The same as the build has it.
    #[tactic(auto, unfolding(crate::specs::Axes::majorant_on))]
    fn majorant_index(self, p: f32) -> f32
        ensures { result ≡ majorant_on (as_line self) p }
    {
        let d = widen(p) - widen(self.translation);
        if self.last {
            narrow(d * widen(self.factor))
        } else {
            narrow(d) * self.factor
        }
    }

    // The first box, from the corners p and q.
    #[tactic(auto, using(crate::proofs::Steps::ones), unfolding(crate::specs::Axes::first_on, crate::specs::Axes::first_low, crate::specs::Axes::first_high))]
    fn first_box(self, p: f32, q: f32) -> Result<Ends, Refusal>
        ensures { said_as as_ends result ≡ first_on (as_line self) p q }
    {
        let lo = checked_coordinate(float::trunc(widen(self.majorant_index(p)) - 1.0))?;
        let hi = checked_coordinate(float::trunc(widen(self.majorant_index(q)) + 1.0))?;
        Ok(Ends {
            lo: lo.max(self.index_low),
            hi: hi.min(self.index_high),
        })
    }

    // The second box.
    #[tactic(auto, unfolding(crate::specs::Axes::second_on))]
    fn second_box(self, p: f32, q: f32) -> Result<Ends, Refusal>
        ensures { said_as as_ends result ≡ second_on (as_line self) p q }
    {
        Ends::floors(self.index(p), self.index(q))
    }

    // The ends of cell k of n; 16 where one is no coordinate.
    #[tactic(auto, unfolding(crate::specs::Axes::axis_ends, crate::specs::Axes::ends_on))]
    pub fn ends(self, n: u32, k: u32) -> Result<CellEnds, Refusal>
        ensures { said_as as_both result ≡ axis_ends (as_line self) n k }
    {
        let p = self.corner(n, k as u64);
        let q = self.corner(n, k as u64 + 1);
        let first = self.first_box(p, q)?;
        let second = self.second_box(p, q)?;
        Ok(CellEnds { first, second })
    }

    // Whether corners k and k + 1 of n enclose v.
    fn encloses(self, n: u32, k: u32, v: f32) -> bool
        ensures { result ≡ holds_on self.low self.high n k v }
    {
        self.corner(n, k as u64) <= v && v <= self.corner(n, k as u64 + 1)
    }

    // The first cell of n that encloses v. Corners need not rise, so each is tried.
    #[tactic(auto, using(crate::proofs::FoundLaws::search_steps))]
    pub fn cell(self, n: u32, v: f32) -> Option<u32>
        ensures found { IfSome result (λ k. (k < n) × (axis_cell self.low self.high n v ≡ k)) }
        ensures none { IsNone result → axis_cell self.low self.high n v ≡ n }
    {
        for k in 0..n {
            if self.encloses(n, k, v) {
                return Some(k);
            }
        }
        None
    }
}
