// A window over the last w tables of cells: for each cell the greatest of +0.0 and the figures of the tables in it.
// The tables stand in lent memory, table k from k × X × Y × Z on, and the window says which places are held.
#![tactic(auto)]

ghost use Rattle.std.specs.Prelude.{◌≡◌, ◌+◌, ◌*◌, ◌<◌, ◌≤◌, length};
ghost use Rattle.std.proofs.Math.Seq.{paste};
ghost use Rattle.refusals.specs.Results.{value_or};
ghost use Rattle.refusals.specs.Numbers.{said_by, fault_of as fault};
ghost use Rattle.cells.specs.Record.{as_cells};
ghost use Rattle.window.specs.Tables.{raised, raised_by};
ghost use Rattle.window.specs.Fours.{Alike, raised_four};
ghost use Rattle.window.specs.Window.{before as before_of, after as after_of, grown as grown_of, advanced as advanced_of};
ghost use Rattle.window.specs.Window.{width_in, fits_window, fits_lengths, table_at, ring, state_of, table_of, fault_of};
ghost use Rattle.window.specs.Window.{push_fault, push as push_of, open_fault, opened, shut};

use cells::Cells;
use figures::{check_figures, greater};
use lent::zero;
use refusals::Refusal;

// w, the three numbers of the cells, the tables held, and the place that the next one takes. Numbers alone: C keeps them, and lends the memory.
#[derive(Clone, Copy, Debug, PartialEq, Eq)]
pub struct Window {
    pub w: u32,
    pub x: u32,
    pub y: u32,
    pub z: u32,
    pub held: u32,
    pub next: u32,
}

// ---- the places of the ring

// A place below w, here and below, is no invariant of Window: its fields are public, and C hands in any. The check of a push leaves it.
fn before(w: usize, p: usize) -> usize
    requires { p < w }
    ensures { result ≡ before_of w p }
{
    if p == 0 { w - 1 } else { p - 1 }
}

fn after(w: u32, p: u32) -> u32
    requires { p < w }
    ensures { result ≡ after_of w p }
{
    if p + 1 == w { 0 } else { p + 1 }
}

// Not `min`: a caller's `held` may be above w, where it stays as it is, and held + 1 may overflow.
fn grown(w: u32, held: u32) -> u32
    ensures { result ≡ grown_of w held }
{
    if held < w { held + 1 } else { held }
}

// One table more.
fn advanced(s: Window) -> Window
    requires { s.next < s.w }
    ensures { result ≡ advanced_of s }
{
    let held = grown(s.w, s.held);
    let next = after(s.w, s.next);
    Window { held, next, ..s }
}

// ---- the faults

fn width_in(w: u32) -> bool
    ensures { result ≡ width_in w }
{
    1 <= w && w <= 16
}

fn fits_window(s: Window, n: Cells) -> bool
    ensures { result ≡ fits_window s (as_cells n) }
{
    let Window { w, x, y, z, .. } = s;
    width_in(w) && n == Cells { x, y, z }
}

// w tables of n figures.
fn tables(w: u32, n: usize) -> usize
    requires { (w ≤ 16) × (n ≤ 2097152) }
    ensures { result ≡ w * n }
{
    (w as usize) * n
}

fn fits_lengths(s: Window, n: usize, table: usize, memory: usize, answer: usize) -> bool
    requires { (s.w ≤ 16) × (n ≤ 2097152) }
    ensures { result ≡ fits_lengths s n table memory answer }
{
    let most = tables(s.w, n);
    let ring = (s.held <= s.w) & (s.next < s.w);
    (table == n) & ((memory == most) & ((answer == n) & ring))
}

fn check_push(
    s: Window,
    n: Cells,
    table: &[f32],
    memory: usize,
    answer: usize,
) -> Result<(), Refusal>
    ensures { fault result ≡ fault_of s memory answer (table_of (as_cells n) table.now) }
{
    n.check()?;
    if !fits_window(s, n) {
        return Err(Refusal::Window);
    }
    if !fits_lengths(s, n.table_length(), table.len(), memory, answer) {
        return Err(Refusal::Tables);
    }
    check_figures(table)
}

fn check_open(w: u32, n: Cells, memory: usize, answer: usize) -> Result<(), Refusal>
    ensures { fault result ≡ open_fault w (as_cells n) memory answer }
{
    n.check()?;
    if !width_in(w) {
        return Err(Refusal::Window);
    }
    let length = n.table_length();
    if (memory == tables(w, length)) & (answer == length) {
        Ok(())
    } else {
        Err(Refusal::Tables)
    }
}

// ---- tables

// Copies the table to the places from `at` on.
fn store(memory: &mut [f32], at: usize, table: &[f32])
    requires { at + length table.now ≤ length memory.old }
    ensures { memory.new ≡ paste memory.old at table.now (length table.now) }
{
    // `copy_from_slice` would be a call of memmove, which the library for C needs for nothing else.
    for i in 0..table.len() {
        memory[at + i] = table[i];
    }
}

// For each cell the greater of the two figures.
// One table and four have a function each, here and below: over N tables a turn would hold a loop of its own.
fn raise(answer: &mut [f32], table: &[f32])
    requires { length table.now ≡ length answer.old }
    ensures { answer.new ≡ raised answer.old table.now }
{
    for (i, figure) in answer.iter_mut().enumerate() {
        *figure = greater(*figure, table[i]);
    }
}

// The same with four tables, so that the answer is gone through once for the four.
fn raise_four(answer: &mut [f32], a: &[f32], b: &[f32], c: &[f32], d: &[f32])
    requires { Alike answer.old a.now b.now c.now d.now }
    ensures { answer.new ≡ raised_four answer.old a.now b.now c.now d.now }
{
    for (i, figure) in answer.iter_mut().enumerate() {
        let first = greater(*figure, a[i]);
        let second = greater(first, b[i]);
        let third = greater(second, c[i]);
        *figure = greater(third, d[i]);
    }
}

// The table in the place before `at`, and that place.
// That w tables lie in the memory is asked for three times: C hands in the memory beside the window, and a struct of both is no plainer.
fn raise_one_before(answer: &mut [f32], memory: &[f32], w: usize, at: usize) -> usize
    requires { (at < w) × (w * length answer.old ≤ length memory.now) }
    ensures place { result ≡ before_of w at }
    ensures answer { answer.new ≡ raised answer.old (table_at (length answer.old) memory.now result) }
{
    let n = answer.len();
    let p = before(w, at);
    raise(answer, &memory[p * n..p * n + n]);
    p
}

// The tables in the four places before `at`, the newest first, and the last of these places.
fn raise_four_before(answer: &mut [f32], memory: &[f32], w: usize, at: usize) -> usize
    requires { (at < w) × (w * length answer.old ≤ length memory.now) }
    ensures place { result ≡ before_of w (before_of w (before_of w (before_of w at))) }
    ensures answer { let table = table_at (length answer.old) memory.now in
        let p = before_of w at in
        let q = before_of w p in
        answer.new ≡ raised_four answer.old (table p) (table q) (table (before_of w q)) (table result) }
{
    let n = answer.len();
    let a = before(w, at);
    let b = before(w, a);
    let c = before(w, b);
    let d = before(w, c);
    raise_four(
        answer,
        &memory[a * n..a * n + n],
        &memory[b * n..b * n + n],
        &memory[c * n..c * n + n],
        &memory[d * n..d * n + n],
    );
    d
}

// The tables in the `held` places before `next`, going round, the newest first; four at a time while there are four.
fn raise_ring(answer: &mut [f32], memory: &[f32], w: usize, held: usize, next: usize)
    requires { (next < w) × (w * length answer.old ≤ length memory.now) }
    ensures { answer.new ≡ raised_by answer.old (ring (length answer.old) w memory.now held next) }
{
    let mut at = next;
    for _ in 0..held / 4 {
        at = raise_four_before(answer, memory, w, at);
    }
    for _ in 0..held % 4 {
        at = raise_one_before(answer, memory, w, at);
    }
}

// ---- a push and an opening

impl Window {
    // Takes the table into its place, and writes the answer of the tables that are held. A refused push changes nothing.
    #[tactic(auto, using(crate::proofs::Whole::push_refused, refusals::proofs::Exits::number_some))]
    pub fn push(
        &mut self,
        n: Cells,
        table: &[f32],
        memory: &mut [f32],
        answer: &mut [f32],
    ) -> Result<(), Refusal>
        ensures number { let before = state_of self.old memory.old answer.old in
            fault result ≡ push_fault before (table_of (as_cells n) table.now) }
        ensures state { let before = state_of self.old memory.old answer.old in
            state_of self.new memory.new answer.new ≡ push_of before (table_of (as_cells n) table.now) }
    {
        check_push(*self, n, table, memory.len(), answer.len())?;
        let start = (self.next as usize) * table.len();
        store(memory, start, table);
        let window = advanced(*self);
        zero(answer);
        raise_ring(
            answer,
            memory,
            window.w as usize,
            window.held as usize,
            window.next as usize,
        );
        *self = window;
        Ok(())
    }

    // A window that holds no table yet. Memory and answer are zeroed.
    pub fn open(w: u32, n: Cells, memory: &mut [f32], answer: &mut [f32]) -> Result<Window, Refusal>
        ensures number { fault result ≡ open_fault w (as_cells n) (length memory.old) (length answer.old) }
        ensures state { state_of (value_or shut (said_by result)) memory.new answer.new
            ≡ opened w (as_cells n) (length memory.old) (length answer.old) }
    {
        let test = check_open(w, n, memory.len(), answer.len());
        zero(memory);
        zero(answer);
        test?;
        let Cells { x, y, z } = n;
        Ok(Window {
            w,
            x,
            y,
            z,
            held: 0,
            next: 0,
        })
    }
}
