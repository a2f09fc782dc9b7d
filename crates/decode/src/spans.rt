// The spans that a decoder has claimed, in lent words: four to a span. A node is found, and an overlap refused, by chains, which stand in the same
// words: by a rule of the project nothing is allocated, so there is no map.
ghost use Rattle.std.specs.Prelude.{◌≡◌, Bool, true, false, ◌&&◌, List, [], ◌∷◌, ◌++◌, ℕ, ◌+◌, ◌-◌, ◌*◌, ◌/◌, ◌%◌, ◌<◌, ◌≤◌, ◌^◌, length, get_or, ltb, eqb, IfSome};
ghost use Rattle.nanovdb.specs.Spans.{overlaps, seen};
ghost use Rattle.decode.specs.Inner.WorkTable.{size, spans, header_span, root_span, chain_in, Rep, Searched, MetAt, seen_of};
ghost use Rattle.decode.specs.Inner.Kinds.{level_of};
ghost use Rattle.decode.specs.Inner.WorkTable.{Small, put_s, Pushed, ClaimOut, RootOut, EnterOut};

use crate::kinds::{Kind, size_of};
use refusals::Refusal;

// How many nodes have been claimed, and where the root stands.
#[derive(Clone, Copy)]
pub struct Spans {
    pub count: usize,
    pub root: u64,
    pub limit: u64,
}

// A node that has been read before, by its number, or a new one and the spans with it.
#[derive(Clone, Copy)]
pub enum Entered {
    Again(u32),
    Fresh(Spans),
}

// A node that is to be read: where it starts, and the number that it has if it is new.
#[derive(Clone, Copy)]
pub struct Node {
    pub start: u64,
    pub kind: Kind,
    pub number: u32,
}

fn over(a: u64, word: u64, start: u64, end: u64) -> bool
    ensures { result ≡ (ltb a end && ltb start (a + size (word % 4))) }
{
    let s = size_of(word % 4);
    a < end && (start < s || start - s < a)
}

// Whether the header or the root is met.
#[tactic(auto, unfolding(nanovdb::specs::Spans::overlaps))]
fn fixed(root: u64, limit: u64, start: u64, end: u64) -> bool
    requires { start < end }
    ensures { result ≡ overlaps (header_span ∷ (root_span root limit ∷ [])) start end }
{
    start < 736 || (root < end && start < limit)
}

#[tactic(auto, unfolding(crate::specs::Inner::WorkTable::chain_in))]
fn chain(n: usize, kind: Kind, q: u64) -> usize
    requires { (0 < n) × (q < 2 ^ 60) }
    ensures { (result ≡ chain_in n (level_of kind) q) × (result < n) }
{
    ((q + kind.level()) % (n as u64)) as usize
}

// The place of a node of chain h that passes a test of its first two words, if there is one. A link is one more than a place, and 0 ends a chain.
fn search<F: Fn(u64, u64) -> bool>(work: &[u64], count: usize, h: usize, passes: F) -> Option<usize>
    requires callable { F.IsAlwaysCallable passes }
    requires rep { Rep work.now count }
    requires chain { h < length work.now / 4 }
    ensures place { IfSome result (λ j. j < count) }
    ensures found { (test : ℕ → Bool) → ((i : ℕ) (b : Bool) → F.post passes (get_or work.now (i * 4) 0) (get_or work.now (i * 4 + 1) 0) b → b ≡ test i)
        → Searched work.now count h test result }
{
    let mut v = work[h * 4 + 3];
    while 0 < v {
        let j = (v - 1) as usize;
        if passes(work[j * 4], work[j * 4 + 1]) {
            return Some(j);
        }
        v = work[j * 4 + 2];
    }
    None
}

// The first stretch of a level with a node that can reach start.
fn first(start: u64, size: u64) -> u64
    requires { (0 < size) × (size ≤ 270400) }
    ensures { result ≡ (start + 1 - size) / size }
{
    if start < size {
        0
    } else {
        (start - size + 1) / size
    }
}

fn meets_at(work: &[u64], count: usize, kind: Kind, start: u64, end: u64) -> bool
    requires { Rep work.now count × (start < end) }
    ensures { MetAt work.now count (level_of kind) start end result }
{
    let n = work.len() / 4;
    let size = kind.size();
    let last = (end - 1) / size;
    for q in first(start, size)..last + 1 {
        let h = chain(n, kind, q);
        let met = search(
            work,
            count,
            h,
            |a: u64, word: u64| over(a, word, start, end),
        );
        if met.is_some() {
            return true;
        }
    }
    false
}

// The number of the node of this kind that starts here, if it has been claimed.
fn find(work: &[u64], st: Spans, start: u64, kind: Kind) -> Option<u32>
    requires { Rep work.now st.count }
    ensures { (seen_of result ≡ seen (spans work.now st.count st.root st.limit) start (level_of kind)) × Small result }
{
    let level = kind.level();
    let h = chain(work.len() / 4, kind, start / kind.size());
    let j = search(
        work,
        st.count,
        h,
        |a: u64, word: u64| a == start && word % 4 == level,
    )?;
    Some((work[j * 4 + 1] / 4) as u32)
}

// Whether some span overlaps the bytes from start to end.
fn meets(work: &[u64], st: Spans, start: u64, end: u64) -> bool
    requires { Rep work.now st.count × (start < end) }
    ensures { result ≡ overlaps (spans work.now st.count st.root st.limit) start end }
{
    fixed(st.root, st.limit, start, end)
        || meets_at(work, st.count, Kind::Leaf, start, end)
        || meets_at(work, st.count, Kind::Lower, start, end)
        || meets_at(work, st.count, Kind::Upper, start, end)
}

#[tactic(auto, unfolding(crate::specs::Inner::WorkTable::put_s))]
fn put(work: &mut [u64], h: usize, count: usize, start: u64, word: u64)
    requires { (count * 4 + 4 ≤ length work.old) × (h < length work.old / 4) }
    ensures { work.new ≡ put_s work.old h count start word }
{
    let head = work[h * 4 + 3];
    work[count * 4] = start;
    work[count * 4 + 1] = word;
    work[count * 4 + 2] = head;
    work[h * 4 + 3] = (count + 1) as u64;
}

// Claims a node, which no span overlaps.
fn push(work: &mut [u64], st: Spans, node: Node) -> Spans
    requires { (Rep work.old st.count × (st.count * 4 + 12 ≤ length work.old))
        × ((node.number < 4294967295)
        × (overlaps (spans work.old st.count st.root st.limit) node.start (node.start + size (level_of node.kind)) ≡ false)) }
    ensures { Pushed work.old work.new st result node.start (level_of node.kind) node.number }
{
    let n = work.len() / 4;
    let count = st.count;
    let h = chain(n, node.kind, node.start / node.kind.size());
    let word = node.number as u64 * 4 + node.kind.level();
    put(work, h, count, node.start, word);
    Spans {
        count: count + 1,
        ..st
    }
}

// Claims a node in len bytes, or says why not: 5 past the end, 6 an overlap, 9 no room.
fn claim(len: u64, work: &mut [u64], st: Spans, node: Node) -> Result<Spans, Refusal>
    requires { Rep work.old st.count × (node.number < 4294967295) }
    ensures { ClaimOut len work.old work.new st result node.start (level_of node.kind) node.number }
{
    let start = node.start;
    let size = node.kind.size();
    if len < start || len - start < size {
        return Err(Refusal::PastEnd);
    }
    if meets(work, st, start, start + size) {
        return Err(Refusal::Overlap);
    }
    if work.len() / 4 < st.count + 3 {
        return Err(Refusal::NoPlace);
    }
    Ok(push(work, st, node))
}

// The words hold no node.
fn clear(work: &mut [u64])
    requires { 8 ≤ length work.old }
    ensures { (Rep work.new 0) × (length work.new ≡ length work.old) }
{
    let n = work.len() / 4;
    for h in 0..n {
        work[h * 4 + 3] = 0;
    }
}

// Claims the root, from root to limit, behind the header's span, and empties the chains.
pub(crate) fn begin(len: u64, work: &mut [u64], root: u64, limit: u64) -> Result<Spans, Refusal>
    requires { root < limit }
    ensures { RootOut len work.old work.new result root limit }
{
    if len < limit {
        return Err(Refusal::PastEnd);
    }
    if root < 736 {
        return Err(Refusal::Overlap);
    }
    if work.len() / 4 < 2 {
        return Err(Refusal::NoPlace);
    }
    clear(work);
    Ok(Spans {
        count: 0,
        root,
        limit,
    })
}

// The node of this kind that starts here: one that has been claimed is used again, and any other is claimed.
pub(crate) fn enter(len: u64, work: &mut [u64], st: Spans, node: Node) -> Result<Entered, Refusal>
    requires { Rep work.old st.count × (node.number < 4294967295) }
    ensures { EnterOut len work.old work.new st result node.start (level_of node.kind) node.number }
{
    match find(work, st, node.start, node.kind) {
        Some(n) => Ok(Entered::Again(n)),
        None => Ok(Entered::Fresh(claim(len, work, st, node)?)),
    }
}
