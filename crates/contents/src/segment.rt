// One segment of a file: its header, its entries with their names, and its bodies. Each place is tested before a sum is formed from it.
ghost use Rattle.std.specs.Prelude.{◌≡◌, ◌+◌, ◌≤◌, IfOk, length};
ghost use Rattle.refusals.specs.Numbers.{fault_of};
ghost use Rattle.contents.specs.Segments.{count, size, name_length, entry_end, header_holds, header_passes};
ghost use Rattle.contents.specs.Segments.{entry_holds, entry_passes, body_passes, body_at, grid_at, entries_fault, bodies_fault, segment_fault, segment_end};
ghost use Rattle.contents.specs.Inner.{Passed};
ghost use Rattle.refusals.specs.Faults.{unless};

use crate::{Grid, Span};
use layout::Field;
use refusals::Refusal;

const HEADER: usize = 16;

const ENTRY: usize = 176;

// "NanoVDB2".
const MARK: u64 = 0x324244566f6e614e;

// A header inside the file: a mark, a grid or more, and major version 32.
#[derive(Clone, Copy)]
struct Header<'a> {
    file: &'a [u8],
    at: usize,
    ghost inside: { at + 16 ≤ length file.now },
}

// A segment without a fault: its header, and where its bodies start and where it ends.
#[derive(Clone, Copy)]
pub(crate) struct Segment<'a> {
    header: Header<'a>,
    bodies: usize,
    pub end: usize,
    ghost no_fault: { segment_fault header.file.now header.at ≡ 0 },
    ghost begins: { bodies ≡ body_at header.file.now header.at 0 },
    ghost ends: { end ≡ segment_end header.file.now header.at },
}

// The length of the body whose entry stands at `at`.
fn size_at(file: &[u8], at: usize) -> usize
    ensures { result ≡ size file.now at }
{
    u64::at(file, at) as usize
}

fn name_length(file: &[u8], at: usize) -> usize
    requires { at + 176 ≤ length file.now }
    ensures { result ≡ name_length file.now at }
{
    u32::at(file, at + 136) as usize
}

// The place after the name of the entry at `at`, both inside the file.
fn entry_end(file: &[u8], at: usize) -> usize
    requires { entry_end file.now at ≤ length file.now }
    ensures { result ≡ entry_end file.now at }
{
    at + ENTRY + name_length(file, at)
}

fn body_passes(n: usize, at: usize, size: usize) -> bool
    ensures { result ≡ body_passes n at size }
{
    736 <= size && layout::inside(n, at, size)
}

impl<'a> Header<'a> {
    #[tactic(auto, unfolding(crate::specs::Segments::header_holds))]
    fn holds(&self) -> bool
        ensures { result ≡ header_holds self.now.file.now self.now.at }
    {
        layout::mark_passes(u64::at(self.file, self.at), MARK)
            && 0 < u16::at(self.file, self.at + 12)
            && u32::at(self.file, self.at + 8) / 2097152 == 32
    }

    // The header at `at`, which passes.
    fn read(file: &'a [u8], at: usize) -> Result<Header<'a>, Refusal>
        ensures fault { fault_of result ≡ unless (header_passes file.now at) 19 }
        ensures same { IfOk result (λ h. (h.file.now ≡ file.now) × (h.at ≡ at)) }
    {
        if layout::inside(file.len(), at, HEADER) {
            let header = Header { file, at };
            if header.holds() {
                return Ok(header);
            }
        }
        Err(Refusal::File)
    }

    // How many grids the segment has.
    fn grids(&self) -> usize
        ensures { result ≡ count self.now.file.now self.now.at }
    {
        usize::from(u16::at(self.file, self.at + 12))
    }

    #[tactic(auto, unfolding(crate::specs::Segments::entry_holds))]
    fn entry_holds(&self, at: usize) -> bool
        requires { at + 176 ≤ length self.now.file.now }
        ensures { result ≡ entry_holds self.now.file.now self.now.at at }
    {
        let file = self.file;
        let codec = u16::at(file, at + 168) == u16::at(file, self.at + 14);
        let version = u32::at(file, at + 172) == u32::at(file, self.at + 8);
        let name = name_length(file, at);
        codec && version && 0 < name && layout::inside(file.len(), at + ENTRY, name)
    }

    fn entry_passes(&self, at: usize) -> bool
        ensures { result ≡ entry_passes self.now.file.now self.now.at at }
    {
        layout::inside(self.file.len(), at, ENTRY) && self.entry_holds(at)
    }

    // The entries in order, each with its name: the place after the last, where the bodies start.
    fn entries(&self) -> Result<usize, Refusal>
        ensures fault { fault_of result ≡ entries_fault self.now.file.now self.now.at }
        ensures end { IfOk result (λ end. end ≡ body_at self.now.file.now self.now.at 0) }
    {
        let mut at = self.at + HEADER;
        for _ in 0..self.grids() {
            if !self.entry_passes(at) {
                return Err(Refusal::File);
            }
            at = entry_end(self.file, at);
        }
        Ok(at)
    }

    // The bodies in order, from `start` on, by the sizes in the entries: the place after the last.
    fn bodies(&self, start: usize) -> Result<usize, Refusal>
        requires named { entries_fault self.now.file.now self.now.at ≡ 0 }
        requires begins { start ≡ body_at self.now.file.now self.now.at 0 }
        ensures fault { fault_of result ≡ bodies_fault self.now.file.now self.now.at }
        ensures end { IfOk result (λ end. end ≡ segment_end self.now.file.now self.now.at) }
    {
        let mut entry = self.at + HEADER;
        let mut at = start;
        for _ in 0..self.grids() {
            let size = size_at(self.file, entry);
            if !body_passes(self.file.len(), at, size) {
                return Err(Refusal::File);
            }
            at += size;
            entry = entry_end(self.file, entry);
        }
        Ok(at)
    }
}

impl<'a> Segment<'a> {
    // The segment at `at`, from its header to its last body: 20 stands between the entries and the bodies.
    #[tactic(auto, unfolding(crate::specs::Segments::segment_fault))]
    pub(crate) fn read(file: &'a [u8], at: usize) -> Result<Segment<'a>, Refusal>
        ensures fault { fault_of result ≡ segment_fault file.now at }
        ensures same { IfOk result (λ s. (s.header.file.now ≡ file.now) × (s.header.at ≡ at)) }
    {
        let header = Header::read(file, at)?;
        let bodies = header.entries()?;
        if u16::at(file, at + 14) != 0 {
            return Err(Refusal::Codec);
        }
        let end = header.bodies(bodies)?;
        Ok(Segment {
            header,
            bodies,
            end,
        })
    }

    // Grid k of the segment, or how many are left to be passed behind it.
    pub(crate) fn nth(&self, k: usize) -> Result<Grid, usize>
        ensures { Passed self.now.header.file.now self.now.header.at k result }
    {
        let file = self.header.file;
        let start = self.header.at;
        let grids = self.header.grids();
        if grids <= k {
            return Err(k - grids);
        }
        let mut entry = start + HEADER;
        let mut at = self.bodies;
        for _ in 0..k {
            at += size_at(file, entry);
            entry = entry_end(file, entry);
        }
        Ok(Grid {
            name: Span {
                start: entry + ENTRY,
                length: name_length(file, entry),
            },
            body: Span {
                start: at,
                length: size_at(file, entry),
            },
        })
    }
}
