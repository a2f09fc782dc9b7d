// Whole .nvdb files: which part of a file's bytes holds grid n, and which part its name. Every segment is tested, whatever n is.
#![tactic(auto)]

ghost use Rattle.std.specs.Prelude.{◌≡◌, ◌+◌, ◌≤◌, IfOk, length};
ghost use Rattle.contents.specs.Contents.{pick, pick_name, located, loaded};
ghost use Rattle.contents.specs.Answers.{span_said};
ghost use Rattle.contents.specs.Inner.{grid_said};

mod segment;

use refusals::Refusal;
use segment::Segment;

// A part of a file's bytes.
#[derive(Clone, Copy, Debug, PartialEq, Eq)]
pub struct Span {
    pub start: usize,
    pub length: usize,
}

// Where the name of a grid and its body stand.
#[derive(Clone, Copy)]
struct Grid {
    name: Span,
    body: Span,
}

// Where grid n stands, counted from 0 through all segments: one pass over them.
fn locate(file: &[u8], n: usize) -> Result<Grid, Refusal>
    ensures { grid_said result ≡ located file.now n }
{
    if file.is_empty() {
        return Err(Refusal::File);
    }
    let mut at = 0;
    let mut found = Err(n);
    // There is no count to go by: each segment says where the next one starts.
    while at < file.len() {
        let segment = Segment::read(file, at)?;
        if let Err(left) = found {
            found = segment.nth(left);
        }
        at = segment.end;
    }
    found.or(Err(Refusal::NoGrid))
}

// The part that holds grid n.
#[tactic(auto, unfolding(crate::specs::Contents::pick))]
pub fn grid_span(file: &[u8], n: usize) -> Result<Span, Refusal>
    ensures { span_said result ≡ pick file.now n }
{
    Ok(locate(file, n)?.body)
}

// The part that holds the name of grid n.
#[tactic(auto, unfolding(crate::specs::Contents::pick_name))]
pub fn name_span(file: &[u8], n: usize) -> Result<Span, Refusal>
    ensures { span_said result ≡ pick_name file.now n }
{
    Ok(locate(file, n)?.name)
}

// The bytes of a part, none on a refusal.
fn bytes_of(file: &[u8], found: Result<Span, Refusal>) -> &[u8]
    requires { IfOk found (λ p. p.start + p.length ≤ length file.now) }
    ensures { result.now ≡ loaded file.now (span_said found) }
{
    match found {
        Ok(span) => &file[span.start..span.start + span.length],
        Err(_) => &[],
    }
}

// The bytes of grid n, none on a refusal.
pub fn part(file: &[u8], n: usize) -> &[u8]
    ensures { result.now ≡ loaded file.now (pick file.now n) }
{
    bytes_of(file, grid_span(file, n))
}

// The bytes of its name, none on a refusal.
pub fn grid_name(file: &[u8], n: usize) -> &[u8]
    ensures { result.now ≡ loaded file.now (pick_name file.now n) }
{
    bytes_of(file, name_span(file, n))
}
