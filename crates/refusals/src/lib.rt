// The refusals: an answer is a value or one of them. README.md says in words what each number means.
#![tactic(auto)]

ghost use Rattle.std.specs.Prelude.{◌≡◌, ◌&&◌};
ghost use Rattle.refusals.specs.Faults.{◌then◌};
ghost use Rattle.refusals.specs.Numbers.{number, fault_of};

// Why bytes, a record, a box or a point are refused: the variants stand in the order of their numbers, from 1 on.
#[derive(Clone, Copy, Debug, PartialEq, Eq)]
pub enum Refusal {
    TooLong = 1,
    TooShort,
    Header,
    WorldBox,
    PastEnd,
    Overlap,
    KeyBit,
    ChildTarget,
    NoPlace,
    NodeCounts,
    Record,
    NotFinite,
    Map,
    IndexBox,
    Negative,
    Coordinate,
    SecondBox,
    Tables,
    File,
    Codec,
    NoGrid,
    Ray,
    Cells,
    Outside,
    Classes,
    Window,
    Temperature,
    Layer,
}

impl Refusal {
    // The number that the C interface and the texts have for it.
    pub fn number(self) -> u32
        ensures { result ≡ number self }
    {
        self as u32
    }
}

// The number of a test's refusal, and 0 where it passes.
pub fn fault(test: Result<(), Refusal>) -> u32
    ensures { result ≡ fault_of test }
{
    match test {
        Ok(()) => 0,
        Err(e) => e.number(),
    }
}

// The first of two faults, of which 0 is none: a public name, though `?` over results says it here.
pub fn first_fault(a: u32, b: u32) -> u32
    ensures { result ≡ (a then b) }
{
    if a == 0 { b } else { a }
}

// A public name too, for what `&&` says.
pub fn both(a: bool, b: bool) -> bool
    ensures { result ≡ (a && b) }
{
    if a { b } else { false }
}
