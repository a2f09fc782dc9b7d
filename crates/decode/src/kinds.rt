// The kinds of nodes, which the definition numbers by level: 0 for a leaf, 1 for a lower and 2 for an upper node.
ghost use Rattle.std.specs.Prelude.{◌≡◌, suc, ◌≤◌, IsNone, IfSome};
ghost use Rattle.nanovdb.specs.Nodes.{entries_of, mask_of, table_of};
ghost use Rattle.decode.specs.Inner.Kinds.{level_of};
ghost use Rattle.decode.specs.Inner.WorkTable.{size};

#[derive(Clone, Copy)]
pub enum Kind {
    Leaf,
    Lower,
    Upper,
}

// The bytes of a node, by its level: a number, as a word of the work table keeps it in two bits.
#[tactic(auto, unfolding(crate::specs::Inner::WorkTable::size))]
pub(crate) fn size_of(level: u64) -> u64
    ensures is { result ≡ size level }
    ensures least { 2144 ≤ result }
    ensures most { result ≤ 270400 }
{
    match level {
        0 => 2144,
        1 => 33856,
        _ => 270400,
    }
}

impl Kind {
    pub(crate) fn level(self) -> u64
        ensures { result ≡ level_of self }
    {
        match self {
            Kind::Leaf => 0,
            Kind::Lower => 1,
            Kind::Upper => 2,
        }
    }

    // The kind of its children: a leaf has none.
    pub(crate) fn below(self) -> Option<Kind>
        ensures some { IfSome result (λ k. level_of self ≡ suc (level_of k)) }
        ensures none { IsNone result → level_of self ≡ 0 }
    {
        match self {
            Kind::Leaf => None,
            Kind::Lower => Some(Kind::Leaf),
            Kind::Upper => Some(Kind::Lower),
        }
    }

    pub(crate) fn size(self) -> u64
        ensures is { result ≡ size (level_of self) }
        ensures least { 2144 ≤ result }
        ensures most { result ≤ 270400 }
    {
        size_of(self.level())
    }

    pub(crate) fn entries(self) -> usize
        ensures { result ≡ entries_of (level_of self) }
    {
        match self {
            Kind::Leaf => 512,
            Kind::Lower => 4096,
            Kind::Upper => 32768,
        }
    }

    // Where its child mask stands in it.
    pub(crate) fn mask(self) -> usize
        ensures is { result ≡ mask_of (level_of self) }
        ensures most { result ≤ 4128 }
    {
        match self {
            Kind::Leaf => 0,
            Kind::Lower => 544,
            Kind::Upper => 4128,
        }
    }

    // Where its values or its slots stand in it.
    pub(crate) fn table(self) -> usize
        ensures { result ≡ table_of (level_of self) }
    {
        match self {
            Kind::Leaf => 96,
            Kind::Lower => 1088,
            Kind::Upper => 8256,
        }
    }
}
