// The refusals of the rules (RULES E), one name for each number.
#![tactic(auto)]

ghost use Rattle.std.specs.Prelude.{◌≡◌};
ghost use Rattle.answers.specs.Number.{number_of};

// Why a call refused. RULES E1 to E22, in their order.
#[derive(Clone, Copy, Debug, PartialEq, Eq, PartialOrd, Ord)]
pub enum Refusal {
    BadTable,
    NoProcess,
    BadAddress,
    BadRange,
    BadFlags,
    NoFile,
    NoRegion,
    NoSpace,
    SegmentReserved,
    InvalidSplitPoint,
    NotReserved,
    NotAccessible,
    NotWritable,
    OutOfMemory,
    ReadFailed,
    MapFailed,
    UnsupportedRegion,
    EagerBacking,
    Shared,
    InUse,
    TableFull,
    Denied,
}

impl Refusal {
    // The number of this refusal, 1 to 22 (RULES E). A match, and no `as u64 + 1`, so that each number stands beside its name.
    pub fn number(self) -> u64
        ensures { result ≡ number_of self }
    {
        match self {
            Refusal::BadTable => 1,
            Refusal::NoProcess => 2,
            Refusal::BadAddress => 3,
            Refusal::BadRange => 4,
            Refusal::BadFlags => 5,
            Refusal::NoFile => 6,
            Refusal::NoRegion => 7,
            Refusal::NoSpace => 8,
            Refusal::SegmentReserved => 9,
            Refusal::InvalidSplitPoint => 10,
            Refusal::NotReserved => 11,
            Refusal::NotAccessible => 12,
            Refusal::NotWritable => 13,
            Refusal::OutOfMemory => 14,
            Refusal::ReadFailed => 15,
            Refusal::MapFailed => 16,
            Refusal::UnsupportedRegion => 17,
            Refusal::EagerBacking => 18,
            Refusal::Shared => 19,
            Refusal::InUse => 20,
            Refusal::TableFull => 21,
            Refusal::Denied => 22,
        }
    }
}
