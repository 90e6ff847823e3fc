// The heads and answers of a set in C's structs, which both archives for C hand over: include/kladomyne.h has the same structs in
// C's words. Each conversion turns a value of the library into those numbers, or a head back, and nothing else: specs/Told.antt.
// No entry and no export: a library of the crates capi and capi_ledger. Assumes nothing.
#![tactic(auto)]

ghost use Rattle.std.specs.Prelude.{◌≡◌};
ghost use Rattle.capi_told.specs.Told.{set_of, head_of, told_made, told_counted, told_tested, told_found, told_placed, told_assigned};

use answers::{Changed, Refusal};
use range_bitset::RangeBitset;
use std::ops::Range;

// The head of a set.
#[repr(C)]
#[derive(Clone, Copy, Debug, Default, PartialEq, Eq)]
pub struct KladoSet {
    pub words: u32,
    pub len: u32,
    pub allocated: bool,
}

// What the calls give that make or change a set. C has no Result, so 0 or the refusal stands beside the value; so in the next two.
#[repr(C)]
#[derive(Clone, Copy, Debug, PartialEq, Eq)]
pub struct KladoSetAnswer {
    pub refused: u32,
    pub value: u32,
    pub head: KladoSet,
}

// What the calls give that ask for a number.
#[repr(C)]
#[derive(Clone, Copy, Debug, PartialEq, Eq)]
pub struct KladoAnswer {
    pub refused: u32,
    pub value: u32,
}

// What the searches give: where a run starts, and where it ends. C has no Option, so `found` stands beside them; so in the next.
#[repr(C)]
#[derive(Clone, Copy, Debug, PartialEq, Eq)]
pub struct KladoFound {
    pub refused: u32,
    pub found: u32,
    pub at: u64,
    pub end: u64,
}

// What a call gives that asks for one position.
#[repr(C)]
#[derive(Clone, Copy, Debug, PartialEq, Eq)]
pub struct KladoPlace {
    pub refused: u32,
    pub found: u32,
    pub at: u64,
}

// A head in C's struct as the set's own, and back.
impl From<KladoSet> for RangeBitset {
    ghost from_gives = { λ head set. set ≡ set_of head };

    fn from(head: KladoSet) -> RangeBitset {
        RangeBitset {
            words: head.words,
            len: head.len,
            allocated: head.allocated,
        }
    }
}

impl From<RangeBitset> for KladoSet {
    ghost from_gives = { λ set head. head ≡ head_of set };

    fn from(set: RangeBitset) -> KladoSet {
        KladoSet {
            words: set.words,
            len: set.len,
            allocated: set.allocated,
        }
    }
}

// The answers in C's numbers.
impl From<Result<RangeBitset, Refusal>> for KladoSetAnswer {
    ghost from_gives = { λ answer told. told ≡ told_made answer };

    fn from(answer: Result<RangeBitset, Refusal>) -> KladoSetAnswer {
        let made = answer.map(|head| Changed { answer: 0, head });
        KladoSetAnswer::after(KladoSet::default(), made)
    }
}

impl From<Result<u32, Refusal>> for KladoAnswer {
    ghost from_gives = { λ answer told. told ≡ told_counted answer };

    fn from(answer: Result<u32, Refusal>) -> KladoAnswer {
        match answer {
            Ok(value) => KladoAnswer { refused: 0, value },
            Err(refusal) => KladoAnswer {
                refused: u8::from(refusal) as u32,
                value: 0,
            },
        }
    }
}

impl From<Result<bool, Refusal>> for KladoAnswer {
    ghost from_gives = { λ answer told. told ≡ told_tested answer };

    fn from(answer: Result<bool, Refusal>) -> KladoAnswer {
        KladoAnswer::from(answer.map(u32::from))
    }
}

impl From<Result<Option<Range<usize>>, Refusal>> for KladoFound {
    ghost from_gives = { λ answer told. told ≡ told_found answer };

    fn from(answer: Result<Option<Range<usize>>, Refusal>) -> KladoFound {
        let (refused, found, at, end) = match answer {
            Ok(Some(run)) => (0, 1, run.start as u64, run.end as u64),
            Ok(None) => (0, 0, 0, 0),
            Err(refusal) => (u8::from(refusal) as u32, 0, 0, 0),
        };
        KladoFound {
            refused,
            found,
            at,
            end,
        }
    }
}

impl From<Result<Option<usize>, Refusal>> for KladoPlace {
    ghost from_gives = { λ answer told. told ≡ told_placed answer };

    fn from(answer: Result<Option<usize>, Refusal>) -> KladoPlace {
        let (refused, found, at) = match answer {
            Ok(Some(i)) => (0, 1, i as u64),
            Ok(None) => (0, 0, 0),
            Err(refusal) => (u8::from(refusal) as u32, 0, 0),
        };
        KladoPlace { refused, found, at }
    }
}

impl KladoSetAnswer {
    // What a call gives that changes a set: after a refused one the head is what it was. The ledger's `after` is apart, for another of C's structs.
    pub fn after(head: KladoSet, change: Result<Changed<u32, RangeBitset>, Refusal>) -> Self
        ensures { result ≡ told_assigned head change }
    {
        match change {
            Ok(changed) => KladoSetAnswer {
                refused: 0,
                value: changed.answer,
                head: KladoSet::from(changed.head),
            },
            Err(refusal) => KladoSetAnswer {
                refused: u8::from(refusal) as u32,
                value: 0,
                head,
            },
        }
    }
}
