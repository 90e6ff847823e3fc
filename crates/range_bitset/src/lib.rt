// Fixed-capacity bitset whose range assignment, range count and next-set / next-clear searches do bounded work: the range's
// ends and at most 64 blocks, never the words of the capacity. A port of `RangeBitset` (NOTICE), in its order and under its names.
//
// Positions live in data words of 64 bits. Every 64 data words form a block with two masks -- the words that hold any set
// bit, and the words that are entirely set -- and every block is likewise summarised in one top-level pair of masks. A
// mask bit is authoritative: a word marked empty or full reads as zero or all ones whatever its stored contents, and so
// does a block. With at most 4,096 data words there are at most 64 blocks, so that the top level is a single pair of words. A
// range assignment therefore rewrites at most the two partial words at its ends, the masks of the two
// partial blocks around them and the top masks; the words and blocks it covers wholesale keep stale contents until a point
// update next opens them. Each block also keeps its population so a range count never reads covered words one at a time.
//
// The storage is lent with each call; the head goes in and comes back by value. Any head, number and memory is safe: an
// entry refuses what 01's table refuses, and inside, sums wrap and masks are cut to the words and blocks that there are.
// Assumes nothing of its callers: no entry has a `requires`.
//
// The files, in the Rust's order: this one, head, layout, read, open, whole, assign, count, search, clear. Not the Rust's are unit, by which assign
// and count cut a range, select, with level and in_word below it, and shown, by whose entries `audit` reads.
#![tactic(auto)]

ghost use Rattle.std.specs.Prelude.{◌≡◌, ◌+◌, ◌^◌, ◌<◌, ◌≤◌};
ghost use Rattle.bits.specs.Bit.{bit, put};
ghost use Rattle.range_bitset.specs.Inner.{Room, Spans, moved};

mod assign;
mod clear;
mod count;
mod head;
mod in_word;
mod layout;
mod level;
mod open;
mod read;
mod search;
mod select;
mod shown;
mod unit;
mod whole;

pub const ALL: u64 = u64::MAX;

// Bits strictly above `bit` in one word.
fn above(bit: usize) -> u64
    requires { bit ≤ 63 }
    ensures { Spans result (bit + 1) 64 }
{
    if bit >= 63 { 0 } else { ALL << (bit + 1) }
}

// Bits `from..to` of one word.
fn span(from: usize, to: usize) -> u64
    requires { (from < to) × (to ≤ 64) }
    ensures { Spans result from to }
{
    (ALL >> (64 - (to - from))) << from
}

// Bits `from..64` of one word.
fn rest(from: usize) -> u64
    requires { from < 64 }
    ensures { Spans result from 64 }
{
    ALL << from
}

// The bit `i` of one word, by itself.
fn single(i: usize) -> u64
    requires { i < 64 }
    ensures { result ≡ 2 ^ i }
{
    1u64 << i
}

fn has_bit(word: u64, i: usize) -> bool
    requires { i < 64 }
    ensures { result ≡ bit word i }
{
    word & (1u64 << i) != 0
}

// The bits of `mask` set or cleared.
fn combined(old: u64, mask: u64, value: bool) -> u64
    ensures { result ≡ put 64 old mask value }
{
    if value { old | mask } else { old & !mask }
}

// `p - old + new`, wrapping, so that any memory is safe.
fn moved(p: u64, old: u32, new: u32) -> u64
    ensures { result ≡ moved p old new }
{
    p.wrapping_sub(old as u64).wrapping_add(new as u64)
}

// What is known of a block from the top masks alone.
#[derive(Clone, Copy, Debug, PartialEq, Eq)]
pub enum State {
    Empty,
    Mixed,
    Full,
}

// A bitset over `0..capacity` positions: its head. The storage holds anything before `allocated`, which is a flag, since 01's head and
// C's struct have one; specs/Layout has its order.
// The default has no word, and every call refuses it.
#[derive(Clone, Copy, Debug, Default, PartialEq, Eq)]
pub struct RangeBitset {
    pub words: u32,
    pub len: u32,
    pub allocated: bool,
}

// The storage lent for a set of `words` data words: it has room for them and for all that is kept beside them.
// An entry makes it of its own once the test before has shown that there is room; a function for that would ask for the room again.
// Its methods ask that a block or word is one that there is, as a slice asks it of an index: that is a fact of two values, said where they meet.
#[derive(Clone, Copy)]
pub(crate) struct View<'a> {
    storage: &'a [u64],
    words: usize,
    ghost room: { Room words storage.now },
}

// The storage lent to be changed, for a set of `words` data words. Each method says by `SameLoan` that it still holds that storage,
// so that the lender learns what is written.
#[derive(Drop)]
pub(crate) struct ViewMut<'a> {
    storage: &'a mut [u64],
    words: usize,
    ghost room: { Room words storage.now },
}

// ---- what is shown to whoever reads or writes the numbers themselves

// Where the parts of the storage of a set of `words` data words begin. The word `k` itself is number `k`; the masks and the population of a block
// have one number for each block further on.
#[derive(Clone, Copy, Debug, PartialEq, Eq)]
pub struct Parts {
    pub words: usize,
    pub blocks: usize,
    pub nonzero: usize,
    pub full: usize,
    pub population: usize,
    pub top_nonzero: usize,
    pub top_full: usize,
}

// The blocks that hold any set bit, those that are entirely set, and those that there are.
#[derive(Clone, Copy, Debug, PartialEq, Eq)]
pub struct Tops {
    pub nonzero: u64,
    pub full: u64,
    pub valid: u64,
}

// The same of the words of a `Mixed` block, and its kept population. Not a `Tops` with a number, since their fields are public.
#[derive(Clone, Copy, Debug, PartialEq, Eq)]
pub struct MixedBlock {
    pub nonzero: u64,
    pub full: u64,
    pub valid: u64,
    pub population: u64,
}

// Of a block that is all clear nothing is shown, and of one that is all set only its size: nothing below the top masks is read of it.
#[derive(Clone, Copy, Debug, PartialEq, Eq)]
pub enum Block {
    Empty,
    Mixed(MixedBlock),
    Full(u32),
}
