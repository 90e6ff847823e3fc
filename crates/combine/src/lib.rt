// Two sets combined into a third storage: the positions in both, in either, or in the first without the second. Not the Rust's.
//
// One rule is carried through both levels, the blocks of a set and the words of a block: a part that is all clear or all set on both sides, or
// that one side settles alone, is settled by the masks above it, and nothing below it is read or written. The others are looked into, block
// by block and in a block word by word. The words of a block go to their place in the third storage, so that no step needs the scratch; it is
// measured as the specification says, and its contents are the callee's.
// Assumes nothing of its callers: the entry has no `requires`.
#![tactic(auto)]

ghost use Rattle.std.specs.Prelude.{◌≡◌};
ghost use Rattle.answers.specs.Refusals.{refused_by};
ghost use Rattle.combine.specs.Entry.{combine_refusal, CombineEnsures};

mod block;
mod rule;
mod source;

use answers::Refusal;
use range_bitset::RangeBitset;
pub use rule::{Both, Either, Masks, Rule, Without};
use source::Source;

// How many numbers are lent.
#[derive(Clone, Copy)]
struct Lens {
    first: usize,
    second: usize,
    third: usize,
    scratch: usize,
}

// The tests of a call: the two heads, the three storages, the two capacities, the scratch. `lens` are the lengths lent.
fn check(first: RangeBitset, second: RangeBitset, lens: Lens) -> Result<(), Refusal>
    ensures { refused_by result ≡ combine_refusal first second lens.first lens.second lens.third lens.scratch }
{
    first.check_head()?;
    second.check_head()?;
    first.check_storage(lens.first)?;
    second.check_storage(lens.second)?;
    first.check_storage(lens.third)?;
    if first.words != second.words {
        return Err(Refusal::OtherCapacity);
    }
    if lens.scratch < first.words as usize {
        return Err(Refusal::ShortScratch);
    }
    Ok(())
}

// Combine two sets of one capacity by a rule, into the third storage whatever it holds. Answers the head of the third.
pub fn combine<R: Rule>(
    first: RangeBitset,
    first_storage: &[u64],
    second: RangeBitset,
    second_storage: &[u64],
    third: &mut [u64],
    scratch: &mut [u64],
) -> Result<RangeBitset, Refusal>
    ensures { CombineEnsures R.of first first_storage.now second second_storage.now third.old scratch.old result third.new scratch.new }
{
    let lens = Lens {
        first: first_storage.len(),
        second: second_storage.len(),
        third: third.len(),
        scratch: scratch.len(),
    };
    check(first, second, lens)?;
    let at = first.parts()?;
    let x = Source::new(first.allocated, first_storage, at);
    let y = Source::new(second.allocated, second_storage, at);
    let len = x.combine_blocks::<R>(y, third);
    Ok(RangeBitset {
        words: first.words,
        len,
        allocated: true,
    })
}
