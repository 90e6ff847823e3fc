// The two sets read, and the third written, block by block. Assumes nothing.
ghost use Rattle.std.specs.Prelude.{◌≡◌, ◌+◌, ◌*◌, ◌<◌, ◌≤◌, ◌^◌, length, cond};
ghost use Rattle.positions.specs.Positions.{sum_over};
ghost use Rattle.bits.specs.Bit.{bit};
ghost use Rattle.range_bitset.specs.Layout.{blocks, words_of};
ghost use Rattle.range_bitset.specs.Inner.{Room};
ghost use Rattle.range_bitset.specs.Shown.{parts_of};

use crate::block::{Made, Words, combine_words, first, with};
use crate::rule::{Masks, Rule, Split};
use bits::walk::Ones;
use range_bitset::Parts;

// One side: its top masks, all clear where its storage was not begun, and its storage.
#[derive(Clone, Copy)]
pub(crate) struct Source<'a> {
    tops: Masks,
    storage: &'a [u64],
    at: Parts,
    ghost room: { Room at.words storage.now },
    ghost laid: { at ≡ parts_of at.words },
}

// How many words a block has.
fn words_of(at: Parts, block: usize) -> usize
    requires { (at ≡ parts_of at.words) × (at.words ≤ 4096) × (block < blocks at.words) }
    ensures { result ≡ words_of at.words block }
{
    (at.words - 64 * block).min(64)
}

// How many positions the blocks `mask` have; the last block may be shorter than the others.
fn size_of(at: Parts, mask: u64) -> u32
    requires { (at ≡ parts_of at.words) × (at.words ≤ 4096) × (0 < at.words) × (mask < 2 ^ blocks at.words) }
    ensures { result ≡ sum_over (bit mask) (λ b. 64 * words_of at.words b) 0 64 }
{
    let size = mask.count_ones() * 4096;
    if mask & (1u64 << (at.blocks - 1)) == 0 {
        size
    } else {
        size - (4096 * at.blocks - 64 * at.words) as u32
    }
}

impl<'a> Source<'a> {
    ghost use Rattle.combine.specs.Inner.{tops_of, masks_of, stored_of, MakesBlock, MakesBlocks};

    pub(crate) fn new(begun: bool, storage: &'a [u64], at: Parts) -> Self
        requires { Room at.words storage.now × (at ≡ parts_of at.words) }
        ensures { (result.tops ≡ tops_of at.words storage.now begun) × (result.storage.now ≡ storage.now) × (result.at ≡ at) }
    {
        let tops = if begun {
            Masks {
                nonzero: storage[at.top_nonzero],
                full: storage[at.top_full],
            }
        } else {
            Masks {
                nonzero: 0,
                full: 0,
            }
        };
        Source { tops, storage, at }
    }

    // What the masks of a block say of its words.
    fn masks(self, block: usize) -> Masks
        requires { block < blocks self.at.words }
        ensures { result ≡ masks_of self.entry block }
    {
        let bit = 1u64 << block;
        if self.tops.full & bit != 0 {
            let all = first(words_of(self.at, block));
            Masks {
                nonzero: all,
                full: all,
            }
        } else if self.tops.nonzero & bit == 0 {
            Masks {
                nonzero: 0,
                full: 0,
            }
        } else {
            Masks {
                nonzero: self.storage[self.at.nonzero + block],
                full: self.storage[self.at.full + block],
            }
        }
    }

    fn words(self, block: usize) -> Words<'a>
        requires { block < blocks self.at.words }
        ensures { (result.masks ≡ masks_of self.entry block) × (result.stored.now ≡ stored_of self.entry block) }
    {
        let from = 64 * block;
        let to = from + words_of(self.at, block);
        Words {
            masks: self.masks(block),
            stored: &self.storage[from..to],
        }
    }

    // Combine one block into the third storage: its words, its masks and its population.
    fn combine_block<R: Rule>(self, other: Source<'_>, third: &mut [u64], block: usize) -> Made
        requires { Room self.at.words third.old × (other.at ≡ self.at) × (block < blocks self.at.words) }
        ensures { MakesBlock R.of self.entry other.entry block third.old third.new result }
    {
        let from = 64 * block;
        let to = from + words_of(self.at, block);
        let made = combine_words::<R>(self.words(block), other.words(block), &mut third[from..to]);
        third[self.at.nonzero + block] = made.masks.nonzero;
        third[self.at.full + block] = made.masks.full;
        third[self.at.population + block] = made.population as u64;
        made
    }

    // Combine all blocks, and write the top masks. Answers how many positions there are.
    pub(crate) fn combine_blocks<R: Rule>(self, other: Source<'_>, third: &mut [u64]) -> u32
        requires { Room self.at.words third.old × (other.at ≡ self.at) }
        ensures { MakesBlocks R.of self.entry other.entry third.old third.new result }
    {
        let at = self.at;
        let split = Split::of::<R>(self.tops, other.tops, first(at.blocks));
        let mut nonzero = split.full;
        let mut full = split.full;
        let mut population = size_of(at, split.full);
        for block in Ones(split.unsettled) {
            let made = self.combine_block::<R>(other, third, block);
            nonzero = with(nonzero, block, made.masks.nonzero != 0);
            full = with(full, block, made.masks.full == first(words_of(at, block)));
            population += made.population;
        }
        third[at.top_nonzero] = nonzero;
        third[at.top_full] = full;
        population
    }
}
