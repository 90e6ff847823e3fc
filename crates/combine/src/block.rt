// The words of one block combined. Assumes nothing.
ghost use Rattle.std.specs.Prelude.{◌≡◌, ◌==◌, ◌<◌, ◌≤◌, ◌^◌, ◌-◌, cond, length, bit_or};
ghost use Rattle.combine.specs.Inner.{MakesPairs, MakesLone, MakesWords};

use crate::rule::{Masks, Rule, Split};
use bits::walk::Ones;
use range_bitset::ALL;

// The words of a block on one side: what its masks say of them, and those that are stored.
#[derive(Clone, Copy)]
pub(crate) struct Words<'a> {
    pub(crate) masks: Masks,
    pub(crate) stored: &'a [u64],
}

// What a block has become: its masks and its population.
#[derive(Clone, Copy)]
pub(crate) struct Made {
    pub(crate) masks: Masks,
    pub(crate) population: u32,
}

// The mask of the first `n` parts.
pub(crate) fn first(n: usize) -> u64
    requires { (0 < n) × (n ≤ 64) }
    ensures { result ≡ 2 ^ n - 1 }
{
    ALL >> (64 - n)
}

// The mask, with part `i` where `value` says so.
pub(crate) fn with(mask: u64, i: usize, value: bool) -> u64
    requires { i < 64 }
    ensures { result ≡ cond value (bit_or mask (2 ^ i)) mask }
{
    if value { mask | (1u64 << i) } else { mask }
}

// Words that were found to be all clear, and words that were found to be all set.
#[derive(Clone, Copy)]
pub(crate) struct Even {
    pub(crate) empty: u64,
    pub(crate) full: u64,
}

impl Even {
    // With word `i` too.
    fn and(self, i: usize, word: u64) -> Self
        requires { i < 64 }
        ensures { (result.empty ≡ cond (word == 0) (bit_or self.empty (2 ^ i)) self.empty) × (result.full ≡ cond (word == 2 ^ 64 - 1) (bit_or self.full (2 ^ i)) self.full) }
    {
        Even {
            empty: with(self.empty, i, word == 0),
            full: with(self.full, i, word == ALL),
        }
    }
}

// A word as it is, or turned over: each position the other way.
fn turned(word: u64, over: bool) -> u64
    ensures { result ≡ cond over ((2 ^ 64 - 1) - word) word }
{
    if over { !word } else { word }
}

// What the words of a kind have become.
#[derive(Clone, Copy)]
pub(crate) struct Paired {
    pub(crate) even: Even,
    pub(crate) population: u32,
}

// The words `mask`, which are stored on both sides, combined into their places.
fn combine_pairs<R: Rule>(x: &[u64], y: &[u64], mask: u64, third: &mut [u64]) -> Paired
    requires { (length x.now ≡ length third.old) × (length y.now ≡ length third.old) × (length third.old ≤ 64) × (mask < 2 ^ length third.old) }
    ensures { MakesPairs R.of x.now y.now mask third.old third.new result }
{
    let mut even = Even { empty: 0, full: 0 };
    let mut population = 0u32;
    for i in Ones(mask) {
        let word = R::word(x[i], y[i]);
        third[i] = word;
        even = even.and(i, word);
        population += word.count_ones();
    }
    Paired { even, population }
}

// The words `mask`, which are stored on one side alone: since the other side, all clear or all set there, does not settle them, the
// rule keeps each as it is or turns it over, as `over` says, and it has some of its positions and not all. Answers how many.
// Put into the caller's code, so that a rule that turns none over asks for none.
#[inline(always)]
fn combine_lone(stored: &[u64], over: u64, mask: u64, third: &mut [u64]) -> u32
    requires { (length stored.now ≡ length third.old) × (length third.old ≤ 64) × (mask < 2 ^ length third.old) }
    ensures { MakesLone stored.now over mask third.old third.new result }
{
    let mut population = 0u32;
    for i in Ones(mask) {
        let word = turned(stored[i], over & (1u64 << i) != 0);
        third[i] = word;
        population += word.count_ones();
    }
    population
}

// Combine the words of a block into its words of the third storage. Those that the masks settle are not written.
// Each kind of the others has a walk of its own, which asks nothing of a word: told apart word by word, they take two to three times the time.
pub(crate) fn combine_words<R: Rule>(x: Words<'_>, y: Words<'_>, third: &mut [u64]) -> Made
    requires { (0 < length third.old) × (length third.old ≤ 64) × (length x.stored.now ≡ length third.old) × (length y.stored.now ≡ length third.old) }
    ensures { MakesWords R.of x.entry.masks x.entry.stored.now y.entry.masks y.entry.stored.now third.old third.new result }
{
    let split = Split::of::<R>(x.masks, y.masks, first(third.len()));
    let x_mixed = x.masks.mixed();
    let y_mixed = y.masks.mixed();
    let first_alone = split.unsettled & !y_mixed;
    let second_alone = split.unsettled & !x_mixed;
    let pairs = split.unsettled & x_mixed & y_mixed;
    let paired = combine_pairs::<R>(x.stored, y.stored, pairs, third);
    let of_first = combine_lone(x.stored, R::word(0, y.masks.full), first_alone, third);
    let of_second = combine_lone(y.stored, R::word(x.masks.full, 0), second_alone, third);
    Made {
        masks: Masks {
            nonzero: split.full | (split.unsettled & !paired.even.empty),
            full: split.full | paired.even.full,
        },
        population: split.full.count_ones() * 64 + paired.population + of_first + of_second,
    }
}
