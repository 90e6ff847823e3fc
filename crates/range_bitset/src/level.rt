// A walk over the parts of a level: the blocks of a set, or the words of a block, alike. Not the Rust's: the n-th position of a set
// is found with it. Assumes nothing.
//
// A part has `EACH` positions, the last may have fewer: the level ends at `end`. Every part has its number in `sizes`: a word its bits, a
// block its population. Two masks say which parts have a position of `value` (`some`) and which one of the other value
// (`others`). A stretch of parts that `others` lacks is passed, or answered, by its length alone, and its numbers are not
// read; nor is the number of a part that `some` lacks. `EACH` is a const parameter, so that either walk is compiled for blocks and for words
// apart.
//
// The two walks are loops by hand. As one iterator from either end, over stretches or over the parts that begin one, both proved, short
// walks take up to 5 % more instructions and up to 13 % more time; told the direction at run time, one walk takes 1.3 to 1.8 times the
// time, and told it by a const parameter it would be both bodies in one function.
ghost use Rattle.std.specs.Prelude.{◌≡◌, ◌+◌, ◌-◌, ◌*◌, ◌^◌, ◌<◌, ◌≤◌, ℕ, length};

use crate::{above, rest, span};

// Where a walk ended: `n` positions after the start of part `part`, all of the value up to there; or within part `part`, whose `size`
// positions of the value have `n` before the one that is meant.
#[derive(Clone, Copy)]
pub(crate) enum Landing {
    At { part: usize, n: usize },
    Within { part: usize, n: usize, size: usize },
}

// The bits below `to`.
fn low(to: usize) -> u64
    requires { to < 64 }
    ensures { result ≡ 2 ^ to - 1 }
{
    (1u64 << to) - 1
}

// The parts of a level, for the positions of `value`.
#[derive(Clone, Copy)]
pub(crate) struct Level<'a, const EACH: usize> {
    pub(crate) sizes: &'a [u64],
    pub(crate) end: usize,
    pub(crate) value: bool,
    pub(crate) some: u64,
    pub(crate) others: u64,
    ghost most: { length sizes.now ≤ 64 },
    ghost unit: { EACH ≤ 4096 },
    ghost some_fits: { some < 2 ^ length sizes.now },
    ghost others_fit: { others < 2 ^ length sizes.now },
    ghost starts: { (i : ℕ) → i < length sizes.now → i * EACH ≤ end },
}

impl<const EACH: usize> Level<'_, EACH> {
    ghost use Rattle.range_bitset.specs.Levels.{start_of, population_by, size_of, FirstFrom, LastBefore, Seeks, NthOf, BackOf, AmongOf};

    // The start of part `part`: all after the last start at the end.
    fn start_of(self, part: usize) -> usize
        requires { part ≤ 64 }
        ensures { result ≡ start_of self.entry part }
    {
        self.end.min(part * EACH)
    }

    // The population that a part's number stands for.
    fn population(number: u64) -> usize
        ensures { result ≡ population_by EACH number }
    {
        if EACH == 64 {
            number.count_ones() as usize
        } else {
            number as usize
        }
    }

    // How many positions of the value a part has, by its number. Any memory is safe, so it wraps.
    fn size_of(self, part: usize) -> usize
        requires { part < length self.sizes.now }
        ensures { result ≡ size_of self.entry part }
    {
        let set = Self::population(self.sizes[part]);
        if self.value {
            set
        } else {
            (self.start_of(part + 1) - part * EACH).wrapping_sub(set)
        }
    }

    // The first part at or after `from` that has the other value, or 64.
    fn first_from(self, from: usize) -> usize
        requires { from < 64 }
        ensures { FirstFrom self.entry.others from result }
    {
        (self.others & rest(from)).trailing_zeros() as usize
    }

    // One past the last part up to and with `from` that has the other value, or 0.
    fn last_before(self, from: usize) -> usize
        requires { from < 64 }
        ensures { LastBefore self.entry.others (from + 1) result }
    {
        64 - (self.others & span(0, from + 1)).leading_zeros() as usize
    }

    // From the first part up: the position that has `n` of the value before it.
    fn seek_up(self, n: usize) -> Landing
        ensures { Seeks self.entry (NthOf n) result }
    {
        let mut left = self.some;
        let mut n = n;
        while left != 0 {
            let part = left.trailing_zeros() as usize;
            let to = self.first_from(part);
            if part < to {
                let size = self.start_of(to) - part * EACH;
                if n < size {
                    return Landing::At { part, n };
                }
                n -= size;
                left &= above(to - 1);
            } else {
                let size = self.size_of(part);
                if n < size {
                    return Landing::Within { part, n, size };
                }
                n -= size;
                left &= left - 1;
            }
        }
        Landing::At { part: 0, n: 0 }
    }

    // From the last part down: the position that has `back` of the value after it.
    fn seek_down(self, back: usize) -> Landing
        ensures { Seeks self.entry (BackOf back) result }
    {
        let mut left = self.some;
        let mut back = back;
        while left != 0 {
            let last = 63 - left.leading_zeros() as usize;
            let from = self.last_before(last);
            if from <= last {
                let size = self.start_of(last + 1) - from * EACH;
                if back < size {
                    return Landing::At {
                        part: from,
                        n: size - 1 - back,
                    };
                }
                back -= size;
                left &= low(from);
            } else {
                let size = self.size_of(last);
                if back < size {
                    return Landing::Within {
                        part: last,
                        n: size - 1 - back,
                        size,
                    };
                }
                back -= size;
                left &= low(last);
            }
        }
        Landing::At { part: 0, n: 0 }
    }

    // The position that has `n` of the value before it, of `total`: from the nearer end, but up where no two neighbours have both values. A
    // walk has few steps then, and which end is nearer would be one more branch that nothing foresees.
    pub(crate) fn seek(self, total: usize, n: usize) -> Landing
        requires { n < total }
        ensures { Seeks self.entry (AmongOf total n) result }
    {
        let mixed = self.some & self.others;
        if mixed & (mixed >> 1) == 0 || n < total / 2 {
            self.seek_up(n)
        } else {
            self.seek_down(total - 1 - n)
        }
    }
}
