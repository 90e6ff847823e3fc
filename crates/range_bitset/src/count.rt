// Counting a range. Assumes nothing.
ghost use Rattle.std.specs.Prelude.{◌≡◌, ◌*◌, ◌<◌, ◌≤◌, bit_and, count_ones};
ghost use Rattle.range_bitset.specs.Read.{word_read};
ghost use Rattle.range_bitset.specs.Entries.{CountEnsures};
ghost use Rattle.range_bitset.specs.Inner.{Counts};

use crate::unit::{Positions, Unit};
use crate::{RangeBitset, View};
use answers::Refusal;

impl RangeBitset {
    // Number of set positions in `start..end`.
    pub fn count(self, storage: &[u64], start: usize, end: usize) -> Result<u32, Refusal>
        ensures { CountEnsures self storage.now start end result }
    {
        self.check_range(storage.len(), end)?;
        if start >= end || self.len == 0 {
            return Ok(0);
        }
        let words = self.words as usize;
        let view = View { storage, words };
        Ok(view.count_units::<Positions>(start, end))
    }
}

impl View<'_> {
    // How many bits of `mask` data word `word` has. By itself, so that a full word's are those of the mask, without an `and`.
    pub(crate) fn masked_ones(self, word: usize, mask: u64) -> u32
        requires { word < self.words }
        ensures { result ≡ count_ones (bit_and (word_read self.entry.words self.entry.storage.now word) mask) }
    {
        (self.word(word) & mask).count_ones()
    }

    // The rest of the Rust's `count`, from `first_word` on, where a unit is a position; its `whole_words_population` where it is a word.
    // Cut as in `assign_units`, which says why it is apart.
    pub(crate) fn count_units<U: Unit>(self, from: usize, to: usize) -> u32
        requires { (from < to) × (U.each * to ≤ 64 * self.words) }
        ensures { Counts self.entry.words (U.each * from) (U.each * to) self.entry.storage.now result }
    {
        let first = from / 64;
        let last = (to - 1) / 64;
        if first == last {
            return U::part_population(self, from, to);
        }
        let mut population = 0u32;
        let mut whole_from = first;
        if from % 64 != 0 {
            whole_from += 1;
            population = U::part_population(self, from, 64 * whole_from);
        }
        let mut whole_to = last + 1;
        if to % 64 != 0 {
            whole_to -= 1;
            let more = U::part_population(self, 64 * whole_to, to);
            population = population.wrapping_add(more);
        }
        let whole = if whole_from < whole_to {
            U::whole_population(self, whole_from, whole_to)
        } else {
            0
        };
        population.wrapping_add(whole)
    }
}
