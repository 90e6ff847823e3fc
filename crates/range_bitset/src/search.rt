// Searching a range for its first run of set or of clear positions. Assumes nothing.
ghost use Rattle.std.specs.Prelude.{◌≡◌, ◌-◌, ◌*◌, ◌<◌, ◌≤◌, true, false, if◌then◌else◌};
ghost use Rattle.positions.specs.Walks.{cut};
ghost use Rattle.range_bitset.specs.Layout.{blocks, at};
ghost use Rattle.range_bitset.specs.Read.{ALL, word_read};
ghost use Rattle.positions.specs.Replies.{of_run};
ghost use Rattle.answers.specs.Refusals.{of_range};
ghost use Rattle.range_bitset.specs.Entries.{NextEnsures};
ghost use Rattle.range_bitset.specs.Inner.{Room, CandidateWords, CandidateBlocks, NextInWord, NextFrom, NextAfter, BitsFrom, RunFrom, RunAfter};

use crate::{RangeBitset, State, View, above, rest, span};
use answers::Refusal;
use std::ops::Range;

impl View<'_> {
    // Words of `block` holding at least one position equal to `value`.
    pub(crate) fn candidate_words(self, block: usize, value: bool) -> u64
        requires { block < blocks self.words }
        ensures { CandidateWords self.entry.words block value self.entry.storage.now result }
    {
        let valid = self.valid_words(block);
        match self.block_state(block) {
            State::Empty => if value { 0 } else { valid },
            State::Full => if value { valid } else { 0 },
            State::Mixed => {
                if value {
                    valid & self.storage[self.nonzero_slot(block)]
                } else {
                    valid & !self.storage[self.full_slot(block)]
                }
            }
        }
    }

    // Blocks holding at least one position equal to `value`.
    pub(crate) fn candidate_blocks(self, value: bool) -> u64
        ensures { CandidateBlocks self.entry.words value self.entry.storage.now result }
    {
        let valid = span(0, self.blocks());
        if value {
            valid & self.storage[self.top_nonzero_slot()]
        } else {
            valid & !self.storage[self.top_full_slot()]
        }
    }

    pub(crate) fn word_bits(self, word: usize, value: bool) -> u64
        requires { word < self.words }
        ensures { result ≡ (if value then word_read self.entry.words self.entry.storage.now word else ALL - word_read self.entry.words self.entry.storage.now word) }
    {
        let bits = self.word(word);
        if value { bits } else { !bits }
    }

    // First position of data word `word` equal to `value`, or the next word's first.
    fn first_in_word(self, word: usize, value: bool) -> usize
        requires { word < self.words }
        ensures { NextInWord self.entry.words word value self.entry.storage.now result }
    {
        let bits = self.word_bits(word, value);
        word * 64 + bits.trailing_zeros() as usize
    }

    // Positions of the word of `from`, at or after it, equal to `value`.
    fn bits_from(self, from: usize, value: bool) -> u64
        requires { from < 64 * self.words }
        ensures { BitsFrom self.entry.words from value self.entry.storage.now result }
    {
        self.word_bits(from / 64, value) & rest(from % 64)
    }

    // First position after the word of `from` equal to `value`, or the capacity, where the word of `from` has none.
    #[inline(always)]
    fn next_after(self, from: usize, value: bool) -> usize
        requires { from < 64 * self.words }
        ensures { NextAfter self.entry.words from value self.entry.storage.now result }
    {
        let word = from / 64;
        let block = word / 64;
        let later_words = self.candidate_words(block, value) & above(word % 64);
        if later_words != 0 {
            let next_word = block * 64 + later_words.trailing_zeros() as usize;
            return self.first_in_word(next_word, value);
        }
        let later_blocks = self.candidate_blocks(value) & above(block);
        if later_blocks == 0 {
            return self.words * 64;
        }
        let next_block = later_blocks.trailing_zeros() as usize;
        let in_block = self.candidate_words(next_block, value);
        if in_block == 0 {
            return self.words * 64;
        }
        let next_word = next_block * 64 + in_block.trailing_zeros() as usize;
        self.first_in_word(next_word, value)
    }

    // The Rust's `next_from`, with the capacity in place of `None`.
    fn next_from(self, from: usize, value: bool) -> usize
        requires { from < 64 * self.words }
        ensures { NextFrom self.entry.words from value self.entry.storage.now result }
    {
        let bits = self.bits_from(from, value);
        if bits != 0 {
            return from / 64 * 64 + bits.trailing_zeros() as usize;
        }
        RangeBitset::end_after(self.storage, self.words, from, value)
    }

    // The first run of the value in `from..end`; a start or an end past that may be any. What the first word tells is found in line, from one
    // reading of the word, and calls nothing. The value is a const parameter, so that either search is compiled by itself.
    fn run_from<const VALUE: bool>(self, from: usize, end: usize) -> Range<usize>
        requires { (from < end) × (end ≤ 64 * self.words) }
        ensures { RunFrom self.entry.words from end VALUE self.entry.storage.now result.start result.end }
    {
        let word = from / 64;
        let next = 64 * word + 64;
        let bits = self.word_bits(word, VALUE);
        let later = bits & rest(from % 64);
        if later == 0 {
            if end <= next {
                return end..end;
            }
            return RangeBitset::run_after(self.storage, self.words, from, end, VALUE);
        }
        let start = word * 64 + later.trailing_zeros() as usize;
        let others = !bits & rest(start % 64);
        if others != 0 {
            return start..word * 64 + others.trailing_zeros() as usize;
        }
        if end <= next {
            return start..end;
        }
        start..RangeBitset::end_after(self.storage, self.words, start, !VALUE)
    }
}

impl RangeBitset {
    // The next two are called and not copied, so they take storage and words one by one: a `View` goes through memory, and a search took up to 8 %
    // longer.

    // Where a run ends that goes on past the word of `start`, whose positions lack `value`.
    fn end_after(storage: &[u64], words: usize, start: usize, value: bool) -> usize
        requires { Room words storage.now × (start < 64 * words) }
        ensures { NextAfter words start value storage.now result }
    {
        let view = View { storage, words };
        view.next_after(start, value)
    }

    // The first run of the value in `from..end`, where the word of `from` has none.
    fn run_after(
        storage: &[u64],
        words: usize,
        from: usize,
        end: usize,
        value: bool,
    ) -> Range<usize>
        requires { Room words storage.now × (from < end) × (end ≤ 64 * words) }
        ensures { RunAfter words from end value storage.now result.start result.end }
    {
        let view = View { storage, words };
        let start = view.next_after(from, value);
        if start >= end {
            return end..end;
        }
        start..view.next_from(start, !value)
    }

    // As much of a run as lies below `end`, if any of it does. On memory that is no set's a run may have no position.
    fn cut(run: Range<usize>, end: usize) -> Option<Range<usize>>
        ensures { of_range result ≡ of_run (cut run.start run.end end) }
    {
        let end = run.end.min(end);
        (run.start < end).then_some(run.start..end)
    }

    // First run of set positions in `from..end`. 01 names the two searches, and they differ in what they know beforehand.
    pub fn next_one(
        self,
        storage: &[u64],
        from: usize,
        end: usize,
    ) -> Result<Option<Range<usize>>, Refusal>
        ensures { NextEnsures true self storage.now from end result }
    {
        self.check_range(storage.len(), end)?;
        if from >= end || self.len == 0 {
            return Ok(None);
        }
        let words = self.words as usize;
        let view = View { storage, words };
        Ok(Self::cut(view.run_from::<true>(from, end), end))
    }

    // First run of clear positions in `from..end`.
    pub fn next_zero(
        self,
        storage: &[u64],
        from: usize,
        end: usize,
    ) -> Result<Option<Range<usize>>, Refusal>
        ensures { NextEnsures false self storage.now from end result }
    {
        self.check_range(storage.len(), end)?;
        if from >= end {
            return Ok(None);
        }
        if !self.allocated {
            return Ok(Some(from..end));
        }
        let words = self.words as usize;
        let view = View { storage, words };
        Ok(Self::cut(view.run_from::<false>(from, end), end))
    }
}
