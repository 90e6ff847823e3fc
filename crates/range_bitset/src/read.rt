// Reading through the masks: a block's state, a data word, a position. Assumes nothing.
ghost use Rattle.std.specs.Prelude.{◌≡◌, ◌+◌, ◌*◌, ◌<◌, slice_range};
ghost use Rattle.range_bitset.specs.Layout.{blocks, words_of};
ghost use Rattle.range_bitset.specs.Read.{state_of, mixed_read, word_read};
ghost use Rattle.range_bitset.specs.Entries.{GetEnsures};

use crate::{ALL, RangeBitset, State, View, has_bit};
use answers::Refusal;

impl<'a> View<'a> {
    // The data words of `block`.
    pub(crate) fn data(self, block: usize) -> &'a [u64]
        requires { block < blocks self.words }
        ensures { result.now ≡ slice_range self.entry.storage.now (64 * block) (64 * block + words_of self.entry.words block) }
    {
        let from = 64 * block;
        &self.storage[from..from + self.words_per_block(block)]
    }

    pub(crate) fn block_state(self, block: usize) -> State
        requires { block < blocks self.words }
        ensures { result ≡ state_of self.entry.words self.entry.storage.now block }
    {
        if has_bit(self.storage[self.top_full_slot()], block) {
            State::Full
        } else if !has_bit(self.storage[self.top_nonzero_slot()], block) {
            State::Empty
        } else {
            State::Mixed
        }
    }

    // Value of data word `word` whose block is `Mixed`.
    pub(crate) fn mixed_word(self, word: usize) -> u64
        requires { word < self.words }
        ensures { result ≡ mixed_read self.entry.words self.entry.storage.now word }
    {
        let block = word / 64;
        if has_bit(self.storage[self.full_slot(block)], word % 64) {
            ALL
        } else if !has_bit(self.storage[self.nonzero_slot(block)], word % 64) {
            0
        } else {
            self.storage[word]
        }
    }

    // Value of data word `word`.
    pub(crate) fn word(self, word: usize) -> u64
        requires { word < self.words }
        ensures { result ≡ word_read self.entry.words self.entry.storage.now word }
    {
        match self.block_state(word / 64) {
            State::Empty => 0,
            State::Full => ALL,
            State::Mixed => self.mixed_word(word),
        }
    }
}

impl RangeBitset {
    pub fn get(self, storage: &[u64], index: usize) -> Result<bool, Refusal>
        ensures { GetEnsures self storage.now index result }
    {
        self.check_point(storage.len(), index)?;
        if !self.allocated {
            return Ok(false);
        }
        let words = self.words as usize;
        let view = View { storage, words };
        let bits = view.word(index / 64);
        Ok(has_bit(bits, index % 64))
    }
}
