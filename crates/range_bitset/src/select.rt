// The n-th position of a set. Not the Rust's. Assumes nothing.
ghost use Rattle.std.specs.Prelude.{◌*◌, ◌<◌, true};
ghost use Rattle.range_bitset.specs.Layout.{blocks};
ghost use Rattle.range_bitset.specs.Entries.{SelectEnsures};
ghost use Rattle.range_bitset.specs.Inner.{Room};
ghost use Rattle.range_bitset.specs.Levels.{NthInBlock, NthIn};

use crate::in_word::nth_in_word;
use crate::level::{Landing, Level};
use crate::{RangeBitset, View};
use answers::Refusal;

impl RangeBitset {
    // The position of `value` in `block` that has `n` of its value before it there, of `total`. Not copied into `select`, so that a call
    // which needs no block's words saves fewer registers; so it takes storage and words one by one, where a `View` would go through memory: a search took up to 8 % longer so.
    #[inline(never)]
    fn nth_in_block(
        storage: &[u64],
        words: usize,
        block: usize,
        value: bool,
        total: usize,
        n: usize,
    ) -> usize
        requires { Room words storage.now × (block < blocks words) × (n < total) }
        ensures { NthInBlock words block value total n storage.now result }
    {
        let view = View { storage, words };
        let some = view.candidate_words(block, value);
        let others = view.candidate_words(block, !value);
        let from = 64 * block;
        let size = view.words_per_block(block);
        let level = Level::<64> {
            sizes: &storage[from..from + size],
            end: 64 * size,
            value,
            some,
            others,
        };
        match level.seek(total, n) {
            Landing::At { part, n } => 64 * (from + part) + n,
            Landing::Within { part, n, .. } => {
                let word = from + part;
                let bits = view.word_bits(word, value);
                64 * word + nth_in_word(bits, n as u64)
            }
        }
    }
}

impl View<'_> {
    // The position of `value` that has `n` of its value before it, of `total`.
    fn nth(self, value: bool, total: usize, n: usize) -> usize
        requires { n < total }
        ensures { NthIn self.entry.words value total n self.entry.storage.now result }
    {
        let some = self.candidate_blocks(value);
        let others = self.candidate_blocks(!value);
        let from = self.population_slot(0);
        let to = from + self.blocks();
        let level = Level::<4096> {
            sizes: &self.storage[from..to],
            end: 64 * self.words,
            value,
            some,
            others,
        };
        match level.seek(total, n) {
            Landing::At { part, n } => 4096 * part + n,
            Landing::Within { part, n, size } => {
                RangeBitset::nth_in_block(self.storage, self.words, part, value, size, n)
            }
        }
    }
}

impl RangeBitset {
    // The set position that has `n` set positions before it.
    pub fn select(self, storage: &[u64], n: usize) -> Result<Option<usize>, Refusal>
        ensures { SelectEnsures self storage.now n result }
    {
        self.check_storage(storage.len())?;
        let len = self.len as usize;
        if n >= len {
            return Ok(None);
        }
        let words = self.words as usize;
        let view = View { storage, words };
        Ok(Some(view.nth(true, len, n)))
    }
}
