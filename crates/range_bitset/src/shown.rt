// Not the Rust's: where the numbers of a set stand, and what the storage says, on any memory, for crates above. Assumes nothing.
ghost use Rattle.std.specs.Prelude.{◌≡◌, ◌<◌};
ghost use Rattle.range_bitset.specs.Layout.{blocks};
ghost use Rattle.range_bitset.specs.Shown.{mixed_of, PartsEnsures, TopsEnsures, BlockEnsures};

use crate::{Block, MixedBlock, Parts, RangeBitset, State, Tops, View, span};
use answers::Refusal;

impl RangeBitset {
    pub fn parts(self) -> Result<Parts, Refusal>
        ensures { PartsEnsures self result }
    {
        self.check_head()?;
        let words = self.words as usize;
        let blocks = Self::blocks(words);
        Ok(Parts {
            words,
            blocks,
            nonzero: words,
            full: words + blocks,
            population: words + 2 * blocks,
            top_nonzero: words + 3 * blocks,
            top_full: words + 3 * blocks + 1,
        })
    }

    pub fn top_masks(self, storage: &[u64]) -> Result<Tops, Refusal>
        ensures { TopsEnsures self storage.now result }
    {
        self.check_storage(storage.len())?;
        let words = self.words as usize;
        let view = View { storage, words };
        Ok(Tops {
            nonzero: storage[view.top_nonzero_slot()],
            full: storage[view.top_full_slot()],
            valid: span(0, view.blocks()),
        })
    }
}

impl View<'_> {
    fn mixed_block(self, block: usize) -> MixedBlock
        requires { block < blocks self.words }
        ensures { result ≡ mixed_of self.entry.words self.entry.storage.now block }
    {
        MixedBlock {
            nonzero: self.storage[self.nonzero_slot(block)],
            full: self.storage[self.full_slot(block)],
            valid: self.valid_words(block),
            population: self.storage[self.population_slot(block)],
        }
    }
}

impl RangeBitset {
    // The block of position `index`.
    pub fn block_of(self, storage: &[u64], index: usize) -> Result<Block, Refusal>
        ensures { BlockEnsures self storage.now index result }
    {
        self.check_point(storage.len(), index)?;
        let words = self.words as usize;
        let view = View { storage, words };
        let block = index / 4096;
        Ok(match view.block_state(block) {
            State::Empty => Block::Empty,
            State::Full => Block::Full(64 * view.words_per_block(block) as u32),
            State::Mixed => Block::Mixed(view.mixed_block(block)),
        })
    }
}
