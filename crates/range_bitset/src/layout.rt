// Where each number stands in the storage, and the storage begun. Assumes nothing.
ghost use Rattle.std.specs.Prelude.{◌≡◌, ◌<◌, ◌≤◌};
ghost use Rattle.range_bitset.specs.Layout.{blocks, words_of, address, nonzero, full, population, top_nonzero, top_full};
ghost use Rattle.range_bitset.specs.Represents.{valid};
ghost use Rattle.range_bitset.specs.Inner.{Begins};

use crate::{ALL, RangeBitset, View, ViewMut};

impl RangeBitset {
    // Not by `div_ceil`, which is three instructions longer, at every slot, and no entry may get slower.
    pub(crate) fn blocks(words: usize) -> usize
        requires { words ≤ 4096 }
        ensures { result ≡ blocks words }
    {
        (words + 63) / 64
    }
}

impl View<'_> {
    pub(crate) fn blocks(self) -> usize
        ensures { result ≡ blocks self.entry.words }
    {
        RangeBitset::blocks(self.words)
    }

    // How many words `block` has.
    pub(crate) fn words_per_block(self, block: usize) -> usize
        requires { block < blocks self.words }
        ensures { result ≡ words_of self.entry.words block }
    {
        (self.words - block * 64).min(64)
    }

    // The mask of the words of `block`.
    pub(crate) fn valid_words(self, block: usize) -> u64
        requires { block < blocks self.words }
        ensures { result ≡ valid self.entry.words block }
    {
        let n = self.words_per_block(block);
        if n >= 64 { ALL } else { (1u64 << n) - 1 }
    }

    // The next three under the Rust's names, each one number for each block further on.
    pub(crate) fn nonzero_slot(self, block: usize) -> usize
        requires { block < 64 }
        ensures { result ≡ address self.entry.words (nonzero block) }
    {
        self.words + block
    }

    pub(crate) fn full_slot(self, block: usize) -> usize
        requires { block < 64 }
        ensures { result ≡ address self.entry.words (full block) }
    {
        self.words + self.blocks() + block
    }

    pub(crate) fn population_slot(self, block: usize) -> usize
        requires { block < 64 }
        ensures { result ≡ address self.entry.words (population block) }
    {
        self.words + 2 * self.blocks() + block
    }

    pub(crate) fn top_nonzero_slot(self) -> usize
        ensures { result ≡ address self.entry.words top_nonzero }
    {
        self.words + 3 * self.blocks()
    }

    pub(crate) fn top_full_slot(self) -> usize
        ensures { result ≡ address self.entry.words top_full }
    {
        self.top_nonzero_slot() + 1
    }
}

impl ViewMut<'_> {
    ghost use Rattle.range_bitset.specs.Lent.{SameLoan, Turns};

    pub(crate) fn view(&self) -> View<'_>
        ensures { (result.words ≡ self.now.words) × (result.storage.now ≡ self.now.storage.now) }
    {
        View {
            storage: self.storage,
            words: self.words,
        }
    }

    // The first setting zeroes the top masks, so that no other number of the storage is read; so does clearing all.
    pub(crate) fn ensure_storage(&mut self, allocated: bool)
        ensures loan { SameLoan self.old self.new }
        ensures begun { Turns self.old self.new (λ W. Begins W allocated) }
    {
        if !allocated {
            let view = self.view();
            let nonzero = view.top_nonzero_slot();
            let full = view.top_full_slot();
            self.storage[nonzero] = 0;
            self.storage[full] = 0;
        }
    }
}
