// A block opened and closed around a change of one of its words. Assumes nothing.
ghost use Rattle.std.specs.Prelude.{◌≡◌, ℕ, ◌+◌, ◌*◌, ◌<◌, ◌≤◌};
ghost use Rattle.std.specs.Int.{abs_diff};
ghost use Rattle.range_bitset.specs.Layout.{blocks, population};
ghost use Rattle.range_bitset.specs.Inner.{Spans, open_with, write_word, count_moved, Opens, Closes};

use crate::{ALL, State, ViewMut, combined, moved, single};

impl ViewMut<'_> {
    ghost use Rattle.range_bitset.specs.Lent.{SameLoan, Turns, Writes, Gives};

    // Write the masks and the population of `block`, and mark it mixed.
    fn open_with(&mut self, block: usize, masks: u64, population: u64)
        requires { block < blocks self.old.words }
        ensures loan { SameLoan self.old self.new }
        ensures written { Writes self.old self.new (λ W st. open_with W st block masks population) }
    {
        let bit = single(block);
        let view = self.view();
        let nonzero = view.nonzero_slot(block);
        let full = view.full_slot(block);
        let population_slot = view.population_slot(block);
        let top_nonzero = view.top_nonzero_slot();
        let top_full = view.top_full_slot();
        self.storage[nonzero] = masks;
        self.storage[full] = masks;
        self.storage[population_slot] = population;
        self.storage[top_nonzero] |= bit;
        self.storage[top_full] &= !bit;
    }

    // Make `block`'s masks authoritative before changing them.
    // Inlined: called, what is lent goes through memory.
    #[inline(always)]
    pub(crate) fn open_block(&mut self, block: usize)
        requires { block < blocks self.old.words }
        ensures loan { SameLoan self.old self.new }
        ensures opened { Turns self.old self.new (λ W. Opens W block) }
    {
        let view = self.view();
        match view.block_state(block) {
            State::Mixed => {}
            State::Full => {
                let masks = view.valid_words(block);
                let n = view.words_per_block(block);
                self.open_with(block, masks, 64 * n as u64);
            }
            State::Empty => {
                self.open_with(block, 0, 0);
            }
        }
    }

    // Restore the top-level masks after `block`'s masks changed.
    pub(crate) fn close_block(&mut self, block: usize)
        requires { block < blocks self.old.words }
        ensures loan { SameLoan self.old self.new }
        ensures closed { Turns self.old self.new (λ W. Closes W block) }
    {
        let bit = single(block);
        let view = self.view();
        let top_nonzero = view.top_nonzero_slot();
        let top_full = view.top_full_slot();
        if self.storage[view.nonzero_slot(block)] == 0 {
            self.storage[top_nonzero] &= !bit;
        } else if self.storage[view.full_slot(block)] == view.valid_words(block) {
            self.storage[top_full] |= bit;
        }
    }

    // The kept population of `block` moved; answers how many positions changed.
    pub(crate) fn apply_population(&mut self, block: usize, old: u32, new: u32) -> u32
        requires { block < blocks self.old.words }
        ensures loan { SameLoan self.old self.new }
        ensures written { Writes self.old self.new (λ W st. count_moved W st block old new) }
        ensures changed { result ≡ abs_diff old new }
    {
        let slot = self.view().population_slot(block);
        self.storage[slot] = moved(self.storage[slot], old, new);
        old.abs_diff(new)
    }

    // Store data word `word`, and its two bits in the masks of its block.
    fn write_word(&mut self, word: usize, new: u64)
        requires { word < self.old.words }
        ensures loan { SameLoan self.old self.new }
        ensures written { Writes self.old self.new (λ W st. write_word W st word new) }
    {
        let block = word / 64;
        let bit = single(word % 64);
        let view = self.view();
        let nonzero = view.nonzero_slot(block);
        let full = view.full_slot(block);
        let new_nonzero = combined(self.storage[nonzero], bit, new != 0);
        let new_full = combined(self.storage[full], bit, new == ALL);
        self.storage[word] = new;
        self.storage[nonzero] = new_nonzero;
        self.storage[full] = new_full;
    }

    // Set or clear the `mask` bits of one data word; returns how many bits changed.
    // Inlined: called, what is lent goes through memory.
    #[inline(always)]
    pub(crate) fn assign_in_word(&mut self, word: usize, mask: u64, value: bool) -> u32
        requires { word < self.old.words }
        ensures loan { SameLoan self.old self.new }
        ensures assigned { (a b : ℕ) → Spans mask a b → a ≤ b → b ≤ 64 → Gives self.old self.new (64 * word + a) (64 * word + b) value result }
    {
        let block = word / 64;
        self.open_block(block);
        let old = self.view().mixed_word(word);
        let new = combined(old, mask, value);
        self.write_word(word, new);
        let changed = self.apply_population(block, old.count_ones(), new.count_ones());
        self.close_block(block);
        changed
    }
}
