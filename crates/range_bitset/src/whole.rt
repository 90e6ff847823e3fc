// Whole words and whole blocks: their population, and setting or clearing them by masks alone. Assumes nothing.
ghost use Rattle.std.specs.Prelude.{◌≡◌, ℕ, ◌+◌, ◌*◌, ◌%◌, ◌^◌, ◌<◌, ◌≤◌, length, if◌then◌else◌, count_ones, slice_index, slice_index_or, slice_set};
ghost use Rattle.positions.specs.Positions.{sum_over};
ghost use Rattle.bits.specs.Bit.{bit, put};
ghost use Rattle.range_bitset.specs.Layout.{blocks, words_of, at, population};
ghost use Rattle.range_bitset.specs.Inner.{Spans, mixed_count, words_count, blocks_count};

use crate::{RangeBitset, State, View, ViewMut, combined};
use bits::walk::Ones;

impl RangeBitset {
    // Population of the data words `explicit` of one block.
    fn stored_population(data: &[u64], explicit: u64) -> u32
        requires { (length «data».now ≤ 64) × (explicit < 2 ^ length «data».now) }
        ensures { (result ≡ sum_over (bit explicit) (λ k. count_ones (slice_index_or «data».now k 0)) 0 64) × (result ≤ count_ones explicit * 64) }
    {
        let mut population = 0u32;
        for word in Ones(explicit) {
            population += data[word].count_ones();
        }
        population
    }
}

impl View<'_> {
    // Population of the `mask` words of a `Mixed` block.
    fn mixed_words_population(self, block: usize, mask: u64) -> u32
        requires { (block < blocks self.words) × (mask < 2 ^ words_of self.words block) }
        ensures { (result ≡ mixed_count self.entry.words self.entry.storage.now block mask) × (result ≤ 4096) }
    {
        let full = self.storage[self.full_slot(block)] & mask;
        let explicit = self.storage[self.nonzero_slot(block)] & !full & mask;
        let stored = RangeBitset::stored_population(self.data(block), explicit);
        full.count_ones() * 64 + stored
    }

    // Population of the `mask` words of `block`.
    pub(crate) fn words_population(self, block: usize, mask: u64) -> u32
        requires { (block < blocks self.words) × (mask < 2 ^ words_of self.words block) }
        ensures { (result ≡ words_count self.entry.words self.entry.storage.now block mask) × (result ≤ 4096) }
    {
        match self.block_state(block) {
            State::Empty => 0,
            State::Full => mask.count_ones() * 64,
            State::Mixed => self.mixed_words_population(block, mask),
        }
    }
}

impl RangeBitset {
    // The population of what `mask` has, `each` positions a bit, once all is set or cleared.
    fn size_if(value: bool, mask: u64, each: u32) -> u32
        requires { each ≤ 4096 }
        ensures { result ≡ (if value then count_ones mask * each else 0) }
    {
        if value { mask.count_ones() * each } else { 0 }
    }
}

impl ViewMut<'_> {
    ghost use Rattle.range_bitset.specs.Lent.{SameLoan, Gives};

    // The `mask` bits set or cleared at two slots: both masks of a block, or both top masks.
    fn write_masks(&mut self, nonzero: usize, full: usize, mask: u64, value: bool)
        requires { (nonzero < length self.old.storage.now) × (full < length self.old.storage.now) }
        ensures loan { SameLoan self.old self.new }
        ensures written { self.new.storage.now ≡ slice_set (slice_set self.old.storage.now nonzero (put 64 (slice_index self.old.storage.now nonzero) mask value)) full (put 64 (slice_index self.old.storage.now full) mask value) }
    {
        let new_nonzero = combined(self.storage[nonzero], mask, value);
        let new_full = combined(self.storage[full], mask, value);
        self.storage[nonzero] = new_nonzero;
        self.storage[full] = new_full;
    }

    // Set or clear whole data words `mask` (a word mask) of `block`.
    // Inlined: called, what is lent goes through memory.
    #[inline(always)]
    pub(crate) fn assign_words(&mut self, block: usize, mask: u64, value: bool) -> u32
        requires { (block < blocks self.old.words) × (mask < 2 ^ words_of self.old.words block) }
        ensures loan { SameLoan self.old self.new }
        ensures assigned { (a b : ℕ) → Spans mask a b → a ≤ b → b ≤ words_of self.old.words block → Gives self.old self.new (64 * (64 * block + a)) (64 * (64 * block + b)) value result }
    {
        self.open_block(block);
        let view = self.view();
        let old = view.mixed_words_population(block, mask);
        let nonzero = view.nonzero_slot(block);
        let full = view.full_slot(block);
        let new = RangeBitset::size_if(value, mask, 64);
        self.write_masks(nonzero, full, mask, value);
        let changed = self.apply_population(block, old, new);
        self.close_block(block);
        changed
    }

    // Set or clear whole blocks `mask` (a block mask), each of 64 words.
    pub(crate) fn assign_blocks(&mut self, mask: u64, value: bool) -> u32
        requires { mask < 2 ^ blocks self.old.words }
        ensures loan { SameLoan self.old self.new }
        ensures assigned { (a b : ℕ) → Spans mask a b → a ≤ b → 64 * b ≤ self.old.words → Gives self.old self.new (4096 * a) (4096 * b) value result }
    {
        let view = self.view();
        let old = view.blocks_population(mask);
        let top_nonzero = view.top_nonzero_slot();
        let top_full = view.top_full_slot();
        let new = RangeBitset::size_if(value, mask, 4096);
        self.write_masks(top_nonzero, top_full, mask, value);
        old.abs_diff(new)
    }
}

impl View<'_> {
    // The kept populations of the blocks `mixed`, added to `known`.
    fn kept_populations(self, mixed: u64, known: u32) -> u32
        requires { mixed < 2 ^ blocks self.words }
        ensures { result ≡ (known + sum_over (bit mixed) (λ b. at self.entry.words self.entry.storage.now (population b)) 0 64) % 2 ^ 32 }
    {
        let mut population = known;
        for block in Ones(mixed) {
            let kept = self.storage[self.population_slot(block)];
            // cut to 32 bits first, since an `as` has to keep the number
            population = population.wrapping_add((kept % 0x1_0000_0000) as u32);
        }
        population
    }

    // Population of whole blocks `mask` (a block mask), each of 64 words: full blocks by their size, only partially set
    // ones by their kept population.
    pub(crate) fn blocks_population(self, mask: u64) -> u32
        requires { mask < 2 ^ blocks self.words }
        ensures { result ≡ blocks_count self.entry.words self.entry.storage.now mask }
    {
        let full = mask & self.storage[self.top_full_slot()];
        let mixed = mask & self.storage[self.top_nonzero_slot()] & !full;
        self.kept_populations(mixed, full.count_ones() * 4096)
    }
}
