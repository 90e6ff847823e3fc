// What a range is cut into, parts of 64 units: positions, of which a data word has 64, or data words, of which a block has 64. One
// function counts a range of either (`count_units`), one sets or clears it (`assign_units`). Assumes nothing.
ghost use Rattle.std.specs.Prelude.{ℕ, ◌+◌, ◌-◌, ◌*◌, ◌/◌, ◌%◌, ◌<◌, ◌≤◌};
ghost use Rattle.range_bitset.specs.Inner.{Spans, Counts};
ghost use Rattle.range_bitset.specs.Lent.{SameLoan, Gives};

use crate::{View, ViewMut, span};

pub(crate) trait Unit {
    // How many positions a unit has.
    ghost each: { ℕ };

    // The population of units `from..to` of one part.
    fn part_population(view: View<'_>, from: usize, to: usize) -> u32
        requires { (from < to) × (to ≤ 64 * (from / 64) + 64) × (each * to ≤ 64 * view.words) }
        ensures { Counts view.entry.words (each * from) (each * to) view.entry.storage.now result };

    // That of whole parts `from..to`.
    fn whole_population(view: View<'_>, from: usize, to: usize) -> u32
        requires { (from < to) × (each * (64 * to) ≤ 64 * view.words) }
        ensures { Counts view.entry.words (each * (64 * from)) (each * (64 * to)) view.entry.storage.now result };

    // Units `from..to` of one part set or cleared; answers how many positions changed.
    fn assign_part(view: &mut ViewMut<'_>, from: usize, to: usize, value: bool) -> u32
        requires { (from < to) × (to ≤ 64 * (from / 64) + 64) × (each * to ≤ 64 * view.old.words) }
        ensures loan { SameLoan view.old view.new }
        ensures assigned { Gives view.old view.new (each * from) (each * to) value result };

    // The same of whole parts `from..to`.
    fn assign_whole(view: &mut ViewMut<'_>, from: usize, to: usize, value: bool) -> u32
        requires { (from < to) × (each * (64 * to) ≤ 64 * view.old.words) }
        ensures loan { SameLoan view.old view.new }
        ensures assigned { Gives view.old view.new (each * (64 * from)) (each * (64 * to)) value result };
}

pub(crate) struct Positions;

pub(crate) struct Words;

// The bits of units `from..to` in their part's word.
fn mask_of(from: usize, to: usize) -> u64
    requires { (from < to) × (to ≤ 64 * (from / 64) + 64) }
    ensures { Spans result (from % 64) ((to - 1) % 64 + 1) }
{
    span(from % 64, (to - 1) % 64 + 1)
}

impl Unit for Positions {
    ghost each = { 1 };

    fn part_population(view: View<'_>, from: usize, to: usize) -> u32 {
        view.masked_ones(from / 64, mask_of(from, to))
    }

    fn whole_population(view: View<'_>, from: usize, to: usize) -> u32 {
        view.count_units::<Words>(from, to)
    }

    // Copied to where it is called, or what is lent goes through memory.
    #[inline(always)]
    fn assign_part(view: &mut ViewMut<'_>, from: usize, to: usize, value: bool) -> u32 {
        view.assign_in_word(from / 64, mask_of(from, to), value)
    }

    fn assign_whole(view: &mut ViewMut<'_>, from: usize, to: usize, value: bool) -> u32 {
        view.assign_units::<Words>(from, to, value)
    }
}

impl Unit for Words {
    ghost each = { 64 };

    fn part_population(view: View<'_>, from: usize, to: usize) -> u32 {
        view.words_population(from / 64, mask_of(from, to))
    }

    fn whole_population(view: View<'_>, from: usize, to: usize) -> u32 {
        view.blocks_population(span(from, to))
    }

    // Copied, so that the mask is made where one of its ends is known.
    #[inline(always)]
    fn assign_part(view: &mut ViewMut<'_>, from: usize, to: usize, value: bool) -> u32 {
        view.assign_words(from / 64, mask_of(from, to), value)
    }

    fn assign_whole(view: &mut ViewMut<'_>, from: usize, to: usize, value: bool) -> u32 {
        view.assign_blocks(span(from, to), value)
    }
}
