// Setting or clearing a range, or one position. Assumes nothing.
ghost use Rattle.std.specs.Prelude.{◌≡◌, ◌+◌, ◌-◌, ◌*◌, ◌%◌, ◌^◌, ◌<◌, ◌≤◌, if◌then◌else◌};
ghost use Rattle.range_bitset.specs.Entries.{AssignEnsures, SetEnsures};

use crate::unit::{Positions, Unit};
use crate::{RangeBitset, ViewMut, single};
use answers::{Changed, Refusal};

impl RangeBitset {
    // The population after `changed` positions were set or cleared.
    fn shifted(len: u32, changed: u32, value: bool) -> u32
        ensures { result ≡ (if value then (len + changed) % 2 ^ 32 else (len + (2 ^ 32 - changed)) % 2 ^ 32) }
    {
        if value {
            len.wrapping_add(changed)
        } else {
            len.wrapping_sub(changed)
        }
    }

    // Set or clear every position in `start..end`; answers how many changed.
    pub fn assign(
        self,
        storage: &mut [u64],
        start: usize,
        end: usize,
        value: bool,
    ) -> Result<Changed<u32, Self>, Refusal>
        ensures { AssignEnsures self storage.old start end value result storage.new }
    {
        self.check_range(storage.len(), end)?;
        if start >= end || (!value && self.len == 0) {
            return Ok(Changed {
                answer: 0,
                head: self,
            });
        }
        let words = self.words as usize;
        let mut view = ViewMut { storage, words };
        view.ensure_storage(self.allocated);
        let changed = view.assign_units::<Positions>(start, end, value);
        Ok(Changed {
            answer: changed,
            head: RangeBitset {
                words: self.words,
                len: Self::shifted(self.len, changed, value),
                allocated: true,
            },
        })
    }

    // Set or clear one position; answers whether it changed. Beside `assign`, as in the Rust: test, change and answer differ.
    pub fn set(
        self,
        storage: &mut [u64],
        index: usize,
        value: bool,
    ) -> Result<Changed<bool, Self>, Refusal>
        ensures { SetEnsures self storage.old index value result storage.new }
    {
        self.check_point(storage.len(), index)?;
        if !value && self.len == 0 {
            return Ok(Changed {
                answer: false,
                head: self,
            });
        }
        let words = self.words as usize;
        let bit = single(index % 64);
        let mut view = ViewMut { storage, words };
        view.ensure_storage(self.allocated);
        let changed = view.assign_in_word(index / 64, bit, value);
        Ok(Changed {
            answer: changed != 0,
            head: RangeBitset {
                words: self.words,
                len: Self::shifted(self.len, changed, value),
                allocated: true,
            },
        })
    }
}

impl ViewMut<'_> {
    ghost use Rattle.range_bitset.specs.Lent.{SameLoan, Gives};

    // The rest of the Rust's `assign`, from `first_word` on, where a unit is a position; its `assign_whole_words` where it is a word.
    // Cut as in `count_units`; one function of both would need a trait for what is done to a part, with laws for doing one after another.
    pub(crate) fn assign_units<U: Unit>(&mut self, from: usize, to: usize, value: bool) -> u32
        requires { (from < to) × (U.each * to ≤ 64 * self.old.words) }
        ensures loan { SameLoan self.old self.new }
        ensures assigned { Gives self.old self.new (U.each * from) (U.each * to) value result }
    {
        let first = from / 64;
        let last = (to - 1) / 64;
        if first == last {
            return U::assign_part(self, from, to, value);
        }
        let mut changed = 0u32;
        let mut whole_from = first;
        if from % 64 != 0 {
            whole_from += 1;
            changed = U::assign_part(self, from, 64 * whole_from, value);
        }
        let mut whole_to = last + 1;
        if to % 64 != 0 {
            whole_to -= 1;
            let more = U::assign_part(self, 64 * whole_to, to, value);
            changed = changed.wrapping_add(more);
        }
        let whole = if whole_from < whole_to {
            U::assign_whole(self, whole_from, whole_to, value)
        } else {
            0
        };
        changed.wrapping_add(whole)
    }
}
