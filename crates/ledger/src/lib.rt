// The ledger: a set with an undo journal. A marking or clearing records the runs that it changes before it changes them, and
// take-back gives just those runs their old value again. The head goes in and comes back by value; storage and journal are
// lent with each call. Work is bounded by the ends of the range, the blocks and the runs changed, never by the words of the capacity.
// Assumes nothing of its callers: no entry has a `requires`.
//
// 01 lends storage and journal with each call, and so does C: they stand beside the head, and not in a struct with it. 01 names the
// four calls that mark and clear; each is one line over `assign` or `assign_point`.
//
// This file has the head and the entries; record has what a marking writes into the journal, runs the runs given a value again.
#![tactic(auto)]

ghost use Rattle.std.specs.Prelude.{◌≡◌, ℕ, true, false, List, length};
ghost use Rattle.answers.specs.Refusals.{refused_by};
ghost use Rattle.ledger.specs.Machine.{range, back, wipe, point};
ghost use Rattle.ledger.specs.Memory.{refusal_for};
ghost use Rattle.ledger.specs.Entries.{CalledEnsures, new_of, OpenEnsures};
ghost use Rattle.ledger.specs.Inner.{fresh_of};

use answers::{Changed, Refusal};
use range_bitset::RangeBitset;
use saved_list::BadRun;
use set_runs::Runs;

mod record;
mod runs;

// The longest journal.
const JOURNAL_MOST: u32 = 16384;

// A ledger's head: the set's head, how many journal numbers it may use, J, and how many are in use, U. The default's set has no word,
// and every call refuses it.
#[derive(Clone, Copy, Debug, Default, PartialEq, Eq)]
pub struct Ledger {
    pub set: RangeBitset,
    pub journal: u32,
    pub used: u32,
}

// Why a saved list is not opened: refused, or by 8 with the index of the first bad run.
#[derive(Clone, Copy, Debug, PartialEq, Eq)]
pub enum NotOpened {
    Refused(Refusal),
    BadRun(usize),
}

impl From<Refusal> for NotOpened {
    ghost use Rattle.std.specs.Prelude.{◌≡◌};
    ghost use Rattle.ledger.specs.declared.NotOpened.TheVariants.{Refused};

    ghost from_gives = { λ refusal why. why ≡ Refused refusal };

    fn from(refusal: Refusal) -> NotOpened {
        NotOpened::Refused(refusal)
    }
}

impl From<BadRun> for NotOpened {
    ghost use Rattle.std.specs.Prelude.{◌≡◌};
    ghost use Rattle.ledger.specs.declared.NotOpened.TheVariants as why;

    ghost from_gives = { λ bad r. r ≡ why.BadRun bad.index };

    fn from(bad: BadRun) -> NotOpened {
        NotOpened::BadRun(bad.index)
    }
}

impl Ledger {
    // A fresh ledger. Nothing is written.
    pub fn new(
        capacity: usize,
        limit: usize,
        storage: &[u64],
        journal: &[u32],
    ) -> Result<Self, Refusal>
        ensures { result ≡ new_of capacity limit (length storage.now) (length journal.now) }
    {
        let head = Self::fresh(capacity, limit)?;
        head.check(head.journal, storage.len(), journal.len())?;
        Ok(head)
    }

    // A ledger opened on a saved list. Every run is checked before anything is written.
    pub fn open(
        file: &[u8],
        limit: usize,
        storage: &mut [u64],
        journal: &[u32],
    ) -> Result<Self, NotOpened>
        ensures { OpenEnsures file.now limit storage.old journal.now result storage.new }
    {
        let header = saved_list::read_header(file)?;
        let head = Self::fresh(64 * header.words as usize, limit)?;
        saved_list::check_length(file)?;
        head.check(head.journal, storage.len(), journal.len())?;
        saved_list::check_runs(file)?;
        let set = Self::assign_file(head.set, storage, file);
        Ok(Ledger { set, ..head })
    }

    // Mark every position in `start..end`; answers how many changed.
    pub fn mark(
        self,
        storage: &mut [u64],
        journal: &mut [u32],
        start: usize,
        end: usize,
    ) -> Result<Changed<u32, Self>, Refusal>
        ensures { CalledEnsures (range start end true) self storage.old journal.old storage.new journal.new result }
    {
        self.assign(storage, journal, start, end, true)
    }

    // Clear every position in `start..end`; answers how many changed.
    pub fn clear(
        self,
        storage: &mut [u64],
        journal: &mut [u32],
        start: usize,
        end: usize,
    ) -> Result<Changed<u32, Self>, Refusal>
        ensures { CalledEnsures (range start end false) self storage.old journal.old storage.new journal.new result }
    {
        self.assign(storage, journal, start, end, false)
    }

    // Mark one position.
    pub fn mark_point(
        self,
        storage: &mut [u64],
        journal: &mut [u32],
        index: usize,
    ) -> Result<Changed<u32, Self>, Refusal>
        ensures { CalledEnsures (point index true) self storage.old journal.old storage.new journal.new result }
    {
        self.assign_point(storage, journal, index, true)
    }

    // Clear one position.
    pub fn clear_point(
        self,
        storage: &mut [u64],
        journal: &mut [u32],
        index: usize,
    ) -> Result<Changed<u32, Self>, Refusal>
        ensures { CalledEnsures (point index false) self storage.old journal.old storage.new journal.new result }
    {
        self.assign_point(storage, journal, index, false)
    }

    // Take the last standing call back: the runs that it changed get their old value. Answers how many positions changed.
    pub fn take_back(
        self,
        storage: &mut [u64],
        journal: &[u32],
    ) -> Result<Changed<u32, Self>, Refusal>
        ensures { CalledEnsures back self storage.old journal.now storage.new journal.now result }
    {
        self.check(self.journal, storage.len(), journal.len())?;
        let Some((runs, value)) = Self::last_call(journal, self.used) else {
            return Err(Refusal::NoCall);
        };
        let used = self.used - (2 * runs + 1);
        let back = Self::assign_runs(self.set, storage, journal, used, runs, !value);
        Ok(Changed {
            answer: back.answer,
            head: Ledger {
                set: back.head,
                used,
                ..self
            },
        })
    }

    // Empty the set and the journal; answers how many positions the set had. The journal's numbers are left.
    pub fn wipe(self, storage: &mut [u64]) -> Result<Changed<u32, Self>, Refusal>
        ensures { (j : List ℕ) → CalledEnsures wipe self storage.old j storage.new j result }
    {
        self.check(0, storage.len(), 0)?;
        let done = self.set.clear(storage)?;
        Ok(Changed {
            answer: done.answer,
            head: Ledger {
                set: done.head,
                used: 0,
                ..self
            },
        })
    }

    // The head of a ledger with nothing in it.
    fn fresh(capacity: usize, limit: usize) -> Result<Self, Refusal>
        ensures { result ≡ fresh_of capacity limit }
    {
        let set = RangeBitset::new(capacity)?;
        if limit > JOURNAL_MOST as usize {
            return Err(Refusal::Size);
        }
        Ok(Ledger {
            set,
            journal: limit as u32,
            used: 0,
        })
    }

    // The tests of a call that needs `limit` journal numbers: 2, then 3.
    fn check(self, limit: u32, storage_len: usize, journal_len: usize) -> Result<(), Refusal>
        ensures { refused_by result ≡ refusal_for self limit storage_len journal_len }
    {
        self.set.check_head()?;
        if self.journal > JOURNAL_MOST || self.used > self.journal {
            return Err(Refusal::Head);
        }
        self.set.check_storage(storage_len)?;
        if limit as usize > journal_len {
            return Err(Refusal::Short);
        }
        Ok(())
    }

    // Mark or clear: refused before anything is written, or recorded and then done.
    fn assign(
        self,
        storage: &mut [u64],
        journal: &mut [u32],
        start: usize,
        end: usize,
        value: bool,
    ) -> Result<Changed<u32, Self>, Refusal>
        ensures { CalledEnsures (range start end value) self storage.old journal.old storage.new journal.new result }
    {
        self.check(self.journal, storage.len(), journal.len())?;
        if end > 64 * (self.set.words as usize) {
            return Err(Refusal::Outside);
        }
        let most = (self.journal - self.used).saturating_sub(1) / 2;
        let runs = Runs {
            set: self.set,
            storage,
            from: start,
            end,
            value,
        };
        if !runs.fit(most as usize) {
            return Err(Refusal::JournalFull);
        }
        let used = Self::write_call(journal, self.used, runs, most);
        // a call that changes nothing does not stand, and the set is as it would be
        let done = if used == self.used {
            Changed {
                answer: 0,
                head: self.set,
            }
        } else {
            self.set.assign(storage, start, end, value)?
        };
        Ok(Changed {
            answer: done.answer,
            head: Ledger {
                set: done.head,
                used,
                ..self
            },
        })
    }

    // The last index of all is past every capacity, and one more would overflow.
    fn assign_point(
        self,
        storage: &mut [u64],
        journal: &mut [u32],
        index: usize,
        value: bool,
    ) -> Result<Changed<u32, Self>, Refusal>
        ensures { CalledEnsures (point index value) self storage.old journal.old storage.new journal.new result }
    {
        let Some(end) = index.checked_add(1) else {
            self.check(self.journal, storage.len(), journal.len())?;
            return Err(Refusal::Outside);
        };
        self.assign(storage, journal, index, end, value)
    }
}
