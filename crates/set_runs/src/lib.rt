// The runs of a set: an iterator that finds each by a search, and whether they are few enough. A run is a longest stretch of
// positions that giving a range a value would change; at the value false these are the set's own runs. What the iterator finds is
// written by those above: the ledger into its journal, list_writer into a saved list.
// Assumes nothing of its callers: no entry has a `requires`.
#![tactic(auto)]

ghost use Rattle.set_runs.specs.Walks.{Finds, RunsFit, CountsRuns};

use range_bitset::RangeBitset;
use std::ops::Range;

// The runs that giving `from..end` the value changes, from the first on, in 32 bits, which hold every position. On any memory each lies
// behind the one before, within the range, so that they end.
#[derive(Clone, Copy, Debug)]
pub struct Runs<'a> {
    pub set: RangeBitset,
    pub storage: &'a [u64],
    pub from: usize,
    pub end: usize,
    pub value: bool,
}

impl Iterator for Runs<'_> {
    ghost use Rattle.std.specs.Prelude.{◌-◌};
    ghost use Rattle.std.specs.Iterator.{at_most};
    ghost use Rattle.set_runs.specs.Runs.{GivesRun};

    type Item = Range<u32>;

    ghost next_gives = { GivesRun };

    ghost remaining = { λ runs. at_most (runs.end - runs.from) };

    fn next(&mut self) -> Option<Range<u32>> {
        let run = self.first()?;
        self.from = run.end;
        Some(run.start as u32..run.end as u32)
    }
}

impl Runs<'_> {
    // The first of them.
    fn first(&self) -> Option<Range<usize>>
        ensures { Finds self.now.set self.now.storage.now self.now.from self.now.end self.now.value result }
    {
        let found = if self.value {
            self.set.next_zero(self.storage, self.from, self.end)
        } else {
            self.set.next_one(self.storage, self.from, self.end)
        };
        found.unwrap_or(None)
    }

    // Whether there are at most `most` of them. Two runs have a position between them, so a short range need not be searched.
    pub fn fit(self, most: usize) -> bool
        ensures { RunsFit self.entry.set self.entry.storage.now self.entry.from self.entry.end self.entry.value most result }
    {
        let length = self.end.saturating_sub(self.from);
        length - length / 2 <= most || self.count_up_to(most + 1) <= most
    }

    // How many there are, counted up to `most`.
    fn count_up_to(self, most: usize) -> usize
        ensures { CountsRuns self.entry.set self.entry.storage.now self.entry.from self.entry.end self.entry.value most result }
    {
        self.take(most).count()
    }
}
