// Runs given one value: those of the last call in the journal, and those of a saved list. Assumes nothing.
ghost use Rattle.std.specs.Prelude.{◌≡◌, ◌+◌, ◌*◌, ◌≤◌, length, true};
ghost use Rattle.saved_list.specs.Format.{held_count};
ghost use Rattle.ledger.specs.Inner.{read_runs, file_runs, AssignsRuns, Reassigns, last_of};

use crate::Ledger;
use answers::Changed;
use range_bitset::RangeBitset;

impl Ledger {
    // The call that the last of `used` journal numbers closes: its run count and value. Any journal is safe: no more runs than it can
    // hold.
    pub(crate) fn last_call(journal: &[u32], used: u32) -> Option<(u32, bool)>
        requires { used ≤ length journal.now }
        ensures { result ≡ last_of journal.now used }
    {
        let last = journal[..used as usize].last()?;
        Some(((last / 2).min((used - 1) / 2), last % 2 == 1))
    }

    // Give `runs` runs of the journal, from `first` on, one value. A run that the set refuses changes nothing.
    pub(crate) fn assign_runs(
        set: RangeBitset,
        storage: &mut [u64],
        journal: &[u32],
        first: u32,
        runs: u32,
        value: bool,
    ) -> Changed<u32, RangeBitset>
        requires { (first + 2 * runs ≤ length journal.now) × (first + 2 * runs ≤ 16384) }
        ensures { AssignsRuns set storage.old (read_runs journal.now first runs) value result.answer result.head storage.new }
    {
        let mut all = Changed {
            answer: 0u32,
            head: set,
        };
        let last = first + 2 * runs;
        for run in journal[first as usize..last as usize].chunks_exact(2) {
            let start = run[0] as usize;
            let end = run[1] as usize;
            if let Ok(done) = all.head.assign(storage, start, end, value) {
                all.answer = all.answer.wrapping_add(done.answer);
                all.head = done.head;
            }
        }
        all
    }

    // Set the runs of a saved list.
    pub(crate) fn assign_file(set: RangeBitset, storage: &mut [u64], file: &[u8]) -> RangeBitset
        ensures { Reassigns set storage.old (file_runs file.now (held_count file.now)) true result storage.new }
    {
        let mut head = set;
        for run in saved_list::Runs::new(file) {
            if let Ok(done) = head.assign(storage, run.start as usize, run.end as usize, true) {
                head = done.head;
            }
        }
        head
    }
}
