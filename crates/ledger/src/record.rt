// The runs that a marking or clearing changes, written into the journal. Assumes nothing.
ghost use Rattle.std.specs.Prelude.{◌≡◌, ◌+◌, ◌*◌, ◌≤◌, length};
ghost use Rattle.positions.specs.Positions.{one};
ghost use Rattle.set_runs.specs.Walks.{WritesRuns};
ghost use Rattle.ledger.specs.Machine.{numbers_for};
ghost use Rattle.ledger.specs.Journal.{pair};
ghost use Rattle.ledger.specs.Inner.{WritesCall};

use crate::Ledger;
use set_runs::Runs;

impl Ledger {
    // Write the runs that a call changes, at most `most`, and its closing number, from `used` on. Answers how many numbers are then
    // in use. A call that changes nothing writes nothing.
    pub(crate) fn write_call(journal: &mut [u32], used: u32, runs: Runs, most: u32) -> u32
        requires { (used + numbers_for most ≤ length journal.old) × (used + numbers_for most ≤ 16384) }
        ensures { WritesCall runs.entry.set runs.entry.storage.now runs.entry.from runs.entry.end runs.entry.value used most result journal.old journal.new }
    {
        let value = runs.value;
        let written = Self::write_runs(journal, used, runs, most);
        if written == 0 {
            return used;
        }
        let last = used + 2 * written;
        journal[last as usize] = Self::packed(written, value);
        last + 1
    }

    // Write the runs that a call changes, at most `most`, from `used` on. Answers how many they are. Of a saved list's writer it differs in
    // what is written of a run, two numbers for eight bytes.
    fn write_runs(journal: &mut [u32], used: u32, runs: Runs, most: u32) -> u32
        requires { (used + 2 * most ≤ length journal.old) × (used + 2 * most ≤ 16384) }
        ensures { WritesRuns pair runs.entry.set runs.entry.storage.now runs.entry.from runs.entry.end runs.entry.value most result used (used + 2 * result) journal.old journal.new }
    {
        // counted, and not by `enumerate`, which does not tell how many came
        let mut written = 0;
        for run in runs.take(most as usize) {
            let slot = (used + 2 * written) as usize;
            journal[slot] = run.start;
            journal[slot + 1] = run.end;
            written += 1;
        }
        written
    }

    // A call's closing number.
    fn packed(runs: u32, value: bool) -> u32
        requires { runs ≤ 8192 }
        ensures { result ≡ 2 * runs + one value }
    {
        2 * runs + u32::from(value)
    }
}
