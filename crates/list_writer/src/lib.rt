// The writer of saved lists (`MSL`): from a set, its bytes into a lent buffer. The runs are walked twice, once to see that the
// buffer has room for them, before anything is written, and once to write them; the first walk is left out where there is room for
// as many runs as the capacity can have. Opening such a file is the ledger's.
// Assumes nothing of its callers: the entry has no `requires`.
#![tactic(auto)]

ghost use Rattle.std.specs.Prelude.{◌≡◌, false, ◌+◌, ◌*◌, ◌≤◌, ◌<◌, length};
ghost use Rattle.saved_list.specs.Format.{header_bytes, run_bytes};
ghost use Rattle.set_runs.specs.Walks.{WritesRuns};
ghost use Rattle.list_writer.specs.Entry.{WriteEnsures};
ghost use Rattle.list_writer.specs.Inner.{overwritten};

use answers::Refusal;
use range_bitset::RangeBitset;
use saved_list::{HEADER_SIZE, MARK, RUN_SIZE, VERSION};
use set_runs::Runs;

// Bytes stored at a place.
fn put(file: &mut [u8], at: usize, bytes: &[u8])
    requires { at + length bytes.now ≤ length file.old }
    ensures { file.new ≡ overwritten at bytes.now file.old }
{
    file[at..at + bytes.len()].copy_from_slice(bytes);
}

// The letters, the version, W and the run count.
fn put_header(file: &mut [u8], words: u16, runs: u32)
    requires { 11 ≤ length file.old }
    ensures { file.new ≡ overwritten 0 (header_bytes words runs) file.old }
{
    put(file, 0, &MARK);
    put(file, 3, &VERSION.to_be_bytes());
    put(file, 5, &words.to_be_bytes());
    put(file, 7, &runs.to_be_bytes());
}

// Write the runs, at most `most`, behind the header's place. Answers how many they are.
fn write_runs(file: &mut [u8], runs: Runs, most: usize) -> usize
    requires { 11 + 8 * most ≤ length file.old }
    ensures { WritesRuns run_bytes runs.entry.set runs.entry.storage.now runs.entry.from runs.entry.end runs.entry.value most result 11 (11 + 8 * result) file.old file.new }
{
    // counted, and not by `enumerate`, which does not tell how many came
    let mut written = 0;
    for run in runs.take(most) {
        let at = HEADER_SIZE + RUN_SIZE * written;
        put(file, at, &run.start.to_be_bytes());
        put(file, at + 4, &run.end.to_be_bytes());
        written += 1;
    }
    written
}

// Write the set's saved list to the front of the buffer. Answers its length.
pub fn write(set: RangeBitset, storage: &[u64], file: &mut [u8]) -> Result<u32, Refusal>
    ensures { WriteEnsures set storage.now file.old result file.new }
{
    set.check_storage(storage.len())?;
    if file.len() < HEADER_SIZE {
        return Err(Refusal::NoRoom);
    }
    let capacity = 64 * (set.words as usize);
    let most = ((file.len() - HEADER_SIZE) / RUN_SIZE).min(capacity / 2);
    let runs = Runs {
        set,
        storage,
        from: 0,
        end: capacity,
        value: false,
    };
    if !runs.fit(most) {
        return Err(Refusal::NoRoom);
    }
    let written = write_runs(file, runs, most);
    put_header(file, set.words as u16, written as u32);
    Ok((HEADER_SIZE + RUN_SIZE * written) as u32)
}
