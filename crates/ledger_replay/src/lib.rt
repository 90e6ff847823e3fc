// Replay: a list of calls, run from a new or an opened ledger through the entries themselves. The contract is the one statement
// about the whole list. Assumes nothing of its callers: no entry has a `requires`.
#![tactic(auto)]

ghost use Rattle.std.specs.Prelude.{◌≡◌, min, length};
ghost use Rattle.range_bitset.specs.Answers.{of_counted};
ghost use Rattle.ledger.specs.Memory.{memory};
ghost use Rattle.ledger.specs.Entries.{CallEnsures, CalledEnsures};
ghost use Rattle.ledger_replay.specs.Replay.{meant, ReplaysNew, ReplaysOpen};
ghost use Rattle.ledger_replay.specs.Inner.{Chained};

use answers::{Changed, Refusal};
use ledger::{Ledger, NotOpened};

// A call of a ledger.
#[derive(Clone, Copy, Debug, PartialEq, Eq)]
pub enum Call {
    Mark { start: usize, end: usize },
    Clear { start: usize, end: usize },
    MarkPoint(usize),
    ClearPoint(usize),
    TakeBack,
    Wipe,
}

// A kind, a start and an end: kind 0 marks start..end and 1 clears it, 2 marks the point start and 3 clears it, 4 takes back,
// any other kind wipes.
impl From<(u8, u64, u64)> for Call {
    ghost use Rattle.std.specs.Prelude.{◌≡◌};
    ghost use Rattle.ledger_replay.specs.Replay.{meant, call_of};

    ghost from_gives = { λ numbers call. meant call ≡ call_of numbers.0 numbers.1 numbers.2 };

    fn from(numbers: (u8, u64, u64)) -> Call {
        let (kind, start, end) = numbers;
        let (start, end) = (start as usize, end as usize);
        match kind {
            0 => Call::Mark { start, end },
            1 => Call::Clear { start, end },
            2 => Call::MarkPoint(start),
            3 => Call::ClearPoint(start),
            4 => Call::TakeBack,
            _ => Call::Wipe,
        }
    }
}

impl Call {
    // The call, through its entry.
    fn run(
        self,
        head: Ledger,
        storage: &mut [u64],
        journal: &mut [u32],
    ) -> Result<Changed<u32, Ledger>, Refusal>
        ensures { CalledEnsures (meant self) head storage.old journal.old storage.new journal.new result }
    {
        match self {
            Call::Mark { start, end } => head.mark(storage, journal, start, end),
            Call::Clear { start, end } => head.clear(storage, journal, start, end),
            Call::MarkPoint(index) => head.mark_point(storage, journal, index),
            Call::ClearPoint(index) => head.clear_point(storage, journal, index),
            Call::TakeBack => head.take_back(storage, journal),
            Call::Wipe => head.wipe(storage),
        }
    }

    // The same where the head is lent: a refused call leaves it.
    fn run_lent(
        self,
        head: &mut Ledger,
        storage: &mut [u64],
        journal: &mut [u32],
    ) -> Result<u32, Refusal>
        ensures { CallEnsures (meant self) (memory head.old storage.old journal.old) (of_counted result) (memory head.new storage.new journal.new) }
    {
        let done = self.run(*head, storage, journal)?;
        Ok(done.store(head))
    }
}

// From a new ledger. The answer of call i goes to `answers[i]`; as many calls are run as there are and have room there, and
// their number is answered with the head after them. A ledger that is refused runs none.
pub fn replay_new(
    capacity: usize,
    limit: usize,
    storage: &mut [u64],
    journal: &mut [u32],
    calls: &[Call],
    answers: &mut [Result<u32, Refusal>],
) -> Result<Changed<usize, Ledger>, Refusal>
    ensures { ReplaysNew capacity limit calls.now storage.old journal.old answers.old result storage.new journal.new answers.new }
{
    let head = Ledger::new(capacity, limit, storage, journal)?;
    Ok(replay(head, storage, journal, calls, answers))
}

// The same from a ledger opened on a saved list. Apart from the first, since an opening may fail in more ways.
pub fn replay_open(
    file: &[u8],
    limit: usize,
    storage: &mut [u64],
    journal: &mut [u32],
    calls: &[Call],
    answers: &mut [Result<u32, Refusal>],
) -> Result<Changed<usize, Ledger>, NotOpened>
    ensures { ReplaysOpen file.now limit calls.now storage.old journal.old answers.old result storage.new journal.new answers.new }
{
    let head = Ledger::open(file, limit, storage, journal)?;
    Ok(replay(head, storage, journal, calls, answers))
}

// The calls, one after the other: each is lent the head as the call before left it.
fn replay(
    start: Ledger,
    storage: &mut [u64],
    journal: &mut [u32],
    calls: &[Call],
    answers: &mut [Result<u32, Refusal>],
) -> Changed<usize, Ledger>
    ensures all { result.answer ≡ min (length calls.now) (length answers.old) }
    ensures chained { Chained result.answer (memory start storage.old journal.old) calls.now answers.old answers.new (memory result.head storage.new journal.new) }
{
    let mut head = start;
    let count = calls.len().min(answers.len());
    for (i, call) in calls[..count].iter().enumerate() {
        answers[i] = call.run_lent(&mut head, storage, journal);
    }
    Changed {
        answer: count,
        head,
    }
}
