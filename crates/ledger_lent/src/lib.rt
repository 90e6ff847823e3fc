// The ledger's calls in the form where the head is lent and changed: each calls the by-value core, stores the head that comes
// back and answers what the core answered. Its promise is the core's own record, with the lent head at entry and at exit.
// 01 names each form, so the three calls stay in both: one function of any call would hide those three lines behind a closure.
// Assumes nothing of its callers: no entry has a `requires`.
#![tactic(auto)]

ghost use Rattle.std.specs.Prelude.{List, [], ◌∷◌, ℕ};
ghost use Rattle.range_bitset.specs.Answers.{of_counted};
ghost use Rattle.ledger.specs.Machine.{range, back, wipe};
ghost use Rattle.ledger.specs.Memory.{memory};
ghost use Rattle.ledger.specs.Entries.{CallEnsures, CalledEnsures};
ghost use Rattle.ledger.specs.History.{Chain};

use answers::{Changed, Refusal};
use ledger::Ledger;

// The by-value core of marking (`value` true) and clearing (`value` false).
pub fn assign(
    head: Ledger,
    storage: &mut [u64],
    journal: &mut [u32],
    start: usize,
    end: usize,
    value: bool,
) -> Result<Changed<u32, Ledger>, Refusal>
    ensures { CalledEnsures (range start end value) head storage.old journal.old storage.new journal.new result }
{
    if value {
        head.mark(storage, journal, start, end)
    } else {
        head.clear(storage, journal, start, end)
    }
}

// Mark or clear every position in `start..end`.
pub fn assign_lent(
    head: &mut Ledger,
    storage: &mut [u64],
    journal: &mut [u32],
    start: usize,
    end: usize,
    value: bool,
) -> Result<u32, Refusal>
    ensures { CallEnsures (range start end value) (memory head.old storage.old journal.old) (of_counted result) (memory head.new storage.new journal.new) }
{
    let done = assign(*head, storage, journal, start, end, value)?;
    Ok(done.store(head))
}

// Take the last standing call back.
pub fn take_back_lent(
    head: &mut Ledger,
    storage: &mut [u64],
    journal: &[u32],
) -> Result<u32, Refusal>
    ensures { CallEnsures back (memory head.old storage.old journal.now) (of_counted result) (memory head.new storage.new journal.now) }
{
    let done = head.take_back(storage, journal)?;
    Ok(done.store(head))
}

// Empty the set and the journal.
pub fn wipe_lent(head: &mut Ledger, storage: &mut [u64]) -> Result<u32, Refusal>
    ensures { (j : List ℕ) → CallEnsures wipe (memory head.old storage.old j) (of_counted result) (memory head.new storage.new j) }
{
    let done = head.wipe(storage)?;
    Ok(done.store(head))
}

// The lent form of marking behind a by-value one.
pub fn assign_through(
    head: Ledger,
    storage: &mut [u64],
    journal: &mut [u32],
    start: usize,
    end: usize,
    value: bool,
) -> Result<Changed<u32, Ledger>, Refusal>
    ensures through { CalledEnsures (range start end value) head storage.old journal.old storage.new journal.new result }
{
    let mut lent = head;
    let answer = assign_lent(&mut lent, storage, journal, start, end, value)?;
    Ok(Changed { answer, head: lent })
}

// The lent form of take-back behind a by-value one.
pub fn take_back_through(
    head: Ledger,
    storage: &mut [u64],
    journal: &[u32],
) -> Result<Changed<u32, Ledger>, Refusal>
    ensures { CalledEnsures back head storage.old journal.now storage.new journal.now result }
{
    let mut lent = head;
    let answer = take_back_lent(&mut lent, storage, journal)?;
    Ok(Changed { answer, head: lent })
}

// The lent form of wipe behind a by-value one.
pub fn wipe_through(head: Ledger, storage: &mut [u64]) -> Result<Changed<u32, Ledger>, Refusal>
    ensures { (j : List ℕ) → CalledEnsures wipe head storage.old j storage.new j result }
{
    let mut lent = head;
    let answer = wipe_lent(&mut lent, storage)?;
    Ok(Changed { answer, head: lent })
}

// The answers of two calls, and the head after them: named, where a tuple would not say which of two equal types comes first.
#[derive(Clone, Copy, Debug, PartialEq, Eq)]
pub struct Two {
    pub first: Result<u32, Refusal>,
    pub second: Result<u32, Refusal>,
    pub head: Ledger,
}

// A marking or clearing by value, then take-back in the lent form. Its promise is a chain of both calls, so demand 3 speaks of
// it: a chain may mix the forms, since a call of either has the same promise.
pub fn assign_then_back(
    head: Ledger,
    storage: &mut [u64],
    journal: &mut [u32],
    start: usize,
    end: usize,
    value: bool,
) -> Two
    ensures { Chain (memory head storage.old journal.old) (range start end value ∷ back ∷ []) (of_counted result.first ∷ of_counted result.second ∷ []) (memory result.head storage.new journal.new) }
{
    let (first, mut head) = match assign(head, storage, journal, start, end, value) {
        Ok(done) => (Ok(done.answer), done.head),
        Err(refusal) => (Err(refusal), head),
    };
    let second = take_back_lent(&mut head, storage, journal);
    Two {
        first,
        second,
        head,
    }
}
