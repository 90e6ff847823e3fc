// The entries of the ledger, of the writer of saved lists and of the estimate, for C and C++: include/kladomyne.h has the same structs and
// calls, in C's words. A head goes in and comes back by value; a lent slice is a pointer and a count; an answer is a struct of numbers. Each export
// calls the entry of its name in ledger, list_writer or estimate, and hands its answer over in those numbers, and nothing else:
// specs/LedgerTold.antt has the definitions. They are alike but for the call: C has no generics, and each name has its own promise.
// Assumes what the header says that the caller owes, and nothing of heads, numbers and arguments: no export has a `requires`.
#![tactic(auto)]

ghost use Rattle.std.specs.Prelude.{◌≡◌, true, false, length};
ghost use Rattle.ledger.specs.Machine.{range, back, point};
ghost use Rattle.ledger.specs.Entries.{new_of as new_ledger_of};
ghost use Rattle.capi_ledger.specs.LedgerTold.{ledger_of, ledger_head, told_new, told_opened, told_called, estimate_of, told_estimated, CallTold, WipeTold, OpenTold, WriteTold, EstimateTold};

use answers::{Changed, Refusal};
use capi_told::{KladoAnswer, KladoSet};
use estimate::{Estimate, NotPriced};
use ledger::{Ledger, NotOpened};
use range_bitset::RangeBitset;

// The head of a ledger.
#[repr(C)]
#[derive(Clone, Copy, Debug, Default, PartialEq, Eq)]
pub struct KladoLedger {
    pub set: KladoSet,
    pub journal: u32,
    pub used: u32,
}

// What the calls give that change a ledger. C has no Result, so 0 or the refusal stands beside the value; so in the next.
#[repr(C)]
#[derive(Clone, Copy, Debug, PartialEq, Eq)]
pub struct KladoLedgerAnswer {
    pub refused: u32,
    pub value: u32,
    pub head: KladoLedger,
}

// What the calls give that make a ledger: beside a refusal stands a head that every call refuses.
#[repr(C)]
#[derive(Clone, Copy, Debug, Default, PartialEq, Eq)]
pub struct KladoOpened {
    pub refused: u32,
    pub run: u64,
    pub head: KladoLedger,
}

// What an order costs: its pence, its sheets, and the sheets of each class.
#[repr(C)]
#[derive(Clone, Copy, Debug, PartialEq, Eq)]
pub struct KladoEstimate {
    pub pence: u32,
    pub sheets: u32,
    pub classes: [u32; 5],
}

// What the estimate gives: beside a refusal stand seven zeros.
#[repr(C)]
#[derive(Clone, Copy, Debug, PartialEq, Eq)]
pub struct KladoEstimated {
    pub refused: u32,
    pub position: u64,
    pub estimate: KladoEstimate,
}

const NO_ESTIMATE: KladoEstimate = KladoEstimate {
    pence: 0,
    sheets: 0,
    classes: [0, 0, 0, 0, 0],
};

// A head in C's struct as the ledger's own, and back.
impl From<KladoLedger> for Ledger {
    ghost from_gives = { λ head ledger. ledger ≡ ledger_of head };

    fn from(head: KladoLedger) -> Ledger {
        Ledger {
            set: RangeBitset::from(head.set),
            journal: head.journal,
            used: head.used,
        }
    }
}

impl From<Ledger> for KladoLedger {
    ghost from_gives = { λ ledger head. head ≡ ledger_head ledger };

    fn from(ledger: Ledger) -> KladoLedger {
        KladoLedger {
            set: KladoSet::from(ledger.set),
            journal: ledger.journal,
            used: ledger.used,
        }
    }
}

// The answers in C's numbers: the bad run's index stands beside 8 alone.
impl From<Result<Ledger, NotOpened>> for KladoOpened {
    ghost from_gives = { λ answer told. told ≡ told_opened answer };

    fn from(answer: Result<Ledger, NotOpened>) -> KladoOpened {
        let (refused, run, head) = match answer {
            Ok(ledger) => (0, 0, KladoLedger::from(ledger)),
            Err(NotOpened::Refused(refusal)) => (
                u8::from(refusal) as u32,
                0,
                KladoLedger::default(),
            ),
            Err(NotOpened::BadRun(index)) => (8, index as u64, KladoLedger::default()),
        };
        KladoOpened { refused, run, head }
    }
}

impl From<Result<Ledger, Refusal>> for KladoOpened {
    ghost from_gives = { λ answer told. told ≡ told_new answer };

    fn from(answer: Result<Ledger, Refusal>) -> KladoOpened {
        KladoOpened::from(answer.map_err(NotOpened::from))
    }
}

impl From<Estimate> for KladoEstimate {
    ghost from_gives = { λ order estimate. estimate ≡ estimate_of order };

    fn from(order: Estimate) -> KladoEstimate {
        let classes = order.classes;
        KladoEstimate {
            pence: order.pence,
            sheets: order.sheets,
            classes,
        }
    }
}

// The answer in C's numbers: a position stands beside 13 alone.
impl From<Result<Estimate, NotPriced>> for KladoEstimated {
    ghost from_gives = { λ answer told. told ≡ told_estimated answer };

    fn from(answer: Result<Estimate, NotPriced>) -> KladoEstimated {
        let (refused, position, estimate) = match answer {
            Ok(order) => (0, 0, KladoEstimate::from(order)),
            Err(NotPriced::Refused(refusal)) => (u8::from(refusal) as u32, 0, NO_ESTIMATE),
            Err(NotPriced::Unmeasured(position)) => (13, position as u64, NO_ESTIMATE),
        };
        KladoEstimated {
            refused,
            position,
            estimate,
        }
    }
}

impl KladoLedgerAnswer {
    // What a call gives that changes a ledger: after a refused one the head is what it was.
    pub fn after(head: KladoLedger, change: Result<Changed<u32, Ledger>, Refusal>) -> Self
        ensures { result ≡ told_called head change }
    {
        match change {
            Ok(changed) => KladoLedgerAnswer {
                refused: 0,
                value: changed.answer,
                head: KladoLedger::from(changed.head),
            },
            Err(refusal) => KladoLedgerAnswer {
                refused: u8::from(refusal) as u32,
                value: 0,
                head,
            },
        }
    }
}

#[unsafe(no_mangle)]
pub extern "C" fn klado_ledger_new(
    capacity: usize,
    limit: usize,
    storage: &[u64],
    journal: &[u32],
) -> KladoOpened
    ensures { result ≡ told_new (new_ledger_of capacity limit (length storage.now) (length journal.now)) }
{
    Ledger::new(capacity, limit, storage, journal).into()
}

#[unsafe(no_mangle)]
pub extern "C" fn klado_ledger_open(
    file: &[u8],
    limit: usize,
    storage: &mut [u64],
    journal: &[u32],
) -> KladoOpened
    ensures { OpenTold file.now limit storage.old journal.now result storage.new }
{
    Ledger::open(file, limit, storage, journal).into()
}

#[unsafe(no_mangle)]
pub extern "C" fn klado_ledger_mark(
    head: KladoLedger,
    storage: &mut [u64],
    journal: &mut [u32],
    start: usize,
    end: usize,
) -> KladoLedgerAnswer
    ensures { CallTold (range start end true) head storage.old journal.old result storage.new journal.new }
{
    let done = Ledger::from(head).mark(storage, journal, start, end);
    KladoLedgerAnswer::after(head, done)
}

#[unsafe(no_mangle)]
pub extern "C" fn klado_ledger_clear(
    head: KladoLedger,
    storage: &mut [u64],
    journal: &mut [u32],
    start: usize,
    end: usize,
) -> KladoLedgerAnswer
    ensures { CallTold (range start end false) head storage.old journal.old result storage.new journal.new }
{
    let done = Ledger::from(head).clear(storage, journal, start, end);
    KladoLedgerAnswer::after(head, done)
}

#[unsafe(no_mangle)]
pub extern "C" fn klado_ledger_mark_point(
    head: KladoLedger,
    storage: &mut [u64],
    journal: &mut [u32],
    index: usize,
) -> KladoLedgerAnswer
    ensures { CallTold (point index true) head storage.old journal.old result storage.new journal.new }
{
    let done = Ledger::from(head).mark_point(storage, journal, index);
    KladoLedgerAnswer::after(head, done)
}

#[unsafe(no_mangle)]
pub extern "C" fn klado_ledger_clear_point(
    head: KladoLedger,
    storage: &mut [u64],
    journal: &mut [u32],
    index: usize,
) -> KladoLedgerAnswer
    ensures { CallTold (point index false) head storage.old journal.old result storage.new journal.new }
{
    let done = Ledger::from(head).clear_point(storage, journal, index);
    KladoLedgerAnswer::after(head, done)
}

#[unsafe(no_mangle)]
pub extern "C" fn klado_ledger_take_back(
    head: KladoLedger,
    storage: &mut [u64],
    journal: &[u32],
) -> KladoLedgerAnswer
    ensures { CallTold back head storage.old journal.now result storage.new journal.now }
{
    let done = Ledger::from(head).take_back(storage, journal);
    KladoLedgerAnswer::after(head, done)
}

#[unsafe(no_mangle)]
pub extern "C" fn klado_ledger_wipe(head: KladoLedger, storage: &mut [u64]) -> KladoLedgerAnswer
    ensures { WipeTold head storage.old result storage.new }
{
    let done = Ledger::from(head).wipe(storage);
    KladoLedgerAnswer::after(head, done)
}

#[unsafe(no_mangle)]
pub extern "C" fn klado_list_write(head: KladoSet, storage: &[u64], file: &mut [u8]) -> KladoAnswer
    ensures { WriteTold head storage.now file.old result file.new }
{
    list_writer::write(RangeBitset::from(head), storage, file).into()
}

#[unsafe(no_mangle)]
pub extern "C" fn klado_estimate_price(
    head: KladoSet,
    storage: &[u64],
    edges: &[u16],
    start: usize,
    end: usize,
) -> KladoEstimated
    ensures { EstimateTold head storage.now edges.now start end result }
{
    estimate::price(RangeBitset::from(head), storage, edges, start, end).into()
}
