// The set's entries for C and C++: include/kladomyne.h has the same structs and calls, in C's words. A head goes in and comes
// back by value; storage is a pointer and a count; an answer is a struct of numbers. Each export calls the entry of its name in
// range_bitset, or the crate audit, and hands its answer over in those numbers, by the crate capi_told, and nothing else:
// specs/Exports.antt. The ledger's exports are the crate capi_ledger, apart: in one archive with them the searches would be
// compiled for two callers, and slower.
// They are alike but for the call: C has no generics, and each name has its own promise.
// Assumes what the header says that the caller owes, and nothing of heads, numbers and arguments: no export has a `requires`.
#![tactic(auto)]

ghost use Rattle.std.specs.Prelude.{◌≡◌, true, false};
ghost use Rattle.range_bitset.specs.Entries.{new_of};
ghost use Rattle.capi_told.specs.Told.{told_made};
ghost use Rattle.combine.specs.Rules.{both, either, without};
ghost use Rattle.capi.specs.Exports.{CapacityTold, LenTold, GetTold, SetTold, AssignTold, CountTold, NextTold, SelectTold, ClearTold, AuditTold, CombineTold};

use answers::Changed;
use capi_told::{KladoAnswer, KladoFound, KladoPlace, KladoSet, KladoSetAnswer};
use combine::{Both, Either, Without, combine};
use range_bitset::RangeBitset;

#[unsafe(no_mangle)]
pub extern "C" fn klado_set_new(capacity: usize) -> KladoSetAnswer
    ensures { result ≡ told_made (new_of capacity) }
{
    RangeBitset::new(capacity).into()
}

#[unsafe(no_mangle)]
pub extern "C" fn klado_set_capacity(head: KladoSet) -> KladoAnswer
    ensures { CapacityTold head result }
{
    RangeBitset::from(head).capacity().into()
}

#[unsafe(no_mangle)]
pub extern "C" fn klado_set_len(head: KladoSet) -> KladoAnswer
    ensures { LenTold head result }
{
    RangeBitset::from(head).len().into()
}

#[unsafe(no_mangle)]
pub extern "C" fn klado_set_get(head: KladoSet, storage: &[u64], index: usize) -> KladoAnswer
    ensures { GetTold head storage.now index result }
{
    RangeBitset::from(head).get(storage, index).into()
}

#[unsafe(no_mangle)]
pub extern "C" fn klado_set_set(
    head: KladoSet,
    storage: &mut [u64],
    index: usize,
    value: bool,
) -> KladoSetAnswer
    ensures { SetTold head storage.old index value result storage.new }
{
    let done = RangeBitset::from(head).set(storage, index, value);
    let told = done.map(|changed| Changed {
        answer: u32::from(changed.answer),
        head: changed.head,
    });
    KladoSetAnswer::after(head, told)
}

#[unsafe(no_mangle)]
pub extern "C" fn klado_set_assign(
    head: KladoSet,
    storage: &mut [u64],
    start: usize,
    end: usize,
    value: bool,
) -> KladoSetAnswer
    ensures { AssignTold head storage.old start end value result storage.new }
{
    let done = RangeBitset::from(head).assign(storage, start, end, value);
    KladoSetAnswer::after(head, done)
}

#[unsafe(no_mangle)]
pub extern "C" fn klado_set_count(
    head: KladoSet,
    storage: &[u64],
    start: usize,
    end: usize,
) -> KladoAnswer
    ensures { CountTold head storage.now start end result }
{
    RangeBitset::from(head).count(storage, start, end).into()
}

#[unsafe(no_mangle)]
pub extern "C" fn klado_set_next_one(
    head: KladoSet,
    storage: &[u64],
    start: usize,
    end: usize,
) -> KladoFound
    ensures { NextTold true head storage.now start end result }
{
    RangeBitset::from(head).next_one(storage, start, end).into()
}

#[unsafe(no_mangle)]
pub extern "C" fn klado_set_next_zero(
    head: KladoSet,
    storage: &[u64],
    start: usize,
    end: usize,
) -> KladoFound
    ensures { NextTold false head storage.now start end result }
{
    RangeBitset::from(head)
        .next_zero(storage, start, end)
        .into()
}

#[unsafe(no_mangle)]
pub extern "C" fn klado_set_select(head: KladoSet, storage: &[u64], n: usize) -> KladoPlace
    ensures { SelectTold head storage.now n result }
{
    RangeBitset::from(head).select(storage, n).into()
}

#[unsafe(no_mangle)]
pub extern "C" fn klado_set_clear(head: KladoSet, storage: &mut [u64]) -> KladoSetAnswer
    ensures { ClearTold head storage.old result storage.new }
{
    KladoSetAnswer::after(head, RangeBitset::from(head).clear(storage))
}

#[unsafe(no_mangle)]
pub extern "C" fn klado_set_audit(head: KladoSet, storage: &[u64]) -> KladoAnswer
    ensures { AuditTold head storage.now result }
{
    audit::audit(head.into(), storage).into()
}

#[unsafe(no_mangle)]
pub extern "C" fn klado_set_both(
    first: KladoSet,
    first_storage: &[u64],
    second: KladoSet,
    second_storage: &[u64],
    third: &mut [u64],
    scratch: &mut [u64],
) -> KladoSetAnswer
    ensures { CombineTold both first first_storage.now second second_storage.now third.old scratch.old result third.new scratch.new }
{
    combine::<Both>(
        first.into(),
        first_storage,
        second.into(),
        second_storage,
        third,
        scratch,
    )
    .into()
}

#[unsafe(no_mangle)]
pub extern "C" fn klado_set_either(
    first: KladoSet,
    first_storage: &[u64],
    second: KladoSet,
    second_storage: &[u64],
    third: &mut [u64],
    scratch: &mut [u64],
) -> KladoSetAnswer
    ensures { CombineTold either first first_storage.now second second_storage.now third.old scratch.old result third.new scratch.new }
{
    combine::<Either>(
        first.into(),
        first_storage,
        second.into(),
        second_storage,
        third,
        scratch,
    )
    .into()
}

#[unsafe(no_mangle)]
pub extern "C" fn klado_set_without(
    first: KladoSet,
    first_storage: &[u64],
    second: KladoSet,
    second_storage: &[u64],
    third: &mut [u64],
    scratch: &mut [u64],
) -> KladoSetAnswer
    ensures { CombineTold without first first_storage.now second second_storage.now third.old scratch.old result third.new scratch.new }
{
    combine::<Without>(
        first.into(),
        first_storage,
        second.into(),
        second_storage,
        third,
        scratch,
    )
    .into()
}
