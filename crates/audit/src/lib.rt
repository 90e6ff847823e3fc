// The audit: says whether a head and the storage lent with it are sound, by 01's rules. It goes by those rules alone, from the
// top masks down, and reads no number that they call stale. The set itself is range_bitset, which shows the numbers to it.
// Assumes nothing of its callers: the entry has no `requires`.
#![tactic(auto)]

ghost use Rattle.std.specs.Prelude.{◌≡◌, true, ℕ, ◌<◌, ◌≤◌, length};
ghost use Rattle.bits.specs.Bit.{bit};
ghost use Rattle.range_bitset.specs.Layout.{blocks};
ghost use Rattle.range_bitset.specs.Answers.{storage_refusal};
ghost use Rattle.audit.specs.Sound.{Words};
ghost use Rattle.audit.specs.Entry.{AuditEnsures};
ghost use Rattle.audit.specs.Inner.{Tells, SoundMasks, InWords, WordsAudited, MixedAudited, BlockAudited, BlocksAudited, StorageAudited};

use answers::Refusal;
use bits::walk::Ones;
use range_bitset::{ALL, Block, MixedBlock, RangeBitset};

// Whether every bit of `part` is one of `whole`.
fn lies_within(part: u64, whole: u64) -> bool
    ensures { Tells result ((j : ℕ) → bit part j ≡ true → bit whole j ≡ true) }
{
    part & !whole == 0
}

// Whether the masks of words or blocks have no bit past those that there are, and full lies within nonzero.
fn masks_sound(nonzero: u64, full: u64, valid: u64) -> bool
    ensures { Tells result (SoundMasks nonzero full valid) }
{
    lies_within(nonzero, valid) && lies_within(full, nonzero)
}

// Of what follows each answers how many positions there are, where the rules are met, and else none.

// The data words `explicit` of `block`, which may be neither zero nor all ones; their positions are added to `known`.
fn stored_words_audit(storage: &[u64], block: usize, explicit: u64, known: u32) -> Option<u32>
    requires { (block < 64) × InWords storage.now block explicit × (known ≤ 4096) }
    ensures { WordsAudited storage.now block explicit known result }
{
    let mut population = known;
    for place in Ones(explicit) {
        let word = storage[64 * block + place];
        if word == 0 || word == ALL {
            return None;
        }
        population += word.count_ones();
    }
    Some(population)
}

// A `Mixed` block. Its full words are counted by their mask, so only the words that are looked at are read.
fn mixed_block_audit(storage: &[u64], block: usize, mixed: MixedBlock) -> Option<u32>
    requires { (block < 64) × InWords storage.now block mixed.valid }
    ensures { MixedAudited storage.now block mixed result }
{
    let nonzero = mixed.nonzero;
    let full = mixed.full;
    if !masks_sound(nonzero, full, mixed.valid) || nonzero == 0 || full == mixed.valid {
        return None;
    }
    let known = full.count_ones() * 64;
    let population = stored_words_audit(storage, block, nonzero & !full, known)?;
    if mixed.population != population as u64 {
        return None;
    }
    Some(population)
}

// A head and its storage, which the tests of a call on them have taken.
#[derive(Clone, Copy)]
struct Accepted<'a> {
    head: RangeBitset,
    storage: &'a [u64],
    ghost taken: { storage_refusal head (length storage.now) ≡ 0 },
    // what their type says of the words
    ghost words: { Words storage.now },
}

impl Accepted<'_> {
    // The rules ask nothing of a block that is all clear or all set.
    fn block_audit(self, block: usize) -> Option<u32>
        requires { block < blocks self.head.words }
        ensures { BlockAudited self.entry.head.words self.entry.storage.now block result }
    {
        match self.head.block_of(self.storage, 4096 * block) {
            Ok(Block::Empty) => Some(0),
            Ok(Block::Full(size)) => Some(size),
            Ok(Block::Mixed(mixed)) => mixed_block_audit(self.storage, block, mixed),
            Err(_) => None,
        }
    }

    fn blocks_audit(self) -> Option<u32>
        ensures { BlocksAudited self.entry.head.words self.entry.storage.now result }
    {
        let mut population = 0u32;
        for block in 0..(self.head.words as usize).div_ceil(64) {
            population += self.block_audit(block)?;
        }
        Some(population)
    }

    fn storage_audit(self) -> Option<u32>
        ensures { StorageAudited self.entry.head.words self.entry.storage.now result }
    {
        let Ok(tops) = self.head.top_masks(self.storage) else {
            return None;
        };
        if !masks_sound(tops.nonzero, tops.full, tops.valid) {
            return None;
        }
        self.blocks_audit()
    }
}

// Whether storage and head are sound.
pub fn audit(head: RangeBitset, storage: &[u64]) -> Result<bool, Refusal>
    ensures { AuditEnsures head storage.now result }
{
    head.check_storage(storage.len())?;
    if !head.allocated {
        return Ok(head.len == 0);
    }
    let population = Accepted { head, storage }.storage_audit();
    Ok(population == Some(head.len))
}
