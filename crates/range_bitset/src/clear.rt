// Clearing every position. Assumes nothing.
ghost use Rattle.range_bitset.specs.Entries.{ClearEnsures};

use crate::{RangeBitset, ViewMut};
use answers::{Changed, Refusal};

impl RangeBitset {
    // Clear every position; answers how many there were.
    pub fn clear(self, storage: &mut [u64]) -> Result<Changed<u32, Self>, Refusal>
        ensures { ClearEnsures self storage.old result storage.new }
    {
        self.check_storage(storage.len())?;
        if self.len == 0 {
            return Ok(Changed {
                answer: 0,
                head: self,
            });
        }
        let words = self.words as usize;
        ViewMut { storage, words }.ensure_storage(false);
        Ok(Changed {
            answer: self.len,
            head: RangeBitset {
                words: self.words,
                len: 0,
                allocated: self.allocated,
            },
        })
    }
}
