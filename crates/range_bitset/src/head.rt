// The head: a new set, its capacity and population, and the tests by which head, storage and numbers are refused. Assumes nothing.
ghost use Rattle.std.specs.Prelude.{◌≡◌};
ghost use Rattle.answers.specs.Refusals.{refused_by};
ghost use Rattle.range_bitset.specs.Layout.{allowed};
ghost use Rattle.range_bitset.specs.Answers.{head_refusal, storage_refusal, range_refusal, point_refusal};
ghost use Rattle.range_bitset.specs.Entries.{new_of, CapacityEnsures, LenEnsures};

use crate::RangeBitset;
use answers::Refusal;

impl RangeBitset {
    pub fn new(capacity: usize) -> Result<Self, Refusal>
        ensures { result ≡ new_of capacity }
    {
        let words = capacity / 64;
        // where the Rust asks `is_multiple_of`, which says the same in as many words
        if capacity % 64 != 0 || !Self::allowed(words) {
            return Err(Refusal::Size);
        }
        Ok(RangeBitset {
            words: words as u32,
            len: 0,
            allocated: false,
        })
    }

    pub fn capacity(self) -> Result<u32, Refusal>
        ensures { CapacityEnsures self result }
    {
        self.check_head()?;
        Ok(self.words * 64)
    }

    pub fn len(self) -> Result<u32, Refusal>
        ensures { LenEnsures self result }
    {
        self.check_head()?;
        Ok(self.len)
    }

    // The word counts that there are: the one test for a power of two.
    fn allowed(words: usize) -> bool
        ensures { result ≡ allowed words }
    {
        words.is_power_of_two() && words <= 4096
    }

    // The test of a call on the head alone.
    pub fn check_head(self) -> Result<(), Refusal>
        ensures { refused_by result ≡ head_refusal self }
    {
        let words = self.words as usize;
        if Self::allowed(words) && self.len as usize <= 64 * words {
            Ok(())
        } else {
            Err(Refusal::Head)
        }
    }

    // The tests of a call on head and storage alone.
    pub fn check_storage(self, len: usize) -> Result<(), Refusal>
        ensures { refused_by result ≡ storage_refusal self len }
    {
        self.check_head()?;
        let words = self.words as usize;
        if len < words + 3 * Self::blocks(words) + 2 {
            return Err(Refusal::Short);
        }
        Ok(())
    }

    // The tests of a call that has a range.
    pub fn check_range(self, len: usize, end: usize) -> Result<(), Refusal>
        ensures { refused_by result ≡ range_refusal self len end }
    {
        self.check_storage(len)?;
        if end > 64 * self.words as usize {
            return Err(Refusal::Outside);
        }
        Ok(())
    }

    // Not `check_range` up to the next index, which the last index of all has not.
    pub(crate) fn check_point(self, len: usize, index: usize) -> Result<(), Refusal>
        ensures { refused_by result ≡ point_refusal self len index }
    {
        self.check_storage(len)?;
        if index >= 64 * self.words as usize {
            return Err(Refusal::Outside);
        }
        Ok(())
    }
}
