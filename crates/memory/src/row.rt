// A kept memory in the caller's own row of words, whatever a word of it is made of.
// The row is the caller's own: when the memory is let go, the caller finds the words in it.
ghost use Rattle.std.specs.Prelude.{◌≡◌, ℕ, ◌<◌, cond, nat_lt, List, length, slice_index, slice_set, Ok, Err};

use crate::kept::{KeptMemory, Refusal};

// A row that a word can be read from and put in, where its number is below the count.
pub(crate) trait WordRow {
    // The words.
    ghost words: { Self → List ℕ };

    // What putting a word never changes.
    ghost Rest: { Type 0 };

    ghost rest: { Self → Rest };

    fn count(&self) -> usize
        ensures { result ≡ length (words self.now) };

    // The word `i`.
    fn get(&self, i: usize) -> u64
        requires { i < length (words self.now) }
        ensures { result ≡ slice_index (words self.now) i };

    // Puts `w` in word `i`.
    fn put(&mut self, i: usize, w: u64)
        requires { i < length (words self.old) }
        ensures row { words self.new ≡ slice_set (words self.old) i w }
        ensures beside { rest self.new ≡ rest self.old };
}

#[derive(Drop)]
pub struct RowMemory<R> {
    pub(crate) row: R,
}

impl<R: WordRow> RowMemory<R> {
    // Refused where there is no word `i`.
    fn check(&self, i: usize) -> Result<(), Refusal>
        ensures { result ≡ cond (nat_lt i (length (R.words self.now.row))) (Ok tt) (Err Refusal.NoSuchWord) }
    {
        if i < self.row.count() {
            Ok(())
        } else {
            Err(Refusal::NoSuchWord)
        }
    }
}

impl<R: WordRow> KeptMemory for RowMemory<R> {
    ghost words = { λ s. R.WordRow.words s.row };

    ghost Rest = { R.WordRow.Rest };

    ghost rest = { λ s. R.WordRow.rest s.row };

    fn count(&self) -> usize {
        self.row.count()
    }

    fn load(&self, i: usize) -> Result<u64, Refusal> {
        self.check(i)?;
        Ok(self.row.get(i))
    }

    fn store(&mut self, i: usize, w: u64) -> Result<(), Refusal> {
        self.check(i)?;
        self.row.put(i, w);
        Ok(())
    }

    fn swap(&mut self, i: usize, expected: u64, new: u64) -> Result<bool, Refusal> {
        self.check(i)?;
        if self.row.get(i) != expected {
            return Ok(false);
        }
        self.row.put(i, new);
        Ok(true)
    }
}
