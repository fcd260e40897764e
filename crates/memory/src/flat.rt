// A kept memory in the caller's slice of words: word `i` is element `i`.
ghost use Rattle.std.specs.Prelude.{◌≡◌, ℕ};

use crate::row::{RowMemory, WordRow};

pub type FlatMemory<'a> = RowMemory<&'a mut [u64]>;

impl<'a> FlatMemory<'a> {
    // The memory is over this very slice (`same`), as it stands (`holds`). A `new` for each row, since the promise is about the caller's slice, which a row in general has not.
    pub fn new(row: &'a mut [u64]) -> FlatMemory<'a>
        ensures holds { result.row.now ≡ row.old }
        ensures same { result.row.ghost_name ≡ row.entry.ghost_name }
    {
        RowMemory { row }
    }
}

impl<'a> WordRow for &'a mut [u64] {
    ghost words = { λ s. s.now };

    // Which slice it is.
    ghost Rest = { ℕ };

    ghost rest = { λ s. s.ghost_name };

    fn count(&self) -> usize {
        (**self).len()
    }

    fn get(&self, i: usize) -> u64 {
        self[i]
    }

    fn put(&mut self, i: usize, w: u64) {
        self[i] = w;
    }
}
