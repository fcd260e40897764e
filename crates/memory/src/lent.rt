// A kept memory that is lent: a `&mut` to a kept memory is one, with the same row.
// So code that takes a memory by value can be handed one that its caller keeps.
// Lend a memory over a slice to generic code in this way: the caller then still knows what its slice holds.
// Where such a memory goes into generic code by value, the caller's proof keeps no more than the slice's length.
ghost use Rattle.std.specs.Prelude.{ℕ};

use crate::kept::{KeptMemory, Refusal};

impl<M: KeptMemory> KeptMemory for &mut M {
    ghost words = { λ s. M.KeptMemory.words s.now };

    // Which memory it is, and what that one leaves.
    ghost Rest = { ℕ × M.KeptMemory.Rest };

    ghost rest = { λ s. (s.ghost_name, M.KeptMemory.rest s.now) };

    fn count(&self) -> usize {
        M::count(&**self)
    }

    fn load(&self, i: usize) -> Result<u64, Refusal> {
        M::load(&**self, i)
    }

    fn store(&mut self, i: usize, w: u64) -> Result<(), Refusal> {
        M::store(&mut **self, i, w)
    }

    fn swap(&mut self, i: usize, expected: u64, new: u64) -> Result<bool, Refusal> {
        M::swap(&mut **self, i, expected, new)
    }
}
