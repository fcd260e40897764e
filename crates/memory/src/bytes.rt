// A kept memory in the caller's slice of bytes: word `i` is the bytes 8i to 8i + 7, most significant first.
// Bytes past the last whole word are in no word, and are never touched.
#![tactic(auto, using(crate::proofs::Octets::words_in_bytes))]

ghost use Rattle.std.specs.Prelude.{◌≡◌, ℕ, List};
ghost use Rattle.memory.specs.Octets.{words_of, leftover};

use crate::row::{RowMemory, WordRow};

pub type ByteMemory<'a> = RowMemory<&'a mut [u8]>;

impl<'a> ByteMemory<'a> {
    // The memory is over this very slice (`same`), as it stands (`holds`). A `new` of its own, as for words.
    pub fn new(bytes: &'a mut [u8]) -> ByteMemory<'a>
        ensures holds { result.row.now ≡ bytes.old }
        ensures same { result.row.ghost_name ≡ bytes.entry.ghost_name }
    {
        RowMemory { row: bytes }
    }
}

impl<'a> WordRow for &'a mut [u8] {
    ghost words = { λ s. words_of s.now };

    // Which slice it is, and its leftover bytes.
    ghost Rest = { ℕ × List ℕ };

    ghost rest = { λ s. (s.ghost_name, leftover s.now) };

    fn count(&self) -> usize {
        self.as_chunks::<8>().0.len()
    }

    fn get(&self, i: usize) -> u64 {
        u64::from_be_bytes(self.as_chunks::<8>().0[i])
    }

    // Not by `as_chunks_mut`, tried: no clause of it says what the slice ends as, so the proof did not close.
    fn put(&mut self, i: usize, w: u64) {
        self[8 * i..8 * i + 8].copy_from_slice(&w.to_be_bytes());
    }
}
