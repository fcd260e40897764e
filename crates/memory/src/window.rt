// A window: the `size` words from word `base` on of another kept memory, as a kept memory of its own, numbered from 0.
// No call through a window touches a word outside it. A window that does not fit has no words.
// On store and swap the clause `around` gives the whole row of the memory below.
#![tactic(auto, using(crate::proofs::Seen::words_seen))]

ghost use Rattle.std.specs.Prelude.{◌≡◌, ℕ, ◌+◌, ◌^◌, ◌<◌, true, cond, nat_lt, List, Ok, Err, IfOk};
ghost use Rattle.memory.specs.Row.{stored, swapped, row_stored, row_swapped};
ghost use Rattle.memory.specs.Seen.{fits_in, fitting, size_seen, SameWord, shown, beside_shown, below_stored, below_swapped, CutThroughWindow};

use crate::kept::{KeptMemory, Refusal};

#[derive(Drop)]
pub struct Window<M> {
    memory: M,
    base: usize,
    size: usize,
}

impl<M: KeptMemory> Window<M> {
    // A window over `memory`, whether it fits or not.
    pub fn new(memory: M, base: usize, size: usize) -> Window<M>
        ensures { (result.memory ≡ memory) × (result.base ≡ base) × (result.size ≡ size) }
    {
        Window { memory, base, size }
    }

    // The memory again.
    pub fn into_inner(self) -> M
        ensures { result ≡ self.memory }
    {
        let Window { memory, .. } = self;
        memory
    }

    // Refused where the window does not fit.
    pub fn fits(&self) -> Result<(), Refusal>
        ensures { result ≡ fitting (M.words self.now.memory) self.now.base self.now.size }
    {
        if self.is_within() {
            Ok(())
        } else {
            Err(Refusal::NoSuchWindow)
        }
    }

    // Whether the window fits; its end is then a number that does not wrap.
    fn is_within(&self) -> bool
        ensures value { result ≡ fits_in (M.words self.now.memory) self.now.base self.now.size }
        ensures room { result ≡ true → self.now.base + self.now.size < 2 ^ 64 }
    {
        let count = self.memory.count();
        self.size <= count && self.base <= count - self.size
    }

    // How many words are seen: all of the window's, or none where it does not fit.
    fn len(&self) -> usize
        ensures value { result ≡ size_seen (M.words self.now.memory) self.now.base self.now.size }
        ensures room { 0 < result → self.now.base + result < 2 ^ 64 }
    {
        if self.is_within() { self.size } else { 0 }
    }

    // The number that the window's word `i` has in the memory below; refused where the window shows no such word.
    fn place(&self, i: usize) -> Result<usize, Refusal>
        ensures value { result ≡ cond (nat_lt i (size_seen (M.words self.now.memory) self.now.base self.now.size)) (Ok (self.now.base + i)) (Err Refusal.NoSuchWord) }
        ensures same { IfOk result (SameWord (M.words self.now.memory) self.now.base self.now.size i) }
    {
        if i < self.len() {
            Ok(self.base + i)
        } else {
            Err(Refusal::NoSuchWord)
        }
    }
}

impl<M: KeptMemory> KeptMemory for Window<M> {
    // The words of the memory below that the window shows.
    ghost words = { shown M.KeptMemory.words };

    // Where the window lies, the words before and after it, and what the memory below leaves.
    ghost Rest = { ℕ × ℕ × (List ℕ × List ℕ) × M.KeptMemory.Rest };

    ghost rest = { beside_shown M.KeptMemory.words M.KeptMemory.rest };

    fn count(&self) -> usize {
        self.len()
    }

    fn load(&self, i: usize) -> Result<u64, Refusal> {
        let place = self.place(i)?;
        self.memory.load(place)
    }

    fn store(&mut self, i: usize, w: u64) -> Result<(), Refusal>
        ensures answer { result ≡ stored (shown M.words self.old) i }
        ensures row { shown M.words self.new ≡ row_stored (shown M.words self.old) i w }
        ensures beside { beside_shown M.words M.rest self.new ≡ beside_shown M.words M.rest self.old }
        ensures around { M.words self.new.memory ≡ below_stored (M.words self.old.memory) self.old.base self.old.size i w }
    {
        let place = self.place(i)?;
        self.memory.store(place, w)
    }

    fn swap(&mut self, i: usize, expected: u64, new: u64) -> Result<bool, Refusal>
        ensures answer { result ≡ swapped (shown M.words self.old) i expected }
        ensures row { shown M.words self.new ≡ row_swapped (shown M.words self.old) i expected new }
        ensures beside { beside_shown M.words M.rest self.new ≡ beside_shown M.words M.rest self.old }
        ensures around { M.words self.new.memory ≡ below_swapped (M.words self.old.memory) self.old.base self.old.size i expected new }
    {
        let place = self.place(i)?;
        self.memory.swap(place, expected, new)
    }
}

// Does nothing: its contract is the law that a window keeps the promise on cuts where the memory below does.
pub fn cut_through_window()
    ensures { CutThroughWindow }
{}
