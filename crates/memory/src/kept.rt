// The trait of kept memory, and its refusals.
//
// A kept memory is a row of 64-bit words, numbered from 0. The contracts state, for each call, its answer and the whole row after it;
// specs/Row.antt has these answers and rows. The count never changes, no word changes but the one written, and the one refusal
// is that of a word number not below the count.
//
// The row outlives a power cut. Calls that have ended stand, and what a cut inside a call may leave is defined in specs/Cut.antt.
ghost use Rattle.std.specs.Prelude.{◌≡◌, ◌++◌, ℕ, List, length, codes, decimal, Some};
ghost use Rattle.memory.specs.Refusals.{refusal_number};
ghost use Rattle.memory.specs.Row.{loaded, stored, swapped, row_stored, row_swapped};
ghost use Rattle.memory.specs.Cut.{CutTouchesOneWord};

use std::error::Error;
use std::fmt;

// Why a call is sent back. A call that is sent back changes nothing.
#[derive(Clone, Copy, PartialEq, Eq, Debug)]
pub enum Refusal {
    // The word number is not below the count.
    NoSuchWord = 20,
    // The window reaches past the memory that it is over.
    NoSuchWindow = 21,
}

impl Refusal {
    pub fn number(self) -> u8
        ensures { result ≡ refusal_number self }
    {
        self as u8
    }
}

// Each refusal's enum has its own numbers, and shows itself so: Display is the library's, which allows no impl for all of them at once.
impl fmt::Display for Refusal {
    ghost output = { λ r. Some (codes "refused " ++ decimal (refusal_number r)) };

    fn fmt<W: fmt::Write>(&self, f: &mut fmt::Formatter<W>) -> fmt::Result {
        write!(f, "refused {}", self.number())
    }
}

impl Error for Refusal {}

pub trait KeptMemory {
    // The row.
    ghost words: { Self → List ℕ };

    // What else there is, which no call changes: bytes and words that are not the row's, and where the row lies.
    ghost Rest: { Type 0 };

    ghost rest: { Self → Rest };

    // How many words there are.
    fn count(&self) -> usize
        ensures { result ≡ length (words self.now) };

    // The word `i`.
    fn load(&self, i: usize) -> Result<u64, Refusal>
        ensures { result ≡ loaded (words self.now) i };

    // Writes `w` in word `i`.
    fn store(&mut self, i: usize, w: u64) -> Result<(), Refusal>
        ensures answer { result ≡ stored (words self.old) i }
        ensures row { words self.new ≡ row_stored (words self.old) i w }
        ensures beside { rest self.new ≡ rest self.old };

    // Writes `new` in word `i` exactly when `expected` stands there, and says whether it did.
    fn swap(&mut self, i: usize, expected: u64, new: u64) -> Result<bool, Refusal>
        ensures answer { result ≡ swapped (words self.old) i expected }
        ensures row { words self.new ≡ row_swapped (words self.old) i expected new }
        ensures beside { rest self.new ≡ rest self.old };
}

// Does nothing: its contract is the law that a cut inside a store or a swap touches no word but the call's own.
pub fn cut_touches_one_word()
    ensures { CutTouchesOneWord }
{}
