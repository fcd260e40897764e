// Why a key cannot be made, or taken apart.
ghost use Rattle.std.specs.Prelude.{◌≡◌, ◌++◌, codes, Some};
ghost use Rattle.std.specs.Fmt.{decimal};
ghost use Rattle.keys.specs.Refusals.{refusal_number};

use std::error::Error;
use std::fmt;

#[derive(Clone, Copy, PartialEq, Eq, Debug)]
pub enum Refusal {
    // The word to be taken apart is no key.
    NotAKey = 13,
    // The level is not -20 to 50.
    NoSuchLevel = 30,
    // The zone is not 1 to 26.
    NoSuchZone = 31,
    // The place is not 1 to 9999.
    NoSuchPlace = 32,
    // The plate has no byte, or more than seven.
    NoSuchLength = 33,
    // The plate has a byte that is not A to Z or 0 to 9.
    NoSuchByte = 34,
}

impl Refusal {
    pub fn number(self) -> u8
        ensures { result ≡ refusal_number self }
    {
        self as u8
    }
}

// Each refusal's enum has its own numbers, and shows itself so: Display is the library's, which allows no impl for all of them at once.
impl fmt::Display for Refusal {
    ghost output = { λ e. Some (codes "refused " ++ decimal (refusal_number e)) };

    fn fmt<W: fmt::Write>(&self, f: &mut fmt::Formatter<W>) -> fmt::Result {
        write!(f, "refused {}", self.number())
    }
}

impl Error for Refusal {}
