// Why an answer line is not written.
ghost use Rattle.std.specs.Prelude.{◌≡◌, ◌++◌, Some, codes, decimal};
ghost use Rattle.answers.specs.Refusals.{number_of};

use std::error::Error;
use std::fmt;

#[derive(Clone, Copy, PartialEq, Eq, Debug)]
pub enum Refusal {
    // The runner is not 1 to 8.
    NoSuchRunner = 10,
    // The answer is above 3.
    NoSuchAnswer = 40,
    // The buffer has fewer than 32 bytes.
    ShortBuffer = 41,
}

impl Refusal {
    pub fn number(self) -> u8
        ensures { result ≡ number_of self }
    {
        self as u8
    }
}

// Each refusal's enum has its own numbers, and shows itself so: Display is the library's, which allows no impl for all of them at once.
impl fmt::Display for Refusal {
    ghost output = { λ refusal. Some (codes "refused " ++ decimal (number_of refusal)) };

    fn fmt<W: fmt::Write>(&self, f: &mut fmt::Formatter<W>) -> fmt::Result {
        write!(f, "refused {}", self.number())
    }
}

impl Error for Refusal {}
