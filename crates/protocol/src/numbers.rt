// What a runner is asked to do, what it is answered, and why a call is sent back: each with its number.
ghost use Rattle.std.specs.Prelude.{◌≡◌, ◌++◌, Some, codes, decimal};
ghost use Rattle.std.specs.Option.{ok_or};
ghost use Rattle.protocol.specs.Calls.{draws};
ghost use Rattle.protocol.specs.Numbers.{operation_number, operation_of, operation_name, answer_number, refusal_number};
ghost use Rattle.protocol.specs.declared.numbers.Refusal.TheVariants.{NoSuchOperation};

use std::error::Error;
use std::fmt;

#[derive(Clone, Copy, PartialEq, Eq, Debug)]
pub enum Operation {
    Enter = 1,
    Change = 2,
    Remove = 3,
    Look = 4,
}

impl Operation {
    pub fn number(self) -> u8
        ensures { result ≡ operation_number self }
    {
        self as u8
    }

    // Enter and change carry a value, and draw a change number.
    pub fn draws(self) -> bool
        ensures { result ≡ draws self }
    {
        matches!(self, Operation::Enter | Operation::Change)
    }
}

// The operation of a number, if it has one.
impl TryFrom<u32> for Operation {
    type Error = Refusal;

    ghost try_from_gives = { λ n r. r ≡ ok_or (operation_of n) NoSuchOperation };

    fn try_from(number: u32) -> Result<Operation, Refusal> {
        match number {
            1 => Ok(Operation::Enter),
            2 => Ok(Operation::Change),
            3 => Ok(Operation::Remove),
            4 => Ok(Operation::Look),
            _ => Err(Refusal::NoSuchOperation),
        }
    }
}

// As a script writes it.
impl fmt::Display for Operation {
    ghost output = { λ o. Some (operation_name o) };

    fn fmt<W: fmt::Write>(&self, f: &mut fmt::Formatter<W>) -> fmt::Result {
        f.write_str(match self {
            Operation::Enter => "enter",
            Operation::Change => "change",
            Operation::Remove => "remove",
            Operation::Look => "look",
        })
    }
}

#[derive(Clone, Copy, PartialEq, Eq, Debug)]
pub enum Answer {
    Done = 0,
    AlreadyThere = 1,
    NotThere = 2,
    NoRoom = 3,
}

impl Answer {
    pub fn number(self) -> u8
        ensures { result ≡ answer_number self }
    {
        self as u8
    }
}

#[derive(Clone, Copy, PartialEq, Eq, Debug)]
pub enum Refusal {
    // the row has not 1 + 18 N words, N from 2 to 64
    WrongLength = 1,
    // the count of runners is not 1 to 8
    WrongCount = 2,
    NoHead = 3,
    BrokenChain = 4,
    WrongLow = 5,
    MisplacedKey = 6,
    NoChangeNumber = 7,
    // no book is open
    Closed = 9,
    NoSuchRunner = 10,
    // the runner is open, or its answer is not collected
    Busy = 11,
    NoSuchOperation = 12,
    NotAKey = 13,
    // another open enter has this key
    BeingEntered = 14,
    // the last change number was drawn
    NumbersSpent = 15,
    IdleRunner = 16,
    AlreadyAnswered = 17,
    StillOpen = 18,
}

impl Refusal {
    pub fn number(self) -> u8
        ensures { result ≡ refusal_number self }
    {
        self as u8
    }
}

// Each refusal's enum shows itself so. One impl for all is not allowed: Display is the library's.
impl fmt::Display for Refusal {
    ghost output = { λ r. Some (codes "refused " ++ decimal (refusal_number r)) };

    fn fmt<W: fmt::Write>(&self, f: &mut fmt::Formatter<W>) -> fmt::Result {
        write!(f, "refused {}", self.number())
    }
}

impl Error for Refusal {}
