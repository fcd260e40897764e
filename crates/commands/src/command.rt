// What the lines of a script ask for.
use keys::refusal::Refusal;

// What a memory is made of.
#[derive(Clone, Copy, PartialEq, Eq, Debug)]
pub enum Backing {
    Words,
    Bytes,
}

// The kinds of keys.
#[derive(Clone, Copy, PartialEq, Eq, Debug)]
pub enum Kind {
    Place,
    Plate,
}

#[derive(Clone, Copy, PartialEq, Eq, Debug)]
pub enum Command {
    // a blank line or a comment
    Nothing,
    // a fresh memory of so many words or bytes
    Memory(Backing, usize),
    Kind(Kind),
    Make(u32),
    Rebuild(u32),
    // `key` is the key, or why it cannot be made. `operation` is a number and no enum: a script may ask for any, and the book refuses with 12 what is none
    Begin {
        runner: u32,
        operation: u32,
        key: Result<u64, Refusal>,
        value: u32,
    },
    Step {
        runner: u32,
        times: u32,
    },
    Finish(u32),
    // `zeros` are those that the script writes before the runner's number
    Collect {
        runner: u32,
        zeros: usize,
    },
    // the supply fails between two calls, or inside a step before its write
    Cut,
    // the supply fails inside a step of the runner, after its write
    CutAfter(u32),
    // writes a word by hand
    Set {
        at: usize,
        word: u64,
    },
    Word(usize),
    Pairs,
    Show,
    // a line, by its number, that is none of these
    Unreadable(u64),
}
