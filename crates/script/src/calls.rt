// What the lines of a script do to a book while it lives.
use crate::answer::AnswerText;
use crate::key_text::KeyText;
use crate::pairs::PairsText;
use crate::show::TableText;
use book::book::Book;
use commands::command::Command;
use keys::kind::KeyKind;
use memory::kept::KeptMemory;
use protocol::numbers::Refusal;
use std::alloc::AllocError;
use std::fmt;

// Steps of a runner, up to the first refusal.
fn step<M: KeptMemory, K: KeyKind>(
    book: &mut Book<M, K>,
    runner: u32,
    times: u32,
) -> Result<(), Refusal> {
    (0..times).try_for_each(|_| book.step(runner))
}

// Steps of a runner until it is answered, at least one; gives how many.
fn finish<M: KeptMemory, K: KeyKind>(book: &mut Book<M, K>, runner: u32) -> Result<u32, Refusal> {
    for count in 0..u32::MAX {
        match book.step(runner) {
            Ok(()) => {}
            Err(Refusal::AlreadyAnswered) if count > 0 => return Ok(count),
            Err(refusal) => return Err(refusal),
        }
    }
    Ok(u32::MAX)
}

// Zeros are written by the block: one by one, by `write!` or `write_char`, a long row of them takes twice as long as to push them.
const ZEROS: &str = "00000000000000000000000000000000";

const BLOCK: usize = 32;

// The answer line, after the zeros that the script wrote before the runner's number.
#[derive(Drop)]
struct Collected {
    zeros: usize,
    line: AnswerText,
}

impl fmt::Display for Collected {
    fn fmt<W: fmt::Write>(&self, f: &mut fmt::Formatter<W>) -> fmt::Result {
        for _ in 0..self.zeros / BLOCK {
            f.write_str(ZEROS)?;
        }
        f.write_str(ZEROS.get(..self.zeros % BLOCK).unwrap_or_default())?;
        write!(f, "{}", self.line)
    }
}

fn collect<M: KeptMemory, K: KeyKind>(
    book: &mut Book<M, K>,
    runner: u32,
    zeros: usize,
) -> Result<Collected, Refusal> {
    let (answer, value) = book.collect(runner)?;
    let line = AnswerText::of(runner, answer, value);
    Ok(Collected { zeros, line })
}

// How many steps a runner took until it was answered.
#[derive(Drop)]
struct Steps(u32);

impl fmt::Display for Steps {
    fn fmt<W: fmt::Write>(&self, f: &mut fmt::Formatter<W>) -> fmt::Result {
        write!(f, "{} steps", self.0)
    }
}

// Prints what a line came to: what it gives, or why it is refused.
fn tell<T: fmt::Display + Drop, E: fmt::Display + Drop>(
    outcome: Result<T, E>,
    out: &mut String,
) -> Result<(), AllocError> {
    match outcome {
        Ok(told) => writeln!(out, "{told}"),
        Err(refusal) => writeln!(out, "{refusal}"),
    }
}

// The same, of what gives nothing but that it was done; not through `tell`, whose `{told}` takes longer than the text itself.
pub(crate) fn tell_done<E: fmt::Display + Drop>(
    outcome: Result<(), E>,
    out: &mut String,
) -> Result<(), AllocError> {
    match outcome {
        Ok(()) => writeln!(out, "ok"),
        Err(refusal) => writeln!(out, "{refusal}"),
    }
}

// Prints what a rebuild would find. The table is lent to what prints it, and this and the next are not inlined: each place for a table in `perform` is cleared
// for every line of a script.
#[inline(never)]
fn tell_pairs<M: KeptMemory, K: KeyText>(
    book: &Book<M, K>,
    out: &mut String,
) -> Result<(), AllocError> {
    match book.survey(1) {
        Ok(table) => writeln!(out, "{}", PairsText::<M, K>::of(book.memory(), &table)),
        Err(refusal) => writeln!(out, "{refusal}"),
    }
}

// Prints the state of the book.
#[inline(never)]
fn show<M: KeptMemory, K: KeyText>(book: &Book<M, K>, out: &mut String) -> Result<(), AllocError> {
    write!(out, "{}", TableText::<K>::of(book.table()))
}

// Does what a line asks for, and prints what comes of it. Lines that end a book's life do nothing here.
pub(crate) fn perform<M: KeptMemory, K: KeyText>(
    book: &mut Book<M, K>,
    command: Command,
    out: &mut String,
) -> Result<(), AllocError> {
    match command {
        Command::Make(runners) => tell_done(book.make(runners), out),
        Command::Rebuild(runners) => tell_done(book.rebuild(runners), out),
        Command::Begin {
            runner,
            operation,
            key: Ok(key),
            value,
        } => tell_done(book.begin(runner, operation, key, value), out),
        Command::Begin {
            key: Err(refusal),
            ..
        } => writeln!(out, "{refusal}"),
        Command::Step { runner, times } => tell_done(step(book, runner, times), out),
        Command::Finish(runner) => tell(finish(book, runner).map(Steps), out),
        Command::Collect { runner, zeros } => tell(collect(book, runner, zeros), out),
        Command::Word(at) => tell(book.memory().load(at), out),
        Command::Pairs => tell_pairs(book, out),
        Command::Show => show(book, out),
        Command::Unreadable(line) => writeln!(out, "unreadable {line}"),
        Command::Nothing
        | Command::Memory(..)
        | Command::Kind(_)
        | Command::Cut
        | Command::CutAfter(_)
        | Command::Set { .. } => Ok(()),
    }
}
