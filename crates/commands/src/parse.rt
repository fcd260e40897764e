// From the text of a line to its command.
ghost use Rattle.std.specs.Prelude.{◌≡◌};
ghost use Rattle.commands.specs.Lines.{half_read, backing_read, kind_read, operation_read, memory_line, kind_line, runner_line, begin_line, step_line, collect_line, cut_line, set_line, word_line, bare_line, line_of, line_read};

use crate::command::{Backing, Command, Kind};
use crate::key::key;
use crate::number::number;
use crate::text::Words;

// How large a memory may be, in words or bytes.
const MOST_SIZE: u64 = 1_000_000;

// A number of 32 bits.
fn half(text: &[u8]) -> Option<u32>
    ensures { result ≡ half_read text.now }
{
    Some(number(text, u64::from(u32::MAX))? as u32)
}

// An Option, here and in `kind_of`: a `TryFrom` would need an error, and there is nothing to tell.
fn backing(text: &[u8]) -> Option<Backing>
    ensures { result ≡ backing_read text.now }
{
    match text {
        b"words" => Some(Backing::Words),
        b"bytes" => Some(Backing::Bytes),
        _ => None,
    }
}

fn memory(mut words: Words) -> Option<Command>
    ensures { result ≡ memory_line words.entry.rest.now }
{
    let backing = backing(words.next()?)?;
    let size = number(words.next()?, MOST_SIZE)?;
    words.end()?;
    Some(Command::Memory(backing, size as usize))
}

// The number on a line that has no other word.
fn runner(mut words: Words) -> Option<u32>
    ensures { result ≡ runner_line words.entry.rest.now }
{
    let runner = half(words.next()?)?;
    words.end()?;
    Some(runner)
}

fn kind(mut words: Words) -> Option<Command>
    ensures { result ≡ kind_line words.entry.rest.now }
{
    let kind = kind_of(words.next()?)?;
    words.end()?;
    Some(Command::Kind(kind))
}

fn kind_of(text: &[u8]) -> Option<Kind>
    ensures { result ≡ kind_read text.now }
{
    match text {
        b"place" => Some(Kind::Place),
        b"plate" => Some(Kind::Plate),
        _ => None,
    }
}

// An operation goes by its name or its number. A number and no enum: a script may ask for one that is none.
fn operation(text: &[u8]) -> Option<u32>
    ensures { result ≡ operation_read text.now }
{
    match text {
        b"enter" => Some(1),
        b"change" => Some(2),
        b"remove" => Some(3),
        b"look" => Some(4),
        _ => half(text),
    }
}

fn begin(mut words: Words) -> Option<Command>
    ensures { result ≡ begin_line words.entry.rest.now }
{
    let runner = half(words.next()?)?;
    let operation = operation(words.next()?)?;
    let key = key(words.next()?)?;
    let value = words.next().map_or(Some(0), half)?;
    words.end()?;
    Some(Command::Begin {
        runner,
        operation,
        key,
        value,
    })
}

fn step(mut words: Words) -> Option<Command>
    ensures { result ≡ step_line words.entry.rest.now }
{
    let runner = half(words.next()?)?;
    let times = words.next().map_or(Some(1), half)?;
    words.end()?;
    Some(Command::Step { runner, times })
}

// A runner that can be collected has one digit: what stands before it are zeros.
fn collect(mut words: Words) -> Option<Command>
    ensures { result ≡ collect_line words.entry.rest.now }
{
    let word = words.next()?;
    words.end()?;
    Some(Command::Collect {
        runner: half(word)?,
        zeros: word.len() - 1,
    })
}

fn cut(mut words: Words) -> Option<Command>
    ensures { result ≡ cut_line words.entry.rest.now }
{
    let Some(when) = words.next() else {
        return Some(Command::Cut);
    };
    let runner = half(words.next()?)?;
    words.end()?;
    match when {
        b"before" => Some(Command::Cut),
        b"after" => Some(Command::CutAfter(runner)),
        _ => None,
    }
}

fn set(mut words: Words) -> Option<Command>
    ensures { result ≡ set_line words.entry.rest.now }
{
    let at = number(words.next()?, u64::MAX)? as usize;
    let word = number(words.next()?, u64::MAX)?;
    words.end()?;
    Some(Command::Set { at, word })
}

fn word(mut words: Words) -> Option<Command>
    ensures { result ≡ word_line words.entry.rest.now }
{
    let at = number(words.next()?, u64::MAX)? as usize;
    words.end()?;
    Some(Command::Word(at))
}

// Lines of one word.
fn bare(name: &[u8], words: Words) -> Option<Command>
    ensures { result ≡ bare_line name.now words.entry.rest.now }
{
    words.end()?;
    match name {
        b"pairs" => Some(Command::Pairs),
        b"show" => Some(Command::Show),
        _ => None,
    }
}

// What a line asks for, by its first word. Tried as a `match`: its proof did not close, since the last arm is reached in fifty ways.
fn command_of(name: &[u8], words: Words) -> Option<Command>
    ensures { result ≡ line_of name.now words.entry.rest.now }
{
    if name == b"memory".as_slice() {
        memory(words)
    } else if name == b"kind".as_slice() {
        kind(words)
    } else if name == b"make".as_slice() {
        runner(words).map(Command::Make)
    } else if name == b"rebuild".as_slice() {
        runner(words).map(Command::Rebuild)
    } else if name == b"begin".as_slice() {
        begin(words)
    } else if name == b"step".as_slice() {
        step(words)
    } else if name == b"finish".as_slice() {
        runner(words).map(Command::Finish)
    } else if name == b"collect".as_slice() {
        collect(words)
    } else if name == b"cut".as_slice() {
        cut(words)
    } else if name == b"set".as_slice() {
        set(words)
    } else if name == b"word".as_slice() {
        word(words)
    } else {
        bare(name, words)
    }
}

// The command of a line, if it can be read.
#[tactic(auto, unfolding(crate::specs::Lines::line_read))]
pub(crate) fn parse(line: &[u8]) -> Option<Command>
    ensures { result ≡ line_read line.now }
{
    if line.starts_with(b"#") {
        return Some(Command::Nothing);
    }
    let mut words = Words::of(line);
    match words.next() {
        Some(name) => command_of(name, words),
        None => Some(Command::Nothing),
    }
}
