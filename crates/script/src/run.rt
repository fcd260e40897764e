// Running a script: one memory after another, on each one book after another.
//
// A book lives until its table is lost: at a cut, where a word is written by hand, or where the kind changes. The kind stays until a line changes it, the
// memory until there is a new one. Each part ends with the line that it cannot deal with, and hands that on.
ghost use Rattle.std.specs.Prelude.{IfOk};
ghost use Rattle.commands.specs.Reading.{ReadOn};

use crate::calls::{perform, tell_done};
use crate::key_text::KeyText;
use book::book::Book;
use commands::command::{Backing, Command, Kind};
use commands::reader::Reader;
use keys::place::Place;
use keys::plate::Plate;
use memory::bytes::ByteMemory;
use memory::flat::FlatMemory;
use memory::kept::KeptMemory;
use std::alloc::{AllocError, Global};

// What is left of the script, what it has printed so far, and the kind that it is at.
#[derive(Drop)]
pub(crate) struct Run<'a> {
    heap: Global,
    reader: Reader<'a>,
    kind: Kind,
    out: String,
}

impl<'a> Run<'a> {
    pub(crate) fn new(heap: Global, script: &'a [u8]) -> Run<'a> {
        Run {
            heap,
            reader: Reader::new(script),
            kind: Kind::Place,
            out: String::new(heap),
        }
    }

    // One book, closed at first.
    fn run_book<M: KeptMemory, K: KeyText>(
        &mut self,
        memory: &mut M,
    ) -> Result<Option<Command>, AllocError>
        ensures { IfOk result (ReadOn self.old.reader.rest.now self.new.reader.rest.now) }
    {
        let mut book: Book<&mut M, K> = Book::closed(memory);
        // Not a `for` over `by_ref`: tried, and the proof of what is promised did not close.
        while let Some(command) = self.reader.next() {
            match command {
                Command::Memory(..) | Command::Kind(_) | Command::Cut | Command::Set { .. } =>
                    return Ok(Some(command)),
                Command::CutAfter(runner) => {
                    let _ = book.step(runner);
                    return Ok(Some(Command::Cut));
                }
                _ => perform(&mut book, command, &mut self.out)?,
            }
        }
        Ok(None)
    }

    // One book after another, on one memory.
    fn run_memory<M: KeptMemory>(&mut self, memory: &mut M) -> Result<Option<Command>, AllocError>
        ensures { IfOk result (ReadOn self.old.reader.rest.now self.new.reader.rest.now) }
    {
        loop {
            let ending = match self.kind {
                Kind::Place => self.run_book::<M, Place>(memory)?,
                Kind::Plate => self.run_book::<M, Plate>(memory)?,
            };
            match ending {
                Some(Command::Cut) => {}
                Some(Command::Set { at, word }) => tell_done(
                    memory.store(at, word),
                    &mut self.out,
                )?,
                Some(Command::Kind(next)) => self.kind = next,
                _ => return Ok(ending),
            }
        }
    }

    // One memory after another. What is asked for before the first one is unreadable.
    pub(crate) fn printed(mut self) -> Result<String, AllocError> {
        let mut next = self.reader.next();
        while let Some(command) = next {
            next = match command {
                Command::Memory(Backing::Words, size) => {
                    let mut words = vec![in self.heap; 0u64; size]?;
                    self.run_memory(&mut FlatMemory::new(words.as_mut_slice()))?
                }
                Command::Memory(Backing::Bytes, size) => {
                    let mut bytes = vec![in self.heap; 0u8; size]?;
                    self.run_memory(&mut ByteMemory::new(bytes.as_mut_slice()))?
                }
                Command::Nothing => self.reader.next(),
                _ => {
                    let line = self.reader.line();
                    writeln!(self.out, "unreadable {line}")?;
                    self.reader.next()
                }
            };
        }
        Ok(self.out)
    }
}
