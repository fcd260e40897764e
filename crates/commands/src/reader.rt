// The commands of a script, line by line.
ghost use Rattle.std.specs.Prelude.{◌≡◌, length};

use crate::command::Command;
use crate::parse::parse;
use crate::text::cut_at;

// What is left of a script, and the number of the line read last.
#[derive(Drop)]
pub struct Reader<'a> {
    rest: &'a [u8],
    line: u64,
}

impl<'a> Reader<'a> {
    pub fn new(script: &'a [u8]) -> Reader<'a>
        ensures { (result.rest.now ≡ script.now) × (result.line ≡ 0) }
    {
        Reader {
            rest: script,
            line: 0,
        }
    }

    // The number of the line read last.
    pub fn line(&self) -> u64
        ensures { result ≡ self.now.line }
    {
        self.line
    }
}

impl<'a> Iterator for Reader<'a> {
    ghost use Rattle.std.specs.Iterator.{at_most};
    ghost use Rattle.commands.specs.Reading.{ReadsLine};

    type Item = Command;

    // Not as clauses on `next`: tried, and a loop over the lines then got no proof.
    ghost next_gives = { λ s r t. ReadsLine s.rest.now s.line r t.rest.now t.line };

    // Each line takes a byte at least.
    ghost remaining = { λ s. at_most (length s.rest.now) };

    // The command of the next line, if there is one. A line that cannot be read is told by its number.
    fn next(&mut self) -> Option<Command> {
        if self.rest.is_empty() {
            return None;
        }
        let (line, rest) = cut_at(self.rest, b'\n');
        self.rest = rest;
        self.line = self.line.saturating_add(1);
        Some(parse(line).unwrap_or(Command::Unreadable(self.line)))
    }
}
