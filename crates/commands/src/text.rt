// How a script is cut into lines, and a line into words.
ghost use Rattle.std.specs.Prelude.{◌≡◌, ◌==◌, ◌≤◌, not, length, Some, position};
ghost use Rattle.commands.specs.Lines.{ending};
ghost use Rattle.commands.specs.Texts.{blank, span, holds_byte, before_byte, after_byte, GivesWord};

fn is_blank(b: u8) -> bool
    ensures { result ≡ blank b }
{
    matches!(b, b' ' | b'\t'..=b'\r')
}

// How many blanks stand at the front. Each count and each search has a function of its own: tried inside the callers, their proofs did not close.
fn blanks(text: &[u8]) -> usize
    ensures value { result ≡ span (λ b. not (blank b)) text.now }
    ensures bound { result ≤ length text.now }
{
    text.iter().take_while(|b| is_blank(**b)).count()
}

// How many other bytes stand at the front.
fn letters(text: &[u8]) -> usize
    ensures value { result ≡ span blank text.now }
    ensures bound { result ≤ length text.now }
{
    text.iter().take_while(|b| !is_blank(**b)).count()
}

// The words of what is left of a line.
#[derive(Drop)]
pub(crate) struct Words<'a> {
    rest: &'a [u8],
}

impl<'a> Words<'a> {
    pub(crate) fn of(line: &'a [u8]) -> Words<'a>
        ensures { result.rest.now ≡ line.now }
    {
        Words { rest: line }
    }

    // Nothing may follow the last word.
    pub(crate) fn end(mut self) -> Option<()>
        ensures { result ≡ ending 0 self.entry.rest.now (Some tt) }
    {
        match self.next() {
            Some(_) => None,
            None => Some(()),
        }
    }
}

impl<'a> Iterator for Words<'a> {
    ghost use Rattle.std.specs.Iterator.{at_most};

    type Item = &'a [u8];

    ghost next_gives = { λ s r t. GivesWord s.rest.now r t.rest.now };

    ghost remaining = { λ s. at_most (length s.rest.now) };

    #[tactic(auto, unfolding(crate::specs::Texts::first_word, crate::specs::Texts::after_word))]
    fn next(&mut self) -> Option<&'a [u8]> {
        let (_, trimmed) = self.rest.split_at(blanks(self.rest));
        let (word, rest) = trimmed.split_at(letters(trimmed));
        self.rest = rest;
        if word.is_empty() { None } else { Some(word) }
    }
}

// Where the first such byte stands.
fn find(text: &[u8], byte: u8) -> Option<usize>
    ensures { result ≡ position (λ b. b == byte) text.now }
{
    text.iter().position(|b| *b == byte)
}

// What stands before the first such byte, and what after it: all and nothing if there is none.
pub(crate) fn cut_at(text: &[u8], byte: u8) -> (&[u8], &[u8])
    ensures front { result.0.now ≡ before_byte byte text.now }
    ensures back { result.1.now ≡ after_byte byte text.now }
{
    match find(text, byte) {
        Some(n) => (&text[..n], &text[n + 1..]),
        None => (text, &[]),
    }
}

// Whether there is such a byte.
pub(crate) fn holds(text: &[u8], byte: u8) -> bool
    ensures { result ≡ holds_byte byte text.now }
{
    find(text, byte).is_some()
}
