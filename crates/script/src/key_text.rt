// How a kind shows its keys.
use keys::kind::KeyKind;
use keys::place::{Place, PlaceParts};
use keys::plate::{Plate, PlateText};
use keys::refusal::Refusal;
use std::fmt;

pub(crate) trait KeyText: KeyKind {
    // What a key of the kind stands for, which prints as a script writes it.
    type Parts: fmt::Display + Drop;

    fn parts(word: u64) -> Result<Self::Parts, Refusal>;
}

impl KeyText for Place {
    type Parts = PlaceParts;

    fn parts(word: u64) -> Result<PlaceParts, Refusal> {
        Place::parts(word)
    }
}

impl KeyText for Plate {
    type Parts = PlateText;

    fn parts(word: u64) -> Result<PlateText, Refusal> {
        Plate::parts(word)
    }
}

// A word as a script writes it under a kind: a key by its parts, any other word as `@WORD`.
#[derive(Drop)]
pub(crate) struct KeyWord<P>(Result<P, u64>);

pub(crate) fn key_word<K: KeyText>(word: u64) -> KeyWord<K::Parts> {
    KeyWord(K::parts(word).map_err(|_| word))
}

impl<P: fmt::Display> fmt::Display for KeyWord<P> {
    fn fmt<W: fmt::Write>(&self, f: &mut fmt::Formatter<W>) -> fmt::Result {
        match &self.0 {
            Ok(parts) => write!(f, "{parts}"),
            Err(word) => write!(f, "@{word}"),
        }
    }
}
