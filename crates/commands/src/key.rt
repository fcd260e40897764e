// Keys as a script writes them: `@WORD`, a place `L/Z/P`, or else a plate.
ghost use Rattle.std.specs.Prelude.{◌≡◌};
ghost use Rattle.commands.specs.Keys.{level_read, place_read, key_read};

use crate::number::number;
use crate::text::{cut_at, holds};
use keys::place::{Place, PlaceParts};
use keys::plate::Plate;
use keys::refusal::Refusal;

const MOST_PART: u64 = i32::MAX as u64;

// A level, with or without a minus.
fn level(text: &[u8]) -> Option<i32>
    ensures { result ≡ level_read text.now }
{
    match text.strip_prefix(b"-") {
        Some(below) => Some(-(number(below, MOST_PART)? as i32)),
        None => Some(number(text, MOST_PART)? as i32),
    }
}

// The key of a place.
fn place(text: &[u8]) -> Option<Result<u64, Refusal>>
    ensures { result ≡ place_read text.now }
{
    let (first, rest) = cut_at(text, b'/');
    let (second, third) = cut_at(rest, b'/');
    let level = level(first)?;
    let zone = number(second, MOST_PART)? as u32;
    let place = number(third, MOST_PART)? as u32;
    Some(Place::make(PlaceParts { level, zone, place }))
}

// The key, or why it cannot be made; nothing if the text cannot be read.
pub(crate) fn key(text: &[u8]) -> Option<Result<u64, Refusal>>
    ensures { result ≡ key_read text.now }
{
    if let Some(word) = text.strip_prefix(b"@") {
        return number(word, u64::MAX).map(Ok);
    }
    if text.is_empty() {
        None
    } else if holds(text, b'/') {
        place(text)
    } else {
        Some(Plate::make(text))
    }
}
