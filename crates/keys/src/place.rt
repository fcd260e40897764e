// Place keys: a bay by its level, zone and place.
ghost use Rattle.std.specs.Prelude.{◌≡◌, ◌++◌, true, codes, IfOk, Ok, Some};
ghost use Rattle.std.specs.Fmt.{decimal, signed_decimal};
ghost use Rattle.keys.specs.PlaceWord.{level_good, zone_good, place_good, place_word, place_key, place_before, place_made, place_parts, parts_of};
ghost use Rattle.keys.specs.PlaceWords.{places_lawful};

use crate::kind::KeyKind;
use crate::refusal::Refusal;
use std::fmt;

// The kind of place keys.
#[derive(Clone, Copy)]
pub struct Place;

// What a place key is made of. The types are wide, so that whatever numbers a caller has read can be asked for, and refused.
// Places come by level, then by zone, then by place, as the fields stand.
#[derive(Clone, Copy, PartialEq, Eq, PartialOrd, Ord, Hash, Debug)]
pub struct PlaceParts {
    pub level: i32,
    pub zone: u32,
    pub place: u32,
}

// As LEVEL/ZONE/PLACE.
impl fmt::Display for PlaceParts {
    ghost output = { λ p. Some (signed_decimal p.level ++ codes "/" ++ decimal p.zone ++ codes "/" ++ decimal p.place) };

    fn fmt<W: fmt::Write>(&self, f: &mut fmt::Formatter<W>) -> fmt::Result {
        write!(f, "{}/{}/{}", self.level, self.zone, self.place)
    }
}

// One function a rule, here and below: each has its own range.
fn is_level(level: i32) -> bool
    ensures { result ≡ level_good level }
{
    (-20..=50).contains(&level)
}

fn is_zone(zone: u32) -> bool
    ensures { result ≡ zone_good zone }
{
    (1..=26).contains(&zone)
}

fn is_place(place: u32) -> bool
    ensures { result ≡ place_good place }
{
    (1..=9999).contains(&place)
}

// The parts that stand in a word, good or not.
fn parts_of(w: u64) -> PlaceParts
    ensures { result ≡ parts_of w }
{
    PlaceParts {
        level: i32::from(((w >> 24 & 0xff) as u8).cast_signed()),
        zone: (w >> 16 & 0xff) as u32,
        place: (w & 0xffff) as u32,
    }
}

// The word that good parts make.
#[tactic(auto, using(crate::specs::PlaceWords::joined_bits))]
fn word_of(parts: PlaceParts) -> u64
    requires level { level_good parts.level ≡ true }
    requires zone { zone_good parts.zone ≡ true }
    requires place { place_good parts.place ≡ true }
    ensures { result ≡ place_word parts }
{
    let level = (parts.level as i8).cast_unsigned();
    u64::from(level) << 24 | u64::from(parts.zone) << 16 | u64::from(parts.place)
}

impl KeyKind for Place {
    ghost key = { place_key };

    ghost before = { place_before };

    ghost lawful = { places_lawful };

    fn is_key(w: u64) -> bool {
        let parts = parts_of(w);
        w < 0x1_0000_0000 && is_level(parts.level) && is_zone(parts.zone) && is_place(parts.place)
    }

    fn comes_before(a: u64, b: u64) -> bool {
        parts_of(a) < parts_of(b)
    }
}

impl Place {
    // The key of a place, which comes apart into its parts again.
    // Not `TryFrom`, here and below: a key is a plain word, and `u64::try_from` would not say of which kind.
    #[tactic(auto, using(crate::specs::PlaceWords::made_of_good, crate::specs::PlaceWords::made_and_parted))]
    pub fn make(parts: PlaceParts) -> Result<u64, Refusal>
        ensures value { result ≡ place_made parts }
        ensures same { IfOk result (λ w. place_parts w ≡ Ok parts) }
    {
        if !is_level(parts.level) {
            return Err(Refusal::NoSuchLevel);
        }
        if !is_zone(parts.zone) {
            return Err(Refusal::NoSuchZone);
        }
        if !is_place(parts.place) {
            return Err(Refusal::NoSuchPlace);
        }
        Ok(word_of(parts))
    }

    // The place of a key, which makes that key again.
    pub fn parts(w: u64) -> Result<PlaceParts, Refusal>
        ensures value { result ≡ place_parts w }
        ensures same { IfOk result (λ p. place_made p ≡ Ok w) }
    {
        if !Place::is_key(w) {
            return Err(Refusal::NotAKey);
        }
        Ok(parts_of(w))
    }
}
