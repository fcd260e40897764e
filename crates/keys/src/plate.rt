// Plate keys: a permit plate of 1 to 7 bytes from A to Z and 0 to 9.
ghost use Rattle.std.specs.Prelude.{◌≡◌, ◌^◌, ◌<◌, ◌≤◌, ◌==◌, length, IfOk, Ok, Some};
ghost use Rattle.std.specs.List.{flat_map, suffix_len};
ghost use Rattle.std.specs.Char.{encode_utf8};
ghost use Rattle.keys.specs.PlateWord.{length_good, byte_good, bytes_good, plate_text, plate_key, plate_before, plate_made, plate_parts, held, shown, Shows};
ghost use Rattle.keys.specs.PlateOrder.{plates_lawful};

use crate::kind::KeyKind;
use crate::refusal::Refusal;
use std::fmt;

// The first word that has more than the seven bytes of a plate.
const END: u64 = 0x100_0000_0000_0000;

// The kind of plate keys.
#[derive(Clone, Copy)]
pub struct Plate;

// The text of a plate: its bytes followed by zeros, since no byte of a plate is 0.
#[derive(Clone, Copy, PartialEq, Eq, Debug)]
pub struct PlateText {
    bytes: [u8; 7],
}

// One function a rule, as for places.
fn is_length(n: usize) -> bool
    ensures { result ≡ length_good n }
{
    (1..=7).contains(&n)
}

fn is_byte(b: u8) -> bool
    ensures { result ≡ byte_good b }
{
    b.is_ascii_uppercase() || b.is_ascii_digit()
}

// Whether every byte may stand in a plate.
fn are_bytes(text: &[u8]) -> bool
    ensures { result ≡ bytes_good text.now }
{
    text.iter().all(|b| is_byte(*b))
}

// The text that stands in a word, good or not.
#[tactic(auto, using(crate::proofs::PlateBytes::padded_text))]
fn text_of(w: u64) -> PlateText
    requires { w < 2 ^ 56 }
    ensures { result ≡ held (plate_text w) }
{
    // `[_, bytes @ ..]` gets no proof: it moves an array out of an array.
    let [_, a, b, c, d, e, f, g] = w.to_be_bytes();
    PlateText {
        bytes: [a, b, c, d, e, f, g],
    }
}

// How many zeros stand at the end.
fn zeros_at_end(bytes: &[u8]) -> usize
    ensures value { result ≡ suffix_len (λ b. b == 0) bytes.now }
    ensures within { result ≤ length bytes.now }
{
    bytes.iter().rev().take_while(|b| **b == 0).count()
}

impl PlateText {
    // The text without the zeros.
    pub fn bytes(&self) -> &[u8]
        ensures { result.now ≡ shown self.now }
    {
        let zeros = zeros_at_end(&self.bytes);
        &self.bytes[..self.bytes.len() - zeros]
    }
}

// Each byte as the character that it stands for.
impl fmt::Display for PlateText {
    ghost output = { λ t. Some (flat_map encode_utf8 (shown t)) };

    fn fmt<W: fmt::Write>(&self, f: &mut fmt::Formatter<W>) -> fmt::Result {
        // Not `write_char`, which looks at the four bytes of each character again.
        let mut buffer = [0; 4];
        for b in self.bytes() {
            f.write_str(char::from(*b).encode_utf8(&mut buffer))?;
        }
        Ok(())
    }
}

impl KeyKind for Plate {
    ghost key = { plate_key };

    ghost before = { plate_before };

    ghost lawful = { plates_lawful };

    #[tactic(auto, using(crate::proofs::PlateTrips::shown_held))]
    fn is_key(w: u64) -> bool {
        if END <= w {
            return false;
        }
        let text = text_of(w);
        let bytes = text.bytes();
        is_length(bytes.len()) && are_bytes(bytes)
    }

    // Bytes stand highest first, so texts come in the order of their words.
    #[tactic(auto, using(crate::specs::PlateOrder::by_number))]
    fn comes_before(a: u64, b: u64) -> bool {
        a < b
    }
}

impl Plate {
    // The key of a plate, which comes apart into its bytes again.
    // Not `TryFrom`, as for places.
    #[tactic(auto, using(crate::proofs::PlateBytes::written_eight, crate::proofs::PlateTrips::made_of_good, crate::proofs::PlateTrips::made_and_parted))]
    pub fn make(text: &[u8]) -> Result<u64, Refusal>
        ensures value { result ≡ plate_made text.now }
        ensures same { IfOk result (λ w. Shows text.now (plate_parts w)) }
    {
        if !is_length(text.len()) {
            return Err(Refusal::NoSuchLength);
        }
        if !are_bytes(text) {
            return Err(Refusal::NoSuchByte);
        }
        let mut bytes = [0; 8];
        bytes[1..1 + text.len()].copy_from_slice(text);
        Ok(u64::from_be_bytes(bytes))
    }

    // The plate of a key, which makes that key again.
    #[tactic(auto, using(crate::proofs::PlateTrips::parted_and_made))]
    pub fn parts(w: u64) -> Result<PlateText, Refusal>
        ensures value { result ≡ plate_parts w }
        ensures same { IfOk result (λ t. plate_made (shown t) ≡ Ok w) }
    {
        if !Plate::is_key(w) {
            return Err(Refusal::NotAKey);
        }
        Ok(text_of(w))
    }
}
