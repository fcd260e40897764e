// Value words: the copy mark in bit 63, the change number in bits 62 to 32, the value in bits 31 to 0.
ghost use Rattle.std.specs.Prelude.{◌≡◌, ◌+◌, ◌*◌, ◌%◌, ◌^◌, ◌<◌};
ghost use Rattle.values.specs.ValueWord.{mark_of, number_of, value_of, fresh_word, marked, cleared, same, packed, unpacked};

const MARK_BIT: u32 = 63;

const NUMBER_BITS: u32 = 31;

const VALUE_BITS: u32 = 32;

// The parts of a value word.
#[derive(Clone, Copy, PartialEq, Eq, Debug)]
pub struct ValueWord {
    pub mark: bool,
    pub number: u32,
    pub value: u32,
}

// The lowest bits of a word.
fn lowest(w: u64, bits: u32) -> u64
    requires { bits < 64 }
    ensures { result ≡ w % 2 ^ bits }
{
    w & ((1 << bits) - 1)
}

// One word set above the lowest bits of another.
fn above(high: u64, bits: u32, low: u64) -> u64
    requires width { bits < 64 }
    requires room { high * 2 ^ bits < 2 ^ 64 }
    requires under { low < 2 ^ bits }
    ensures { result ≡ high * 2 ^ bits + low }
{
    high << bits | low
}

// A number of 32 bits loses its highest, so that it never reads as a mark.
impl From<ValueWord> for u64 {
    ghost from_gives = { λ parts w. w ≡ packed parts };

    fn from(parts: ValueWord) -> u64 {
        above(
            u64::from(parts.mark),
            MARK_BIT,
            fresh(parts.number, parts.value),
        )
    }
}

impl From<u64> for ValueWord {
    ghost from_gives = { λ w parts. parts ≡ unpacked w };

    fn from(w: u64) -> ValueWord {
        ValueWord {
            mark: is_marked(w),
            number: number_of(w),
            value: value_of(w),
        }
    }
}

pub fn is_marked(w: u64) -> bool
    ensures { result ≡ mark_of w }
{
    w >> MARK_BIT == 1
}

pub fn number_of(w: u64) -> u32
    ensures { result ≡ number_of w }
{
    lowest(w >> VALUE_BITS, NUMBER_BITS) as u32
}

pub fn value_of(w: u64) -> u32
    ensures { result ≡ value_of w }
{
    lowest(w, VALUE_BITS) as u32
}

// A word with its mark clear.
pub fn fresh(number: u32, value: u32) -> u64
    ensures { result ≡ fresh_word number value }
{
    above(
        lowest(u64::from(number), NUMBER_BITS),
        VALUE_BITS,
        u64::from(value),
    )
}

pub fn marked(w: u64) -> u64
    ensures { result ≡ marked w }
{
    above(1, MARK_BIT, cleared(w))
}

pub fn cleared(w: u64) -> u64
    ensures { result ≡ cleared w }
{
    lowest(w, MARK_BIT)
}

// Whether two words are equal but for their marks.
pub fn is_same(a: u64, b: u64) -> bool
    ensures { result ≡ same a b }
{
    cleared(a) == cleared(b)
}

// Every word comes back from its parts.
pub fn repacked(w: u64) -> u64
    ensures { result ≡ w }
{
    u64::from(ValueWord::from(w))
}

// Parts come back from their word if their number has 31 bits.
pub fn reparted(parts: ValueWord) -> ValueWord
    ensures value { result ≡ unpacked (packed parts) }
    ensures same { parts.number < 2147483648 → result ≡ parts }
{
    ValueWord::from(u64::from(parts))
}

#[cfg(test)]
mod tests {
    use super::*;

    #[test]
    fn first_change_of_five(rt: HostRuntime) {
        let w = fresh(1, 5);
        assert_eq!(rt; w, 4294967301);
        assert_eq!(rt; marked(w), 9223372041149743109);
        assert_eq!(rt; cleared(marked(w)), w);
        assert!(rt; is_same(w, marked(w)));
    }

    #[test]
    fn parts_of_the_highest_word(rt: HostRuntime) {
        let parts = ValueWord::from(0xffff_ffff_ffff_ffff);
        assert!(rt; parts.mark);
        assert_eq!(rt; parts.number, 2147483647);
        assert_eq!(rt; parts.value, 4294967295);
    }
}
