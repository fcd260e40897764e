// The line that tells one answer: runner, words of the answer, value.
ghost use Rattle.std.specs.Prelude.{◌≡◌, ◌≤◌, ◌↔◌, ◌++◌, length, drop, IsSome, IfSome, OnOk};
ghost use Rattle.answers.specs.Line.{words, line, refused, answered, written, ReadsBack};

use crate::put::put;
use crate::refusal::Refusal;
use itoa::Buffer;

// The bytes that a line is given. The longest has 27: the words take up to 13 and the value up to 10.
const ROOM: usize = 32;

// What a line tells. The answer goes by its number: 0 done, 1 already there, 2 not there, 3 no room. A number and no enum, since others are refused here.
#[derive(Clone, Copy)]
pub struct AnswerLine {
    pub runner: u32,
    pub answer: u32,
    pub value: u32,
}

// The words of an answer, or None where no answer goes by that number.
fn words(answer: u32) -> Option<&'static str>
    ensures known { IsSome result ↔ (answer ≤ 3) }
    ensures value { IfSome result (λ text. text.now ≡ words answer) }
    ensures short { IfSome result (λ text. length text.now ≤ 13) }
{
    match answer {
        0 => Some("done"),
        1 => Some("already there"),
        2 => Some("not there"),
        3 => Some("no room"),
        _ => None,
    }
}

impl AnswerLine {
    // Writes the line at the beginning of the buffer and gives its length. Later bytes stay, and a refusal leaves them all.
    pub fn write(self, buffer: &mut [u8]) -> Result<usize, Refusal>
        ensures answer { result ≡ answered (refused self (length buffer.old)) self }
        ensures after { buffer.new ≡ written (refused self (length buffer.old)) self buffer.old }
        ensures same { OnOk result (ReadsBack self.value) }
    {
        if !(1..=8).contains(&self.runner) {
            return Err(Refusal::NoSuchRunner);
        }
        let answer_words = words(self.answer).ok_or(Refusal::NoSuchAnswer)?;
        if buffer.len() < ROOM {
            return Err(Refusal::ShortBuffer);
        }
        Ok(self.put_line(answer_words, buffer))
    }

    // The line of an answer that is not refused, piece by piece into the buffer. Not by way of an `ArrayString`: tried, and the second copy took twice as long.
    #[tactic(auto, using(std::proofs::lemmas::Fmt::decimal_is_IsNumeral))]
    fn put_line(self, answer_words: &str, buffer: &mut [u8]) -> usize
        requires runner { self.runner ≤ 8 }
        requires words { answer_words.now ≡ words self.answer }
        requires short { length answer_words.now ≤ 13 }
        requires room { 32 ≤ length buffer.old }
        ensures value { result ≡ length (line self) }
        ensures after { buffer.new ≡ line self ++ drop (length (line self)) buffer.old }
        ensures same { ReadsBack self.value }
    {
        let mut numeral = Buffer::new();
        let digits = numeral.format(self.value).as_bytes();
        let mut at = put(buffer, 0, &[b'0' + self.runner as u8, b' ']);
        at = put(buffer, at, answer_words.as_bytes());
        at = put(buffer, at, b" ");
        at = put(buffer, at, digits);
        put(buffer, at, b"\n")
    }
}

#[cfg(test)]
mod tests {
    use super::*;

    #[test]
    fn not_there(rt: HostRuntime) {
        let mut buffer = [7; 32];
        let told = AnswerLine {
            runner: 3,
            answer: 2,
            value: 0,
        };
        assert_eq!(rt; told.write(&mut buffer), Ok(14));
        assert!(rt; &buffer[..15] == b"3 not there 0\n\x07".as_slice());
    }

    #[test]
    fn longest_line(rt: HostRuntime) {
        let mut buffer = [7; 32];
        let told = AnswerLine {
            runner: 8,
            answer: 1,
            value: 4294967295,
        };
        assert_eq!(rt; told.write(&mut buffer), Ok(27));
        assert!(rt; &buffer[..28] == b"8 already there 4294967295\n\x07".as_slice());
    }

    #[test]
    fn refused_in_order(rt: HostRuntime) {
        let mut buffer = [7; 31];
        let nobody = AnswerLine {
            runner: 9,
            answer: 4,
            value: 5,
        };
        let nothing = AnswerLine {
            runner: 1,
            answer: 4,
            value: 5,
        };
        let done = AnswerLine {
            runner: 1,
            answer: 0,
            value: 5,
        };
        assert_eq!(rt; nobody.write(&mut buffer), Err(Refusal::NoSuchRunner));
        assert_eq!(rt; nothing.write(&mut buffer), Err(Refusal::NoSuchAnswer));
        assert_eq!(rt; done.write(&mut buffer), Err(Refusal::ShortBuffer));
        assert!(rt; buffer == [7; 31]);
    }
}
