// The answer line as text.
use answers::AnswerLine;
use protocol::numbers::Answer;
use std::fmt;

// The line from a byte on, without the newline at its end.
#[derive(Drop)]
pub(crate) struct AnswerText {
    line: AnswerLine,
    from: usize,
}

impl AnswerText {
    pub(crate) fn of(runner: u32, answer: Answer, value: u32) -> AnswerText {
        let line = AnswerLine {
            runner,
            answer: u32::from(answer.number()),
            value,
        };
        AnswerText { line, from: 0 }
    }

    // The runner has one digit, and a space follows it.
    pub(crate) fn without_runner(self) -> AnswerText {
        AnswerText {
            line: self.line,
            from: 2,
        }
    }
}

impl fmt::Display for AnswerText {
    fn fmt<W: fmt::Write>(&self, f: &mut fmt::Formatter<W>) -> fmt::Result {
        let mut buffer = [0; 32];
        match self.line.write(&mut buffer) {
            Ok(size) => {
                // All its bytes are below 128, so that it is always text.
                let line = str::from_utf8(&buffer[..size]).unwrap_or_default();
                let told = line.get(self.from..).unwrap_or_default();
                write!(f, "{}", told.trim_end())
            }
            Err(refusal) => write!(f, "{refusal}"),
        }
    }
}
