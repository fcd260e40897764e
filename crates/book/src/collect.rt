// Collect: a runner's answer, with its value.
ghost use Rattle.std.specs.Prelude.{◌≡◌};
ghost use Rattle.protocol.specs.Calls.{collected};

use crate::book::Book;
use crate::step::runner_index;
use keys::kind::KeyKind;
use memory::kept::KeptMemory;
use protocol::numbers::{Answer, Refusal};
use protocol::table::{Activity, Runner};

impl<M: KeptMemory, K: KeyKind> Book<M, K> {
    // The answer of a runner, counted from 1, and its value; the runner is then idle.
    pub fn collect(&mut self, runner: u32) -> Result<(Answer, u32), Refusal>
        ensures after { (self.new.table, result) ≡ collected self.old.table runner }
        ensures same { self.new.memory ≡ self.old.memory }
    {
        let i = runner_index(&self.table, runner)?;
        match self.table.runner_at(i).stage.activity() {
            Activity::Resting => Err(Refusal::IdleRunner),
            Activity::Open => Err(Refusal::StillOpen),
            Activity::Waiting { answer, value } => {
                self.table.set_runner(i, Runner::idle());
                Ok((answer, value))
            }
        }
    }
}
