// Step: a runner's next small step.
ghost use Rattle.std.specs.Prelude.{◌≡◌, ◌-◌, Ok, Err, Some, None};
ghost use Rattle.protocol.specs.Rebuild.{checked};
ghost use Rattle.protocol.specs.Calls.{runner_refusal, stepped};

use crate::book::Book;
use keys::kind::KeyKind;
use memory::kept::KeptMemory;
use plan::plan;
use protocol::numbers::Refusal;
use protocol::table::{Activity, Table, Turn};
use search::View;
use settle::{perform, settle};

// Begin, step and collect want an open book, then a runner from 1 to the count given. The runner's number from 0.
pub(crate) fn runner_index(table: &Table, runner: u32) -> Result<usize, Refusal>
    ensures value { result ≡ checked (runner - 1) (runner_refusal table.now runner) }
    ensures cases { elim result [ Ok i ↦ (i ≡ runner - 1) × (runner_refusal table.now runner ≡ None) | Err e ↦ runner_refusal table.now runner ≡ Some e ] }
{
    if !table.opened {
        return Err(Refusal::Closed);
    }
    if !(1..=u32::from(table.count)).contains(&runner) {
        return Err(Refusal::NoSuchRunner);
    }
    Ok(runner as usize - 1)
}

impl<M: KeptMemory, K: KeyKind> Book<M, K> {
    // One step of an open runner, counted from 1.
    pub fn step(&mut self, runner: u32) -> Result<(), Refusal>
        ensures after { (M.words self.new.memory, self.new.table, result) ≡ stepped K.before (M.words self.old.memory) self.old.table runner }
        ensures beside { M.rest self.new.memory ≡ M.rest self.old.memory }
    {
        let index = runner_index(&self.table, runner)?;
        let runner = self.table.runner_at(index);
        match runner.stage.activity() {
            Activity::Resting => Err(Refusal::IdleRunner),
            Activity::Waiting { .. } => Err(Refusal::AlreadyAnswered),
            Activity::Open => {
                let view: View<M, K> = View::new(&self.memory, &self.table);
                let step = plan(&view, Turn { index, runner });
                let outcome = perform(&mut self.memory, step.access);
                settle(&mut self.table, step, outcome);
                Ok(())
            }
        }
    }
}
