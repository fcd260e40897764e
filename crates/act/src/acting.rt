// Acting, pending, comparing and reading: what change, remove and look do at the page they hold.
ghost use Rattle.std.specs.Prelude.{◌≡◌};
ghost use Rattle.protocol.specs.Act.{acting_found, acting};

use memory::kept::KeptMemory;
use protocol::layout::{key_at, value_at};
use protocol::moves::{Access, Move, RunnerNext};
use protocol::numbers::{Answer, Operation};
use protocol::table::{Stage, Table, Turn};
use search::Slots;

// An operation that is done, with nothing to tell.
pub(crate) const DONE: Stage = Stage::Answered {
    answer: Answer::Done,
    value: 0,
};

// Not one function with `sync_found`: what each operation goes on to would be three parameters more, and no rule any plainer.
fn act_found(turn: Turn, page: u8, slot: u8, operation: Operation) -> Move
    ensures { result ≡ acting_found turn.index turn.runner page slot operation }
{
    match operation {
        Operation::Enter => Move::rests(turn.index),
        Operation::Change => Move::goes(
            turn.index,
            Access::Store(value_at(page, slot), turn.runner.word),
            DONE,
        ),
        Operation::Remove => Move::goes(turn.index, Access::Store(key_at(page, slot), 0), DONE),
        Operation::Look => Move::moves(
            turn.index,
            Access::Load(value_at(page, slot)),
            RunnerNext::AnswerLoaded,
        ),
    }
}

// With no split of the page, or in its copy phase.
pub fn act<M: KeptMemory>(memory: &M, table: &Table, turn: Turn, page: u8) -> Move
    ensures { result ≡ acting (M.words memory.now) table.now turn.index turn.runner page }
{
    match Slots::committed(memory, table, page).find(turn.runner.key) {
        Some(slot) => act_found(turn, page, slot, turn.runner.operation),
        None => Move::answers(turn.index, Answer::NotThere),
    }
}
