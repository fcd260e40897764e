// The next step of a runner: its own stage together with the phase of the split decide.
ghost use Rattle.std.specs.Prelude.{◌≡◌};
ghost use Rattle.protocol.specs.Plan.{helping, commits, planned_at, planned};

use crate::splitting::SplitStep;
use act::{RowTurn, act, compare_swap};
use keys::kind::KeyKind;
use locate::locate;
use memory::kept::KeptMemory;
use protocol::layout::{key_at, value_at};
use protocol::moves::{Access, Move, RunnerNext, TableNext};
use protocol::numbers::Answer;
use protocol::table::{Split, Stage, Standing, Turn};
use search::View;

// One split step; with no split underway, a locating step.
fn help<M: KeptMemory, K: KeyKind>(view: &View<M, K>, turn: Turn, split: Option<Split>) -> Move
    ensures { result ≡ helping K.before (M.words view.now.memory.now) view.now.table.now turn.index turn.runner split }
{
    match split {
        Some(split) => {
            let runner = turn.index;
            SplitStep {
                view,
                runner,
                split,
            }
            .plan()
        }
        None => locate(view, turn),
    }
}

// The slot is committed and the enter is done.
fn commit(index: usize, page: u8, slot: u8) -> Move
    ensures { result ≡ commits index page slot }
{
    Move {
        runner: index,
        access: Access::Nothing,
        own: RunnerNext::Go(Stage::Answered {
            answer: Answer::Done,
            value: 0,
        }),
        rest: TableNext::Commit { page, slot },
    }
}

// A match on stage and standing is this project's form for a step, as is that on the progress for a split's.
fn plan_at<M: KeptMemory, K: KeyKind>(
    view: &View<M, K>,
    turn: Turn,
    stage: Stage,
    standing: Standing,
) -> Move
    ensures { result ≡ planned_at K.before (M.words view.now.memory.now) view.now.table.now turn.index turn.runner stage standing }
{
    match (stage, standing) {
        (Stage::Idle | Stage::Answered { .. }, _) => Move::rests(turn.index),
        (Stage::Locating, _) => locate(view, turn),
        (Stage::Helping, _) => help(view, turn, view.table.split),
        (Stage::WritingValue { page, slot }, Standing::Whole) => {
            Move::goes(
                turn.index,
                Access::Store(value_at(page, slot), turn.runner.word),
                Stage::WritingKey { page, slot },
            )
        }
        (Stage::WritingKey { page, slot }, Standing::Whole) => {
            Move::goes(
                turn.index,
                Access::Store(key_at(page, slot), turn.runner.key),
                Stage::Committing { page, slot },
            )
        }
        (Stage::Committing { page, slot }, Standing::Whole) => commit(turn.index, page, slot),
        (Stage::WritingValue { .. } | Stage::WritingKey { .. } | Stage::Committing { .. }, _) =>
            Move::turns(turn.index, Stage::Helping),
        (Stage::Acting { page }, Standing::Whole | Standing::InCopy) => act(
            view.memory,
            view.table,
            turn,
            page,
        ),
        (Stage::Acting { page }, Standing::InSync(split)) => RowTurn::of(
            view, split, turn,
        ).act_in_sync(view.table, page),
        (Stage::Acting { .. }, Standing::InLink(split)) => RowTurn::of(
            view, split, turn,
        ).act_in_link(),
        (
            Stage::PendingNew { .. }
            | Stage::PendingOld { .. }
            | Stage::PendingSwap { .. }
            | Stage::PendingRemove { .. },
            Standing::InSync(split) | Standing::InLink(split),
        ) => RowTurn::of(view, split, turn).pend(),
        (Stage::Comparing { page, old }, Standing::InSync(split)) => RowTurn::of(
            view, split, turn,
        ).compare(page, old),
        (
            Stage::ComparingSwap {
                page,
                new,
                word,
                old,
            },
            Standing::InSync(split),
        ) => compare_swap::<K>(split, turn, page, new, word, old),
        // Two arms: tried as one, by `|` over cases that earlier arms took apart, the proof did not close.
        (Stage::Comparing { .. }, Standing::InLink(split)) => RowTurn::of(view, split, turn).read(),
        (Stage::ComparingSwap { .. }, Standing::InLink(split)) => RowTurn::of(
            view, split, turn,
        ).read(),
        (Stage::Reading { .. }, Standing::InSync(split) | Standing::InLink(split)) => RowTurn::of(
            view, split, turn,
        ).read(),
        _ => locate(view, turn),
    }
}

// The step that a runner makes next.
pub fn plan<M: KeptMemory, K: KeyKind>(view: &View<M, K>, turn: Turn) -> Move
    ensures { result ≡ planned K.before (M.words view.now.memory.now) view.now.table.now turn.index turn.runner }
{
    let stage = turn.runner.stage;
    let standing = stage
        .held()
        .map_or(Standing::Left, |page| view.table.standing(page));
    plan_at(view, turn, stage, standing)
}
