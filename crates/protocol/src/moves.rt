// What one step does: at most one access to the row, then one change of the table.
ghost use Rattle.std.specs.Prelude.{◌≡◌};
ghost use Rattle.protocol.specs.Moves.{moves, goes, turns, answers, splits, rests};

use crate::numbers::Answer;
use crate::table::{Split, Stage};

// The one access of a step, by word number.
#[derive(Clone, Copy, PartialEq, Eq, Debug)]
pub enum Access {
    Nothing,
    Load(usize),
    Store(usize, u64),
    Swap(usize, u64, u64),
}

// What the access gave.
#[derive(Clone, Copy, PartialEq, Eq, Debug)]
pub enum Outcome {
    Nothing,
    Loaded(u64),
    Swapped(bool),
}

// What becomes of the runner. An enum and no closure, here and below: a move is a value, of which the definitions and the laws speak.
#[derive(Clone, Copy, PartialEq, Eq, Debug)]
pub enum RunnerNext {
    Stay,
    Go(Stage),
    // a look is done with the loaded word's value
    AnswerLoaded,
    // a look remembers the old word and goes to comparing
    CompareLoaded {
        page: u8,
    },
    // a comparing look judges the new word by the old one
    JudgeLoaded {
        page: u8,
        new: u8,
        old: u64,
    },
    // a pending change remembers the new word
    PendLoaded {
        page: u8,
        slot: u8,
        new: u8,
    },
    // a pending change weighs the old word against the new one
    WeighLoaded {
        page: u8,
        slot: u8,
        new: u8,
        word: u64,
    },
    BySwap {
        written: Stage,
        missed: Stage,
    },
}

// What becomes of the rest of the table.
#[derive(Clone, Copy, PartialEq, Eq, Debug)]
pub enum TableNext {
    Stay,
    // the next slot of the page is taken
    Take { page: u8 },
    // the slot of the page is committed
    Commit { page: u8, slot: u8 },
    // a split starts; the round goes on from `round`
    Start { split: Split, round: u8 },
    // the split goes on as given
    Go(Split),
    // the split copies the loaded word
    CopyLoaded { split: Split, slot: u8, key: u64 },
    // the split remembers the loaded old word
    SyncLoaded { split: Split, slot: u8 },
    // the split judges the loaded new word by the old one
    LevelLoaded { split: Split, slot: u8, old: u64 },
    // the new pages take the old page's place in the list
    Finish(Split),
}

// A step: `runner` (from 0) is the runner whose record changes.
#[derive(Clone, Copy, PartialEq, Eq, Debug)]
pub struct Move {
    pub runner: usize,
    pub access: Access,
    pub own: RunnerNext,
    pub rest: TableNext,
}

impl Move {
    // The runner makes an access and goes on by it; the rest of the table stays.
    pub fn moves(runner: usize, access: Access, own: RunnerNext) -> Move
        ensures { result ≡ moves runner access own }
    {
        Move {
            runner,
            access,
            own,
            rest: TableNext::Stay,
        }
    }

    // The runner makes an access and goes to a stage.
    pub fn goes(runner: usize, access: Access, stage: Stage) -> Move
        ensures { result ≡ goes runner access stage }
    {
        Move::moves(runner, access, RunnerNext::Go(stage))
    }

    // The runner goes to a stage and makes no access.
    pub fn turns(runner: usize, stage: Stage) -> Move
        ensures { result ≡ turns runner stage }
    {
        Move::goes(runner, Access::Nothing, stage)
    }

    // The runner is answered, with value 0, and makes no access.
    pub fn answers(runner: usize, answer: Answer) -> Move
        ensures { result ≡ answers runner answer }
    {
        Move::turns(runner, Stage::Answered { answer, value: 0 })
    }

    // The runner makes a split's access, and the split goes on by it; the runner stays as it is.
    pub fn splits(runner: usize, access: Access, rest: TableNext) -> Move
        ensures { result ≡ splits runner access rest }
    {
        Move {
            runner,
            access,
            own: RunnerNext::Stay,
            rest,
        }
    }

    // Nothing happens.
    pub fn rests(runner: usize) -> Move
        ensures { result ≡ rests runner }
    {
        Move::moves(runner, Access::Nothing, RunnerNext::Stay)
    }
}
