// What a runner does while the page that it holds is splitting: acting, pending, comparing and reading.
ghost use Rattle.std.specs.Prelude.{◌≡◌};
ghost use Rattle.protocol.specs.Act.{syncing_found, acting_in_sync, reading, linking_as, acting_in_link, clearing_new, pending_new, pending_at, pending, comparing, comparing_swap};
ghost use Rattle.std.specs.Prelude.{Some, None};
ghost use Rattle.protocol.specs.Layout.{value_at};
ghost use Rattle.protocol.specs.Moves.{moves, answers};
ghost use Rattle.protocol.specs.declared.moves.Access.TheVariants.{Load};
ghost use Rattle.protocol.specs.declared.moves.RunnerNext.{RunnerNext};
ghost use Rattle.protocol.specs.Search.{new_page, new_slot};

use crate::acting::DONE;
use keys::kind::KeyKind;
use memory::kept::KeptMemory;
use protocol::layout::{key_at, value_at};
use protocol::moves::{Access, Move, RunnerNext};
use protocol::numbers::{Answer, Operation};
use protocol::table::{Split, Stage, Table, Turn};
use search::{Slots, View, new_page, new_slot};
use std::marker::PhantomData;
use values::value_word::cleared;

// A turn of a runner whose page is splitting, over the row alone. All but an acting one is planned without the table.
#[derive(Drop)]
pub struct RowTurn<'a, M, K> {
    memory: &'a M,
    split: Split,
    turn: Turn,
    kind: PhantomData<K>,
}

impl<'a, M: KeptMemory, K: KeyKind> RowTurn<'a, M, K> {
    pub fn new(memory: &'a M, split: Split, turn: Turn) -> RowTurn<'a, M, K>
        ensures { (result.memory.now ≡ memory.now) × (result.split ≡ split) × (result.turn ≡ turn) }
    {
        RowTurn {
            memory,
            split,
            turn,
            kind: PhantomData,
        }
    }

    // The same, from what the step sees.
    pub fn of(view: &View<'a, M, K>, split: Split, turn: Turn) -> RowTurn<'a, M, K>
        ensures { (result.memory.now ≡ view.now.memory.now) × (result.split ≡ split) × (result.turn ≡ turn) }
    {
        RowTurn::new(view.memory, split, turn)
    }

    fn sync_found(&self, page: u8, slot: u8, operation: Operation) -> Move
        ensures { result ≡ syncing_found self.now.turn.index self.now.turn.runner page slot operation }
    {
        let index = self.turn.index;
        match operation {
            Operation::Enter => Move::rests(index),
            Operation::Change => Move::goes(
                index,
                Access::Store(value_at(page, slot), self.turn.runner.word),
                Stage::PendingNew { page, slot },
            ),
            Operation::Remove => Move::goes(
                index,
                Access::Store(key_at(page, slot), 0),
                Stage::PendingRemove { page },
            ),
            Operation::Look => Move::moves(
                index,
                Access::Load(value_at(page, slot)),
                RunnerNext::CompareLoaded { page },
            ),
        }
    }

    // The page that the key goes to.
    fn new_page(&self) -> u8
        ensures { result ≡ new_page K.before self.now.split self.now.turn.runner.key }
    {
        new_page::<K>(self.split, self.turn.runner.key)
    }

    // The slot in which the key stands there, if it does.
    fn new_slot(&self) -> Option<u8>
        ensures { result ≡ new_slot K.before (M.words self.now.memory.now) self.now.split self.now.turn.runner.key }
    {
        new_slot::<M, K>(self.memory, self.split, self.turn.runner.key)
    }

    // Stores 0 over the new key unless it is gone, and is answered.
    fn clear_new(&self, answer: Answer) -> Move
        ensures { result ≡ clearing_new K.before (M.words self.now.memory.now) self.now.split self.now.turn.index self.now.turn.runner.key answer }
    {
        match self.new_slot() {
            Some(new) => Move::goes(
                self.turn.index,
                Access::Store(key_at(self.new_page(), new), 0),
                Stage::Answered { answer, value: 0 },
            ),
            None => Move::answers(self.turn.index, answer),
        }
    }

    // In the sync phase of the page.
    pub fn act_in_sync(&self, table: &Table, page: u8) -> Move
        ensures { result ≡ acting_in_sync K.before (M.words self.now.memory.now) table.now self.now.split self.now.turn.index self.now.turn.runner page }
    {
        match Slots::committed(self.memory, table, page).find(self.turn.runner.key) {
            Some(slot) => self.sync_found(page, slot, self.turn.runner.operation),
            None => self.clear_new(Answer::NotThere),
        }
    }

    // Loads the new word of the key, and goes on by what `next` makes of its slot; answered at once if the key is gone.
    fn load_new<F: FnOnce(u8) -> RunnerNext>(&self, gone: Answer, next: F) -> Move
        requires { F.IsAlwaysCallable next }
        ensures { elim (new_slot K.before (M.words self.now.memory.now) self.now.split self.now.turn.runner.key) [ Some n ↦ (own : RunnerNext) × F.post next n own × (result ≡ moves self.now.turn.index (Load (value_at (new_page K.before self.now.split self.now.turn.runner.key) n)) own) | None ↦ result ≡ answers self.now.turn.index gone ] }
    {
        match self.new_slot() {
            Some(new) => {
                let at = value_at(self.new_page(), new);
                Move::moves(self.turn.index, Access::Load(at), next(new))
            }
            None => Move::answers(self.turn.index, gone),
        }
    }

    // Loads the new word to answer its value; not there if the key is gone.
    pub fn read(&self) -> Move
        ensures { result ≡ reading K.before (M.words self.now.memory.now) self.now.split self.now.turn.index self.now.turn.runner }
    {
        self.load_new(Answer::NotThere, |_new| RunnerNext::AnswerLoaded)
    }

    fn link_as(&self, operation: Operation) -> Move
        ensures { result ≡ linking_as K.before (M.words self.now.memory.now) self.now.split self.now.turn.index self.now.turn.runner operation }
    {
        match operation {
            Operation::Enter => Move::rests(self.turn.index),
            Operation::Change | Operation::Remove => Move::turns(self.turn.index, Stage::Helping),
            Operation::Look => self.read(),
        }
    }

    // In the link phase of the page.
    pub fn act_in_link(&self) -> Move
        ensures { result ≡ acting_in_link K.before (M.words self.now.memory.now) self.now.split self.now.turn.index self.now.turn.runner }
    {
        self.link_as(self.turn.runner.operation)
    }

    fn pend_new(&self, page: u8, slot: u8) -> Move
        ensures { result ≡ pending_new self.now.turn.index (new_page K.before self.now.split self.now.turn.runner.key) page slot (new_slot K.before (M.words self.now.memory.now) self.now.split self.now.turn.runner.key) }
    {
        self.load_new(
            Answer::Done,
            |new| RunnerNext::PendLoaded { page, slot, new },
        )
    }

    fn pend_at(&self, stage: Stage) -> Move
        ensures { result ≡ pending_at K.before (M.words self.now.memory.now) self.now.split self.now.turn.index self.now.turn.runner stage }
    {
        match stage {
            Stage::PendingNew { page, slot } => self.pend_new(page, slot),
            Stage::PendingOld {
                page,
                slot,
                new,
                word,
            } => Move::moves(
                self.turn.index,
                Access::Load(value_at(page, slot)),
                RunnerNext::WeighLoaded {
                    page,
                    slot,
                    new,
                    word,
                },
            ),
            Stage::PendingSwap {
                page,
                slot,
                new,
                word,
                old,
            } => Move::moves(
                self.turn.index,
                Access::Swap(value_at(self.new_page(), new), word, cleared(old)),
                RunnerNext::BySwap {
                    written: DONE,
                    missed: Stage::PendingNew { page, slot },
                },
            ),
            Stage::PendingRemove { .. } => self.clear_new(Answer::Done),
            _ => Move::rests(self.turn.index),
        }
    }

    // The next step of a pending change or remove.
    pub fn pend(&self) -> Move
        ensures { result ≡ pending K.before (M.words self.now.memory.now) self.now.split self.now.turn.index self.now.turn.runner }
    {
        self.pend_at(self.turn.runner.stage)
    }

    // The first step of a comparing look.
    pub fn compare(&self, page: u8, old: u64) -> Move
        ensures { result ≡ comparing K.before (M.words self.now.memory.now) self.now.split self.now.turn.index self.now.turn.runner page old }
    {
        self.load_new(
            Answer::NotThere,
            |new| RunnerNext::JudgeLoaded { page, new, old },
        )
    }
}

// The second step of a comparing look, which reads nothing of the row.
pub fn compare_swap<K: KeyKind>(
    split: Split,
    turn: Turn,
    page: u8,
    new: u8,
    word: u64,
    old: u64,
) -> Move
    ensures { result ≡ comparing_swap K.before split turn.index turn.runner page new «word» old }
{
    let at = value_at(new_page::<K>(split, turn.runner.key), new);
    Move::goes(
        turn.index,
        Access::Swap(at, word, cleared(old)),
        Stage::Reading { page },
    )
}

// The same turn with all that the step sees: one who is handed it needs no table beside it. Planning goes by `RowTurn`.
#[derive(Drop)]
pub struct SplitTurn<'v, 'a, M, K> {
    view: &'v View<'a, M, K>,
    split: Split,
    turn: Turn,
}

impl<'v, 'a, M: KeptMemory, K: KeyKind> SplitTurn<'v, 'a, M, K> {
    pub fn of(view: &'v View<'a, M, K>, split: Split, turn: Turn) -> SplitTurn<'v, 'a, M, K>
        ensures { (result.view.now ≡ view.now) × (result.split ≡ split) × (result.turn ≡ turn) }
    {
        SplitTurn { view, split, turn }
    }

    // The turn over the row alone, which answers for this one.
    fn row(&self) -> RowTurn<'a, M, K>
        ensures { (result.memory.now ≡ self.now.view.now.memory.now) × (result.split ≡ self.now.split) × (result.turn ≡ self.now.turn) }
    {
        RowTurn::of(self.view, self.split, self.turn)
    }

    // In the sync phase of the page.
    pub fn act_in_sync(&self, page: u8) -> Move
        ensures { result ≡ acting_in_sync K.before (M.words self.now.view.now.memory.now) self.now.view.now.table.now self.now.split self.now.turn.index self.now.turn.runner page }
    {
        self.row().act_in_sync(self.view.table, page)
    }

    // Loads the new word to answer its value; not there if the key is gone.
    pub fn read(&self) -> Move
        ensures { result ≡ reading K.before (M.words self.now.view.now.memory.now) self.now.split self.now.turn.index self.now.turn.runner }
    {
        self.row().read()
    }

    // In the link phase of the page.
    pub fn act_in_link(&self) -> Move
        ensures { result ≡ acting_in_link K.before (M.words self.now.view.now.memory.now) self.now.split self.now.turn.index self.now.turn.runner }
    {
        self.row().act_in_link()
    }

    // The next step of a pending change or remove.
    pub fn pend(&self) -> Move
        ensures { result ≡ pending K.before (M.words self.now.view.now.memory.now) self.now.split self.now.turn.index self.now.turn.runner }
    {
        self.row().pend()
    }

    // The first step of a comparing look.
    pub fn compare(&self, page: u8, old: u64) -> Move
        ensures { result ≡ comparing K.before (M.words self.now.view.now.memory.now) self.now.split self.now.turn.index self.now.turn.runner page old }
    {
        self.row().compare(page, old)
    }

    // Its second step.
    pub fn compare_swap(&self, page: u8, new: u8, word: u64, old: u64) -> Move
        ensures { result ≡ comparing_swap K.before self.now.split self.now.turn.index self.now.turn.runner page new «word» old }
    {
        compare_swap::<K>(self.split, self.turn, page, new, word, old)
    }
}
