// Locating: where a key belongs.
ghost use Rattle.std.specs.Prelude.{◌≡◌};
ghost use Rattle.protocol.specs.Fields.{page_at, standing};
ghost use Rattle.protocol.specs.Search.{found};
ghost use Rattle.protocol.specs.Locate.{takes, crowded, entering_page, entering, locating_page, locating};

use crate::start::start_split;
use keys::kind::KeyKind;
use memory::kept::KeptMemory;
use protocol::moves::{Access, Move, RunnerNext, TableNext};
use protocol::numbers::{Answer, Operation};
use protocol::table::{Split, Stage, Standing, Table, Turn};
use search::View;

// The runner takes the page's next slot and goes to writing.
fn take_slot(table: &Table, index: usize, page: u8) -> Move
    ensures { result ≡ takes table.now index page }
{
    let slot = table.page_at(page).taken;
    Move {
        runner: index,
        access: Access::Nothing,
        own: RunnerNext::Go(Stage::WritingValue { page, slot }),
        rest: TableNext::Take { page },
    }
}

// A full page is split, unless a split elsewhere is to be helped first.
fn enter_full_page<M: KeptMemory, K: KeyKind>(
    view: &View<M, K>,
    index: usize,
    page: u8,
    split: Option<Split>,
) -> Move
    ensures { result ≡ crowded K.before (M.words view.now.memory.now) view.now.table.now index page split }
{
    match split {
        Some(_) => Move::turns(index, Stage::Helping),
        None => start_split(view, index, page),
    }
}

// An enter into a page that is not splitting.
fn enter_page<M: KeptMemory, K: KeyKind>(view: &View<M, K>, turn: Turn, page: u8) -> Move
    ensures { result ≡ entering_page K.before (M.words view.now.memory.now) view.now.table.now turn.index page (found (M.words view.now.memory.now) (page_at view.now.table.now page).committed page turn.runner.key) }
{
    match view.committed(page).find(turn.runner.key) {
        Some(_) => Move::answers(turn.index, Answer::AlreadyThere),
        None if view.table.page_at(page).taken < 8 => take_slot(view.table, turn.index, page),
        None => enter_full_page(view, turn.index, page, view.table.split),
    }
}

fn enter_standing<M: KeptMemory, K: KeyKind>(
    view: &View<M, K>,
    turn: Turn,
    page: u8,
    standing: Standing,
) -> Move
    ensures { result ≡ entering K.before (M.words view.now.memory.now) view.now.table.now turn.index turn.runner.key page standing }
{
    match standing {
        Standing::Whole | Standing::Left => enter_page(view, turn, page),
        Standing::InCopy | Standing::InSync(_) | Standing::InLink(_) => Move::turns(
            turn.index,
            Stage::Helping,
        ),
    }
}

fn locate_in<M: KeptMemory, K: KeyKind>(
    view: &View<M, K>,
    turn: Turn,
    page: u8,
    operation: Operation,
) -> Move
    ensures { result ≡ locating_page K.before (M.words view.now.memory.now) view.now.table.now turn.index turn.runner.key page operation }
{
    match operation {
        Operation::Enter => enter_standing(view, turn, page, view.table.standing(page)),
        Operation::Change | Operation::Remove | Operation::Look => Move::turns(
            turn.index,
            Stage::Acting { page },
        ),
    }
}

// Change, remove and look hold the covering page and go to acting; enter tries that page.
pub fn locate<M: KeptMemory, K: KeyKind>(view: &View<M, K>, turn: Turn) -> Move
    ensures { result ≡ locating K.before (M.words view.now.memory.now) view.now.table.now turn.index turn.runner }
{
    let page = view.covering_page(turn.runner.key);
    locate_in(view, turn, page, turn.runner.operation)
}
