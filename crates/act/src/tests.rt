// Turns beside a split of page 1 into pages 2 and 3, worked out by hand. Slot s of page p has its key in word 18p + 2s - 15 and its value in the next.
use crate::splitting::SplitTurn;
use keys::place::Place;
use memory::flat::FlatMemory;
use protocol::moves::{Access, Move, RunnerNext, TableNext};
use protocol::numbers::Operation;
use protocol::table::{NewSlot, PageRow, Progress, Runner, Split, Stage, Table, Turn};
use search::View;

// The key that the turns are about. It parts the new pages, so its new page is 3.
const KEY: u64 = 65538;

// Page 1 has two keys, and the second was copied to slot 0 of page 3.
fn row() -> [u64; 55] {
    let mut words = [0; 55];
    words[3] = 65537;
    words[5] = KEY;
    words[39] = KEY;
    words
}

fn table() -> Table {
    let mut table = Table::bare(true, 1, 1);
    table.set_page(
        1,
        PageRow {
            listed: true,
            next: 0,
            taken: 2,
            committed: 3,
        },
    );
    table
}

fn split() -> Split {
    Split {
        old: 1,
        left: 2,
        right: 3,
        key: KEY,
        progress: Progress::Linking,
        copies: [NewSlot { page: 0, slot: 0 }; 8],
        lefts: 1,
        rights: 1,
    }
}

fn turn(operation: Operation, stage: Stage) -> Turn {
    Turn {
        index: 4,
        runner: Runner {
            operation,
            key: KEY,
            word: 77,
            stage,
        },
    }
}

fn told(access: Access, own: RunnerNext) -> Move {
    Move {
        runner: 4,
        access,
        own,
        rest: TableNext::Stay,
    }
}

#[test]
fn changes_and_removes(rt: HostRuntime) {
    let (mut words, table) = (row(), table());
    let memory = FlatMemory::new(&mut words);
    let view = View::<_, Place>::new(&memory, &table);
    let change = SplitTurn::of(
        &view,
        split(),
        turn(Operation::Change, Stage::Acting { page: 1 }),
    );
    let stored = Stage::PendingNew { page: 1, slot: 1 };
    assert_eq!(rt;
        change.act_in_sync(1),
        told(Access::Store(6, 77), RunnerNext::Go(stored))
    );
    let pending = SplitTurn::of(&view, split(), turn(Operation::Change, stored));
    let remembered = RunnerNext::PendLoaded {
        page: 1,
        slot: 1,
        new: 0,
    };
    assert_eq!(rt; pending.pend(), told(Access::Load(40), remembered));
    let remove = SplitTurn::of(
        &view,
        split(),
        turn(Operation::Remove, Stage::Acting { page: 1 }),
    );
    assert_eq!(rt;
        remove.act_in_link(),
        told(Access::Nothing, RunnerNext::Go(Stage::Helping))
    );
}

#[test]
fn looks(rt: HostRuntime) {
    let (mut words, table) = (row(), table());
    let memory = FlatMemory::new(&mut words);
    let view = View::<_, Place>::new(&memory, &table);
    let look = SplitTurn::of(
        &view,
        split(),
        turn(Operation::Look, Stage::Reading { page: 1 }),
    );
    assert_eq!(rt;
        look.read(),
        told(Access::Load(40), RunnerNext::AnswerLoaded)
    );
    let judged = RunnerNext::JudgeLoaded {
        page: 1,
        new: 0,
        old: 9,
    };
    assert_eq!(rt; look.compare(1, 9), told(Access::Load(40), judged));
    // The old word is marked; what is swapped in is not.
    assert_eq!(rt;
        look.compare_swap(1, 0, 8, 1 << 63 | 9),
        told(
            Access::Swap(40, 8, 9),
            RunnerNext::Go(Stage::Reading { page: 1 })
        )
    );
}
