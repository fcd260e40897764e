// What becomes of the table once a step's access is made.
ghost use Rattle.std.specs.Prelude.{◌≡◌};
ghost use Rattle.protocol.specs.Settle.{loaded_word, did_swap, judged, weighed, stage_after, levelled, linked, with_new_pages, finished, table_after, settled};

use protocol::moves::{Move, Outcome, RunnerNext, TableNext};
use protocol::numbers::Answer;
use protocol::rows::slot_after;
use protocol::table::{PageRow, Progress, Runner, Split, Stage, Table};
use values::value_word::{is_marked, is_same, value_of};

fn loaded_word(outcome: Outcome) -> u64
    ensures { result ≡ loaded_word outcome }
{
    match outcome {
        Outcome::Loaded(word) => word,
        _ => 0,
    }
}

fn did_swap(outcome: Outcome) -> bool
    ensures { result ≡ did_swap outcome }
{
    match outcome {
        Outcome::Swapped(written) => written,
        _ => false,
    }
}

// A comparing look answers a new word that is clear or the same as the old one; else it goes on to swap.
fn judge(page: u8, new: u8, old: u64, word: u64) -> Stage
    ensures { result ≡ judged page new old «word» }
{
    if !is_marked(word) || is_same(word, old) {
        Stage::Answered {
            answer: Answer::Done,
            value: value_of(word),
        }
    } else {
        Stage::ComparingSwap {
            page,
            new,
            word,
            old,
        }
    }
}

// A pending change is done if the old word is the same as the new one; else it goes on to swap.
fn weigh(page: u8, slot: u8, new: u8, word: u64, old: u64) -> Stage
    ensures { result ≡ weighed page slot new «word» old }
{
    if is_same(old, word) {
        Stage::Answered {
            answer: Answer::Done,
            value: 0,
        }
    } else {
        Stage::PendingSwap {
            page,
            slot,
            new,
            word,
            old,
        }
    }
}

fn stage_after(stage: Stage, own: RunnerNext, outcome: Outcome) -> Stage
    ensures { result ≡ stage_after stage own outcome }
{
    match own {
        RunnerNext::Stay => stage,
        RunnerNext::Go(next) => next,
        RunnerNext::AnswerLoaded => Stage::Answered {
            answer: Answer::Done,
            value: value_of(loaded_word(outcome)),
        },
        RunnerNext::CompareLoaded { page } => Stage::Comparing {
            page,
            old: loaded_word(outcome),
        },
        RunnerNext::JudgeLoaded { page, new, old } => judge(page, new, old, loaded_word(outcome)),
        RunnerNext::PendLoaded { page, slot, new } => Stage::PendingOld {
            page,
            slot,
            new,
            word: loaded_word(outcome),
        },
        RunnerNext::WeighLoaded {
            page,
            slot,
            new,
            word,
        } => weigh(page, slot, new, word, loaded_word(outcome)),
        RunnerNext::BySwap { written, missed } => {
            if did_swap(outcome) { written } else { missed }
        }
    }
}

// A synced slot is level if its new word is clear or the same as the old word; else it is swapped.
fn level(slot: u8, old: u64, word: u64) -> Progress
    ensures { result ≡ levelled slot old «word» }
{
    if is_marked(word) && !is_same(word, old) {
        Progress::SyncingSwap { slot, old, word }
    } else {
        Progress::Syncing {
            slot: slot_after(slot),
        }
    }
}

fn list_new_pages(table: &mut Table, split: Split, after: u8)
    ensures { table.new ≡ with_new_pages table.old split after }
{
    if split.right == 0 {
        table.set_page(split.left, PageRow::filled(after, split.lefts));
    } else {
        table.set_page(split.left, PageRow::filled(split.right, split.lefts));
        table.set_page(split.right, PageRow::filled(after, split.rights));
    }
}

// Left follows the page before the old one, or is the first.
fn link_left(table: &mut Table, left: u8, before: Option<u8>)
    ensures { table.new ≡ linked table.old left before }
{
    match before {
        Some(page) => {
            let row = table.page_at(page).with_next(left);
            table.set_page(page, row);
        }
        None => table.first = left,
    }
}

// The new pages take the old page's place in the list, and the split is over.
fn finish_split(table: &mut Table, split: Split)
    ensures { table.new ≡ finished table.old split }
{
    let after = table.page_at(split.old).next;
    let before = table.preceding(split.old);
    list_new_pages(table, split, after);
    link_left(table, split.left, before);
    table.set_page(split.old, PageRow::none());
    table.split = None;
}

fn settle_rest(table: &mut Table, rest: TableNext, outcome: Outcome)
    ensures { table.new ≡ table_after table.old rest outcome }
{
    match rest {
        TableNext::Stay => {}
        TableNext::Take { page } => {
            let row = table.page_at(page).with_slot_taken();
            table.set_page(page, row);
        }
        TableNext::Commit { page, slot } => {
            let row = table.page_at(page).with_slot_committed(slot);
            table.set_page(page, row);
        }
        TableNext::Start { split, round } => {
            table.split = Some(split);
            table.round = round;
        }
        TableNext::Go(split) => table.split = Some(split),
        TableNext::CopyLoaded { split, slot, key } => {
            let word = loaded_word(outcome);
            table.split = Some(split.with_progress(Progress::CopyingValue { slot, key, word }));
        }
        TableNext::SyncLoaded { split, slot } => {
            let old = loaded_word(outcome);
            table.split = Some(split.with_progress(Progress::SyncingNew { slot, old }));
        }
        TableNext::LevelLoaded { split, slot, old } => {
            table.split = Some(split.with_progress(level(slot, old, loaded_word(outcome))));
        }
        TableNext::Finish(split) => finish_split(table, split),
    }
}

// The table after a move and its outcome: the runner's record first, then the rest.
pub fn settle(table: &mut Table, step: Move, outcome: Outcome)
    ensures { table.new ≡ settled table.old step outcome }
{
    let runner = table.runner_at(step.runner);
    let stage = stage_after(runner.stage, step.own, outcome);
    table.set_runner(step.runner, Runner { stage, ..runner });
    settle_rest(table, step.rest, outcome);
}
