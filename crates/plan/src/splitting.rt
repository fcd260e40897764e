// The steps of a split: copy, sync, link.
ghost use Rattle.std.specs.Prelude.{◌≡◌};
ghost use Rattle.protocol.specs.Fields.{page_at, with_progress};
ghost use Rattle.protocol.specs.Moves.{splits};
ghost use Rattle.protocol.specs.declared.moves.TableNext.TheVariants.{Go};
ghost use Rattle.protocol.specs.Search.{new_page, live_from, standing_from, preceding, first_pending};
ghost use Rattle.protocol.specs.Split.{steps, stores, clearing_at, clearing_after, old_next, left_next, copying, new_count, copied, syncing_slot, syncing, link_at, linking, split_step_at, split_step};

use act::RowTurn;
use keys::kind::KeyKind;
use memory::kept::KeptMemory;
use protocol::layout::{key_at, low_at, next_at, value_at};
use protocol::moves::{Access, Move, TableNext};
use protocol::rows::slot_after;
use protocol::table::{NewSlot, Progress, Split, Turn};
use search::{View, next_standing, word};
use values::value_word::{cleared, marked};

// A split's next step, and the runner that makes it.
#[derive(Drop)]
pub(crate) struct SplitStep<'v, 'a, M, K> {
    pub(crate) view: &'v View<'a, M, K>,
    pub(crate) runner: usize,
    pub(crate) split: Split,
}

impl<'v, 'a, M: KeptMemory, K: KeyKind> SplitStep<'v, 'a, M, K> {
    // The split makes an access and goes on.
    fn go(&self, access: Access, progress: Progress) -> Move
        ensures { result ≡ splits self.now.runner access (Go (with_progress self.now.split progress)) }
    {
        let next = TableNext::Go(self.split.with_progress(progress));
        Move::splits(self.runner, access, next)
    }

    // The split goes on with no access.
    fn step(&self, progress: Progress) -> Move
        ensures { result ≡ steps self.now.runner self.now.split progress }
    {
        self.go(Access::Nothing, progress)
    }

    // The split stores a word and goes on.
    fn store(&self, at: usize, word: u64, progress: Progress) -> Move
        ensures { result ≡ stores self.now.runner at «word» self.now.split progress }
    {
        self.go(Access::Store(at, word), progress)
    }

    fn clear_at(&self, done: u8) -> usize
        ensures { result ≡ clearing_at self.now.split done }
    {
        if done < 8 {
            key_at(self.split.left, done)
        } else {
            key_at(self.split.right, done - 8)
        }
    }

    fn after_clearing(&self, done: u8) -> Progress
        ensures { result ≡ clearing_after self.now.split done }
    {
        let last = if self.split.right == 0 { 7 } else { 15 };
        if last <= done {
            Progress::LeftNext
        } else {
            Progress::Clearing { done: done + 1 }
        }
    }

    fn next_of_old(&self) -> u8
        ensures { result ≡ old_next self.now.view.now.table.now self.now.split }
    {
        self.view.table.page_at(self.split.old).next
    }

    fn next_of_left(&self) -> u8
        ensures { result ≡ left_next self.now.view.now.table.now self.now.split }
    {
        if self.split.right == 0 {
            self.next_of_old()
        } else {
            self.split.right
        }
    }

    // The next committed slot with a nonzero key is copied; after the last one the sync phase opens.
    fn copy_next(&self, from: u8) -> Move
        ensures { result ≡ copying (M.words self.now.view.now.memory.now) self.now.runner self.now.split (live_from (M.words self.now.view.now.memory.now) (page_at self.now.view.now.table.now self.now.split.old).committed self.now.split.old from) }
    {
        let split = self.split;
        match self.view.committed(split.old).next_live(from) {
            Some(slot) => {
                let key = word(self.view.memory, key_at(split.old, slot));
                let access = Access::Load(value_at(split.old, slot));
                Move::splits(
                    self.runner,
                    access,
                    TableNext::CopyLoaded { split, slot, key },
                )
            }
            None => self.step(Progress::Syncing { slot: 0 }),
        }
    }

    // The page that takes the copy of a key.
    fn new_page(&self, key: u64) -> u8
        ensures { result ≡ new_page K.before self.now.split key }
    {
        self.view.new_page(self.split, key)
    }

    // The slot of that page that takes it.
    fn count_in_new_page(&self, key: u64) -> u8
        ensures { result ≡ new_count K.before self.now.split key }
    {
        if self.view.goes_right(self.split, key) {
            self.split.rights
        } else {
            self.split.lefts
        }
    }

    // The split once a slot is copied: where it went is noted, and its new page has one slot more.
    fn with_copy(&self, slot: u8, key: u64) -> Split
        ensures { result ≡ copied K.before self.now.split slot key }
    {
        let mut next = self.split;
        // Not `get_mut`, after which a proof knows no element of an array.
        if usize::from(slot) < next.copies.len() {
            next.copies[usize::from(slot)] = NewSlot {
                page: self.new_page(key),
                slot: self.count_in_new_page(key),
            };
        }
        if self.view.goes_right(self.split, key) {
            next.rights = slot_after(next.rights);
        } else {
            next.lefts = slot_after(next.lefts);
        }
        next.with_progress(Progress::Copying {
            slot: slot_after(slot),
        })
    }

    fn sync_slot(&self, slot: u8) -> Move
        ensures { result ≡ syncing_slot (M.words self.now.view.now.memory.now) self.now.runner self.now.split slot }
    {
        let split = self.split;
        if word(self.view.memory, key_at(split.old, slot)) == 0 {
            let copy = split.copy_at(slot);
            self.store(
                key_at(copy.page, copy.slot),
                0,
                Progress::Syncing {
                    slot: slot_after(slot),
                },
            )
        } else {
            let access = Access::Load(value_at(split.old, slot));
            Move::splits(self.runner, access, TableNext::SyncLoaded { split, slot })
        }
    }

    // The next copied slot that is not gone is brought level; after the last one the link phase opens.
    fn sync_next(&self, from: u8) -> Move
        ensures { result ≡ syncing (M.words self.now.view.now.memory.now) self.now.runner self.now.split (standing_from (M.words self.now.view.now.memory.now) self.now.split from) }
    {
        match next_standing(self.view.memory, self.split, from) {
            Some(slot) => self.sync_slot(slot),
            None => self.step(Progress::Linking),
        }
    }

    // The word that leads to the old page: the head, or the next of the page before it.
    fn link_word(&self) -> usize
        ensures { result ≡ link_at (preceding self.now.view.now.table.now self.now.split.old) }
    {
        self.view.table.preceding(self.split.old).map_or(0, next_at)
    }

    // While a runner is pending on the old page, the lowest such runner's own next step is taken instead.
    fn unless_pending(&self, next: Move) -> Move
        ensures { result ≡ linking K.before (M.words self.now.view.now.memory.now) self.now.view.now.table.now self.now.split next (first_pending self.now.view.now.table.now self.now.split.old) }
    {
        let SplitStep { view, split, .. } = *self;
        match view.table.lowest_pending(split.old) {
            Some(index) => {
                let runner = view.table.runner_at(index);
                let turn = Turn { index, runner };
                RowTurn::of(view, split, turn).pend()
            }
            None => next,
        }
    }

    // A match on the progress is this project's form for a step of a split.
    fn plan_at(&self, progress: Progress) -> Move
        ensures { result ≡ split_step_at K.before (M.words self.now.view.now.memory.now) self.now.view.now.table.now self.now.runner self.now.split progress }
    {
        let split = self.split;
        match progress {
            Progress::Clearing { done } => {
                self.store(self.clear_at(done), 0, self.after_clearing(done))
            }
            Progress::LeftNext => self.store(
                next_at(split.left),
                u64::from(self.next_of_left()),
                Progress::LeftLow,
            ),
            Progress::LeftLow => {
                let low = word(self.view.memory, low_at(split.old));
                let next = if split.right == 0 {
                    Progress::Copying { slot: 0 }
                } else {
                    Progress::RightNext
                };
                self.store(low_at(split.left), low, next)
            }
            Progress::RightNext => self.store(
                next_at(split.right),
                u64::from(self.next_of_old()),
                Progress::RightLow,
            ),
            Progress::RightLow => self.store(
                low_at(split.right),
                split.key,
                Progress::Copying { slot: 0 },
            ),
            Progress::Copying { slot } => self.copy_next(slot),
            Progress::CopyingValue { slot, key, word } => {
                let at = value_at(self.new_page(key), self.count_in_new_page(key));
                self.store(at, marked(word), Progress::CopyingKey { slot, key })
            }
            Progress::CopyingKey { slot, key } => {
                let at = key_at(self.new_page(key), self.count_in_new_page(key));
                let next = TableNext::Go(self.with_copy(slot, key));
                Move::splits(self.runner, Access::Store(at, key), next)
            }
            Progress::Syncing { slot } => self.sync_next(slot),
            Progress::SyncingNew { slot, old } => {
                let copy = split.copy_at(slot);
                let access = Access::Load(value_at(copy.page, copy.slot));
                let next = TableNext::LevelLoaded { split, slot, old };
                Move::splits(self.runner, access, next)
            }
            Progress::SyncingSwap { slot, old, word } => {
                let copy = split.copy_at(slot);
                let access = Access::Swap(value_at(copy.page, copy.slot), word, cleared(old));
                let slot = slot_after(slot);
                self.go(access, Progress::Syncing { slot })
            }
            Progress::Linking => {
                let link = self.store(self.link_word(), u64::from(split.left), Progress::Finishing);
                self.unless_pending(link)
            }
            Progress::Finishing => {
                let finish = Move::splits(self.runner, Access::Nothing, TableNext::Finish(split));
                self.unless_pending(finish)
            }
        }
    }

    // One step of the split.
    pub(crate) fn plan(&self) -> Move
        ensures { result ≡ split_step K.before (M.words self.now.view.now.memory.now) self.now.view.now.table.now self.now.runner self.now.split }
    {
        self.plan_at(self.split.progress)
    }
}
