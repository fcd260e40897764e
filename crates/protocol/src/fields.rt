// How the table's fields are read and written: total, whatever the number.
ghost use Rattle.std.specs.Prelude.{◌≡◌};
ghost use Rattle.protocol.specs.Fields.{idle_runner, runner_at, with_runner, page_at, with_page, held, activity as stage_activity, pending_on, phase as progress_phase, in_phase, standing_in, standing as page_standing, copy_at, with_progress};
ghost use Rattle.protocol.specs.Make.{bare_table};
ghost use Rattle.protocol.specs.Search.{first_from, is_some, first_pending, precedes, preceding};
ghost use Rattle.protocol.specs.Locate.{holds_page};

use crate::numbers::Operation;
use crate::table::{
    Activity, NewSlot, PageRow, Phase, Progress, Runner, Split, Stage, Standing, Table,
};

impl Stage {
    // The page that the runner holds, if any.
    pub fn held(self) -> Option<u8>
        ensures { result ≡ held self }
    {
        match self {
            Stage::Idle | Stage::Locating | Stage::Helping | Stage::Answered { .. } => None,
            Stage::WritingValue { page, .. }
            | Stage::WritingKey { page, .. }
            | Stage::Committing { page, .. }
            | Stage::Acting { page }
            | Stage::Comparing { page, .. }
            | Stage::ComparingSwap { page, .. }
            | Stage::PendingNew { page, .. }
            | Stage::PendingOld { page, .. }
            | Stage::PendingSwap { page, .. }
            | Stage::PendingRemove { page }
            | Stage::Reading { page } => Some(page),
        }
    }

    // Whether the runner has stored in an old slot of the page and is not answered yet.
    pub fn is_pending_on(self, old: u8) -> bool
        ensures { result ≡ pending_on self old }
    {
        match self {
            Stage::PendingNew { page, .. }
            | Stage::PendingOld { page, .. }
            | Stage::PendingSwap { page, .. }
            | Stage::PendingRemove { page } => page == old,
            _ => false,
        }
    }

    pub fn activity(self) -> Activity
        ensures { result ≡ stage_activity self }
    {
        match self {
            Stage::Idle => Activity::Resting,
            Stage::Answered { answer, value } => Activity::Waiting { answer, value },
            _ => Activity::Open,
        }
    }
}

impl Runner {
    pub fn idle() -> Runner
        ensures { result ≡ idle_runner }
    {
        Runner {
            operation: Operation::Enter,
            key: 0,
            word: 0,
            stage: Stage::Idle,
        }
    }
}

impl Progress {
    pub fn phase(self) -> Phase
        ensures { result ≡ progress_phase self }
    {
        match self {
            Progress::Syncing { .. } | Progress::SyncingNew { .. } | Progress::SyncingSwap { .. } =>
                Phase::Sync,
            Progress::Linking | Progress::Finishing => Phase::Link,
            _ => Phase::Copy,
        }
    }
}

impl Split {
    // Where an old slot was copied to.
    pub fn copy_at(&self, slot: u8) -> NewSlot
        ensures { result ≡ copy_at self.now slot }
    {
        self.copies
            .get(usize::from(slot))
            .copied()
            .unwrap_or(NewSlot { page: 0, slot: 0 })
    }

    pub fn with_progress(self, progress: Progress) -> Split
        ensures { result ≡ with_progress self progress }
    {
        Split { progress, ..self }
    }
}

fn standing_in_phase(split: Split, phase: Phase) -> Standing
    ensures { result ≡ in_phase split phase }
{
    match phase {
        Phase::Copy => Standing::InCopy,
        Phase::Sync => Standing::InSync(split),
        Phase::Link => Standing::InLink(split),
    }
}

fn standing_in(split: Option<Split>, page: u8) -> Standing
    ensures { result ≡ standing_in split page }
{
    match split {
        Some(split) if split.old == page => standing_in_phase(split, split.progress.phase()),
        _ => Standing::Whole,
    }
}

impl Table {
    // Every runner idle, no page listed and no split.
    pub fn bare(opened: bool, count: u8, first: u8) -> Table
        ensures { result ≡ bare_table opened count first }
    {
        Table {
            opened,
            count,
            runners: [Runner::idle(); 8],
            first,
            pages: [PageRow::none(); 65],
            split: None,
            round: 1,
            last: 0,
        }
    }

    // The record of a runner, numbered from 0.
    pub fn runner_at(&self, i: usize) -> Runner
        ensures { result ≡ runner_at self.now i }
    {
        self.runners.get(i).copied().unwrap_or(Runner::idle())
    }

    pub fn set_runner(&mut self, i: usize, runner: Runner)
        ensures { self.new ≡ with_runner self.old i runner }
    {
        // Not `get_mut`, after which a proof knows no element of an array.
        if i < self.runners.len() {
            self.runners[i] = runner;
        }
    }

    pub fn page_at(&self, page: u8) -> PageRow
        ensures { result ≡ page_at self.now page }
    {
        self.pages
            .get(usize::from(page))
            .copied()
            .unwrap_or(PageRow::none())
    }

    pub fn set_page(&mut self, page: u8, row: PageRow)
        ensures { self.new ≡ with_page self.old page row }
    {
        // Not `get_mut`, as above.
        if usize::from(page) < self.pages.len() {
            self.pages[usize::from(page)] = row;
        }
    }

    // The lowest runner that is pending on the page.
    pub fn lowest_pending(&self, page: u8) -> Option<usize>
        ensures { result ≡ first_pending self.now page }
    {
        (0..8).find(|i| self.runner_at(*i).stage.is_pending_on(page))
    }

    // The listed page right before the page, none for the first.
    pub fn preceding(&self, page: u8) -> Option<u8>
        ensures { result ≡ preceding self.now page }
    {
        (1..65).find(|before| self.precedes(*before, page))
    }

    // Whether a page is listed right before another.
    fn precedes(&self, before: u8, page: u8) -> bool
        ensures { result ≡ precedes self.now page before }
    {
        let row = self.page_at(before);
        row.listed && row.next == page
    }

    // Whether a runner holds the page. One that holds none counts for page 0, which is none.
    pub fn is_held(&self, page: u8) -> bool
        ensures { result ≡ is_some (first_from (holds_page self.now page) 0 8) }
    {
        (0..8).any(|i| self.runner_at(i).stage.held().unwrap_or(0) == page)
    }

    // How a page stands to the list and the split.
    pub fn standing(&self, page: u8) -> Standing
        ensures { result ≡ page_standing self.now page }
    {
        if self.page_at(page).listed {
            standing_in(self.split, page)
        } else {
            Standing::Left
        }
    }
}
