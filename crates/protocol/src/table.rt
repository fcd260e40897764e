// The table of an open book: plain values in fixed arrays, lost at a cut.
use crate::numbers::{Answer, Operation};

// Where a runner's operation stands. `page` is the page that the runner holds, `slot` a slot of it, `new` the slot of the key's new page, `word` a word
// remembered from the new slot and `old` one remembered from the old slot.
// Page and slot stand apart, here and in parameters: rules and definitions speak of each alone, and as one value each match would take it apart again.
#[derive(Clone, Copy, PartialEq, Eq, Debug)]
pub enum Stage {
    Idle,
    Locating,
    WritingValue {
        page: u8,
        slot: u8,
    },
    WritingKey {
        page: u8,
        slot: u8,
    },
    Committing {
        page: u8,
        slot: u8,
    },
    Helping,
    Acting {
        page: u8,
    },
    PendingNew {
        page: u8,
        slot: u8,
    },
    PendingOld {
        page: u8,
        slot: u8,
        new: u8,
        word: u64,
    },
    PendingSwap {
        page: u8,
        slot: u8,
        new: u8,
        word: u64,
        old: u64,
    },
    PendingRemove {
        page: u8,
    },
    Comparing {
        page: u8,
        old: u64,
    },
    ComparingSwap {
        page: u8,
        new: u8,
        word: u64,
        old: u64,
    },
    Reading {
        page: u8,
    },
    Answered {
        answer: Answer,
        value: u32,
    },
}

// Whether a runner has an operation: none, one under way, or one whose answer waits to be collected.
#[derive(Clone, Copy, PartialEq, Eq, Debug)]
pub enum Activity {
    Resting,
    Open,
    Waiting { answer: Answer, value: u32 },
}

// What a runner is doing: `word` is the value word that an enter or a change brings, with its mark clear.
// The word is 0 where none is brought, and an idle runner has all fields: the laws of change numbers speak of every runner's word.
#[derive(Clone, Copy, PartialEq, Eq, Debug)]
pub struct Runner {
    pub operation: Operation,
    pub key: u64,
    pub word: u64,
    pub stage: Stage,
}

// Whose step it is: the runner's number, from 0, and its record.
#[derive(Clone, Copy, PartialEq, Eq, Debug)]
pub struct Turn {
    pub index: usize,
    pub runner: Runner,
}

// A page as the table sees it: whether it is in the list, the page after it there (0 at the end), how many of its slots
// are taken, and a bit for each committed slot.
// `next` is the row's own next word, so 0 and no Option. `listed` is a flag, since each row of the array is whole, and the laws of the list speak of both for every page.
#[derive(Clone, Copy, PartialEq, Eq, Debug)]
pub struct PageRow {
    pub listed: bool,
    pub next: u8,
    pub taken: u8,
    pub committed: u8,
}

// The slot that an old slot was copied to; page 0 if it was not copied.
// As an Option the three steps of a slot that was found copied would each have to say what they do with None.
#[derive(Clone, Copy, PartialEq, Eq, Debug)]
pub struct NewSlot {
    pub page: u8,
    pub slot: u8,
}

// The phases of a split.
#[derive(Clone, Copy, PartialEq, Eq, Debug)]
pub enum Phase {
    Copy,
    Sync,
    Link,
}

// The next step of a split. `slot` is a slot of the old page, `key` the key read there, `word` and `old` remembered words.
#[derive(Clone, Copy, PartialEq, Eq, Debug)]
pub enum Progress {
    Clearing { done: u8 },
    LeftNext,
    LeftLow,
    RightNext,
    RightLow,
    Copying { slot: u8 },
    CopyingValue { slot: u8, key: u64, word: u64 },
    CopyingKey { slot: u8, key: u64 },
    Syncing { slot: u8 },
    SyncingNew { slot: u8, old: u64 },
    SyncingSwap { slot: u8, old: u64, word: u64 },
    Linking,
    Finishing,
}

// A split of page `old` into `left` and `right` (0 where one new page is enough) at `key`. `copies` says where each old slot went, and
// `lefts` and `rights` how many slots the new pages have so far.
// `right` is 0 and no Option: the three steps that only a right page has would each have to say what they do without one.
#[derive(Clone, Copy, PartialEq, Eq, Debug)]
pub struct Split {
    pub old: u8,
    pub left: u8,
    pub right: u8,
    pub key: u64,
    pub progress: Progress,
    pub copies: [NewSlot; 8],
    pub lefts: u8,
    pub rights: u8,
}

// How a page stands to the list and the split.
#[derive(Clone, Copy, PartialEq, Eq, Debug)]
pub enum Standing {
    // listed, and not splitting
    Whole,
    // splitting, in the copy phase
    InCopy,
    // splitting, in the sync phase
    InSync(Split),
    // splitting, in the link phase
    InLink(Split),
    // not in the list (any more)
    Left,
}

// `opened` says whether a book is open, `count` for how many runners. Row p of `pages` is page p's, row 0 nobody's. The list begins
// with page `first`. New pages are sought from page `round` on; `last` is the change number drawn last.
// Memory is fixed: the list is kept by links in the array, and `count` says how many of the eight runners there are.
// A closed book has a table too: as Option<Table> each call's definition and each law would have to say what holds of None.
#[derive(Clone, Copy, PartialEq, Eq, Debug)]
pub struct Table {
    pub opened: bool,
    pub count: u8,
    pub runners: [Runner; 8],
    pub first: u8,
    pub pages: [PageRow; 65],
    pub split: Option<Split>,
    pub round: u8,
    pub last: u32,
}

// What a rebuild has seen of a page's slots, and the largest change number so far.
#[derive(Clone, Copy, PartialEq, Eq, Debug)]
pub struct Tally {
    pub taken: u8,
    pub committed: u8,
    pub last: u32,
}
