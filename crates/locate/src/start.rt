// How a split is started: which key parts the page, and which pages are new.
ghost use Rattle.std.specs.Prelude.{◌≡◌, ◌+◌, ◌<◌, ◌≤◌, Some, None};
ghost use Rattle.protocol.specs.Locate.{key_count, rank, split_key, in_split, free, round_after, round_page, free_from, new_split, starts, into_one, into_second, into_two, starting_with, starting};
ghost use Rattle.protocol.specs.Moves.{answers};
ghost use Rattle.protocol.specs.declared.numbers.Answer.TheVariants.{NoRoom};

use keys::kind::KeyKind;
use memory::kept::KeptMemory;
use protocol::moves::{Access, Move, RunnerNext, TableNext};
use protocol::numbers::Answer;
use protocol::table::{NewSlot, Progress, Split, Stage, Table};
use search::{View, pages_of};

fn count_keys(keys: &[u64]) -> usize
    ensures value { result ≡ key_count keys.now }
{
    keys.iter().filter(|key| **key != 0).count()
}

// How many keys come before the key.
// Ranks are counted in loops over a page's keys, here and below: this project's form for the split key.
#[tactic(auto, using(protocol::proofs::Ranks::rank_more, protocol::proofs::Ranks::rank_all))]
fn rank_of<K: KeyKind>(keys: &[u64], key: u64) -> usize
    ensures { result ≡ rank K.before key keys.now }
{
    let mut n = 0;
    for other in keys {
        if *other != 0 && K::comes_before(*other, key) {
            n += 1;
        }
    }
    n
}

// The key with just half of the `count` keys before it. A loop over the keys with their index, as above.
#[tactic(auto, using(protocol::proofs::Ranks::ranked_more, protocol::proofs::Ranks::ranked_all))]
fn parting_key<K: KeyKind>(keys: &[u64], count: usize) -> u64
    requires { count ≡ key_count keys.now }
    ensures { result ≡ split_key K.before keys.now }
{
    let half = count / 2;
    for (slot, key) in keys.iter().enumerate() {
        if *key != 0 && rank_of::<K>(keys, *key) == half {
            return keys[slot];
        }
    }
    0
}

fn is_in_split(split: Option<Split>, page: u8) -> bool
    ensures { result ≡ in_split split page }
{
    split.is_some_and(|split| split.old == page || split.left == page || split.right == page)
}

// Not in the list, not in the split and not held.
fn is_free(table: &Table, page: u8) -> bool
    ensures { result ≡ free table.now page }
{
    !table.page_at(page).listed && !is_in_split(table.split, page) && !table.is_held(page)
}

// A split that a runner is about to start: of which page, at which key, and how many pages there are to go round.
#[derive(Clone, Copy)]
struct Starter<'a> {
    table: &'a Table,
    pages: u8,
    index: usize,
    page: u8,
    key: u64,
    ghost most: { pages ≤ 64 },
}

impl<'a> Starter<'a> {
    // The i-th page going round all pages from the place of the round.
    fn round_page(&self, i: u8) -> u8
        requires { 0 < self.now.pages }
        ensures { result ≡ round_page self.now.pages self.now.table.now.round i }
    {
        let start = u16::from(self.table.round.saturating_sub(1));
        ((start + u16::from(i)) % u16::from(self.pages) + 1) as u8
    }

    // The next free page, as its place in the round, from place `from` on.
    fn next_free(&self, from: u8) -> Option<u8>
        ensures within { elim result [ Some i ↦ i < self.now.pages | None ↦ 0 ≤ self.now.pages ] }
        ensures value { result ≡ free_from self.now.table.now self.now.pages from }
    {
        (from..self.pages).find(|i| is_free(self.table, self.round_page(*i)))
    }

    // The runner starts the split and goes to helping; the round goes on after the page taken last.
    fn start(&self, left: u8, right: u8, last: u8) -> Move
        requires { 0 < self.now.pages }
        ensures { result ≡ starts self.now.index (new_split self.now.page left right self.now.key) (round_after self.now.pages last) }
    {
        let split = Split {
            old: self.page,
            left,
            right,
            key: self.key,
            progress: Progress::Clearing { done: 0 },
            copies: [NewSlot { page: 0, slot: 0 }; 8],
            lefts: 0,
            rights: 0,
        };
        Move {
            runner: self.index,
            access: Access::Nothing,
            own: RunnerNext::Go(Stage::Helping),
            rest: TableNext::Start {
                split,
                round: last % self.pages + 1,
            },
        }
    }

    fn no_room(&self) -> Move
        ensures { result ≡ answers self.now.index NoRoom }
    {
        Move::answers(self.index, Answer::NoRoom)
    }

    fn into_one(&self) -> Move
        ensures { result ≡ into_one self.now.table.now self.now.pages self.now.index self.now.page self.now.key (free_from self.now.table.now self.now.pages 0) }
    {
        match self.next_free(0) {
            Some(i) => {
                let left = self.round_page(i);
                self.start(left, 0, left)
            }
            None => self.no_room(),
        }
    }

    fn into_second(&self, i: u8) -> Move
        requires { i < self.now.pages }
        ensures { result ≡ into_second self.now.table.now self.now.pages self.now.index self.now.page self.now.key i (free_from self.now.table.now self.now.pages (i + 1)) }
    {
        match self.next_free(i + 1) {
            Some(j) => {
                let right = self.round_page(j);
                self.start(self.round_page(i), right, right)
            }
            None => self.no_room(),
        }
    }

    fn into_two(&self) -> Move
        ensures { result ≡ into_two self.now.table.now self.now.pages self.now.index self.now.page self.now.key (free_from self.now.table.now self.now.pages 0) }
    {
        match self.next_free(0) {
            Some(i) => self.into_second(i),
            None => self.no_room(),
        }
    }
}

// Up to four keys go into one new page, more into two.
fn start_with<K: KeyKind>(table: &Table, pages: u8, index: usize, page: u8, keys: &[u64]) -> Move
    requires { pages ≤ 64 }
    ensures { result ≡ starting_with K.before table.now pages index page keys.now }
{
    let count = count_keys(keys);
    let starter = Starter {
        table,
        pages,
        index,
        page,
        key: parting_key::<K>(keys, count),
    };
    if count <= 4 {
        starter.into_one()
    } else {
        starter.into_two()
    }
}

// A split of the full page starts, if enough pages are free.
pub fn start_split<M: KeptMemory, K: KeyKind>(view: &View<M, K>, index: usize, page: u8) -> Move
    ensures { result ≡ starting K.before (M.words view.now.memory.now) view.now.table.now index page }
{
    let keys = view.committed(page).keys();
    start_with::<K>(view.table, pages_of(view.memory), index, page, &keys)
}
