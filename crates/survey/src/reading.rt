// The table that a rebuild finds in the row, which is checked whole and not written.
ghost use Rattle.std.specs.Prelude.{◌≡◌, ◌<◌, Ok, Err, Some, None};
ghost use Rattle.protocol.specs.Rebuild.{listing, chain_from, chained, low_before, low_rises, lows_from, lows_right, upper, in_range, placed, tallied, slots_from, with_tally, page_surveyed, pages_from, surveyed_list, surveyed, size_refusal, checked};

use keys::kind::KeyKind;
use memory::kept::KeptMemory;
use protocol::layout::{key_at, low_at, next_at, value_at};
use protocol::numbers::Refusal;
use protocol::table::{PageRow, Table, Tally};
use search::{Slots, View, pages_of, word};
use values::value_word::number_of;

// The page stands in the list before `next`.
fn with_listed(table: Table, page: u8, next: u8) -> Table
    ensures { result ≡ listing table page next }
{
    let mut table = table;
    table.set_page(page, PageRow::filled(next, 0));
    table
}

// Follows the next words from a page on; the table has the pages so far.
#[tactic(auto, using(protocol::proofs::Rebuilds::chain_more, protocol::proofs::Rebuilds::chain_none, crate::proofs::Walks::follow_step))]
fn follow<M: KeptMemory>(memory: &M, table: Table, first: u8) -> Result<Table, Refusal>
    ensures { result ≡ chain_from (M.words memory.now) table first 64 }
{
    let pages = pages_of(memory);
    // The index only bounds the walk, which makes the list that an iterator could go over.
    let mut found = table;
    let mut page = first;
    for _i in 0..64u8 {
        let next = word(memory, next_at(page));
        if found.page_at(page).listed || next > u64::from(pages) {
            return Err(Refusal::BrokenChain);
        }
        found = with_listed(found, page, next as u8);
        if next == 0 {
            return Ok(found);
        }
        page = next as u8;
    }
    Err(Refusal::BrokenChain)
}

// The list from the head on.
fn follow_head<M: KeptMemory>(memory: &M, count: u8) -> Result<Table, Refusal>
    ensures { result ≡ chained (M.words memory.now) count }
{
    let head = word(memory, 0);
    if head == 0 {
        return Err(Refusal::NoHead);
    }
    if head > u64::from(pages_of(memory)) {
        return Err(Refusal::BrokenChain);
    }
    follow(memory, Table::bare(true, count, head as u8), head as u8)
}

fn low_comes_before<K: KeyKind>(low: u64, key: u64) -> bool
    ensures { result ≡ low_before K.before low key }
{
    low == 0 || K::comes_before(low, key)
}

// Whether the low of the page after is a key, and after the page's own.
fn does_low_rise<M: KeptMemory, K: KeyKind>(view: &View<M, K>, page: u8, next: u8) -> bool
    ensures { result ≡ low_rises K.key K.before (M.words view.now.memory.now) page next }
{
    let low = word(view.memory, low_at(next));
    K::is_key(low) && low_comes_before::<K>(word(view.memory, low_at(page)), low)
}

// Whether the lows after the page are keys, each after the one before.
#[tactic(auto, using(protocol::proofs::Rebuilds::lows_more, protocol::proofs::Rebuilds::lows_none))]
fn lows_rise<M: KeptMemory, K: KeyKind>(view: &View<M, K>, first: u8) -> bool
    ensures { result ≡ lows_from K.key K.before (M.words view.now.memory.now) view.now.table.now first 64 }
{
    // The index only bounds the walk. As `all` over an iterator of pairs it is no plainer: the iterator would be this loop.
    let mut page = first;
    for _i in 0..64u8 {
        let next = view.table.page_at(page).next;
        if next == 0 {
            return true;
        }
        if !does_low_rise(view, page, next) {
            return false;
        }
        page = next;
    }
    true
}

fn are_lows_right<M: KeptMemory, K: KeyKind>(view: &View<M, K>) -> bool
    ensures { result ≡ lows_right K.key K.before (M.words view.now.memory.now) view.now.table.now }
{
    let first = view.table.first;
    word(view.memory, low_at(first)) == 0 && lows_rise(view, first)
}

// The low of the page after, 0 if there is none.
fn upper_low<M: KeptMemory, K: KeyKind>(view: &View<M, K>, page: u8) -> u64
    ensures { result ≡ upper (M.words view.now.memory.now) view.now.table.now page }
{
    match view.table.page_at(page).next {
        0 => 0,
        next => word(view.memory, low_at(next)),
    }
}

// The keys that a page covers: from its low on, and up to the next page's low; 0 bounds nothing, as it does in the row.
#[derive(Clone, Copy)]
struct Bounds {
    low: u64,
    high: u64,
}

impl Bounds {
    fn holds<K: KeyKind>(self, key: u64) -> bool
        ensures { result ≡ in_range K.before self.low self.high key }
    {
        (self.low == 0 || !K::comes_before(key, self.low))
            && (self.high == 0 || K::comes_before(key, self.high))
    }
}

// Whether a slot's word is a key, in its page's range, and not earlier in the page.
fn is_placed<M: KeptMemory, K: KeyKind>(memory: &M, bounds: Bounds, page: u8, slot: u8) -> bool
    ensures { result ≡ placed K.key K.before (M.words memory.now) bounds.low bounds.high page slot }
{
    let key = word(memory, key_at(page, slot));
    K::is_key(key) && bounds.holds::<K>(key) && Slots::all(memory, page).find(key) == Some(slot)
}

// One more slot with a key.
fn with_slot(tally: Tally, slot: u8, number: u32) -> Tally
    requires { slot < 8 }
    ensures { result ≡ tallied tally slot number }
{
    Tally {
        taken: slot + 1,
        committed: tally.committed | 1 << slot,
        last: tally.last.max(number),
    }
}

// Judges and tallies the slots of a page.
#[tactic(auto, using(protocol::proofs::Rebuilds::slots_more, protocol::proofs::Rebuilds::slots_none))]
fn survey_slots<M: KeptMemory, K: KeyKind>(
    memory: &M,
    bounds: Bounds,
    page: u8,
    last: u32,
) -> Result<Tally, Refusal>
    ensures { result ≡ slots_from K.key K.before (M.words memory.now) bounds.low bounds.high page (record { taken = 0; committed = 0; last = last }) 0 8 }
{
    let mut tally = Tally {
        taken: 0,
        committed: 0,
        last,
    };
    for slot in 0..8u8 {
        if word(memory, key_at(page, slot)) == 0 {
            continue;
        }
        if !is_placed::<M, K>(memory, bounds, page, slot) {
            return Err(Refusal::MisplacedKey);
        }
        let number = number_of(word(memory, value_at(page, slot)));
        if number == 0 {
            return Err(Refusal::NoChangeNumber);
        }
        tally = with_slot(tally, slot, number);
    }
    Ok(tally)
}

fn with_page_tally(table: Table, page: u8, tally: Tally) -> Table
    ensures { result ≡ with_tally table page tally }
{
    let mut table = table;
    let row = table.page_at(page);
    table.set_page(
        page,
        PageRow {
            taken: tally.taken,
            committed: tally.committed,
            ..row
        },
    );
    table.last = tally.last;
    table
}

fn survey_page<M: KeptMemory, K: KeyKind>(
    memory: &M,
    table: Table,
    page: u8,
) -> Result<Table, Refusal>
    ensures { result ≡ page_surveyed K.key K.before (M.words memory.now) table page }
{
    let bounds = Bounds {
        low: word(memory, low_at(page)),
        high: upper_low(&View::<M, K>::new(memory, &table), page),
    };
    let tally = survey_slots::<M, K>(memory, bounds, page, table.last)?;
    Ok(with_page_tally(table, page, tally))
}

// The pages of the list, one after the other.
#[tactic(auto, using(protocol::proofs::Rebuilds::pages_more, protocol::proofs::Rebuilds::pages_none, crate::proofs::Walks::survey_step))]
fn survey_pages<M: KeptMemory, K: KeyKind>(memory: &M, table: Table) -> Result<Table, Refusal>
    ensures { result ≡ pages_from K.key K.before (M.words memory.now) 64 (Ok table) table.first }
{
    // The index only bounds the walk. An iterator over the list would keep hold of the table, whose rows change under way.
    let mut found = table;
    let mut page = table.first;
    for _i in 0..64u8 {
        if page == 0 {
            return Ok(found);
        }
        let next = found.page_at(page).next;
        found = survey_page::<M, K>(memory, found, page)?;
        page = next;
    }
    Ok(found)
}

fn survey_list<M: KeptMemory, K: KeyKind>(memory: &M, count: u8) -> Result<Table, Refusal>
    ensures { result ≡ surveyed_list K.key K.before (M.words memory.now) (chained (M.words memory.now) count) }
{
    let table = follow_head(memory, count)?;
    if !are_lows_right::<M, K>(&View::new(memory, &table)) {
        return Err(Refusal::WrongLow);
    }
    survey_pages::<M, K>(memory, table)
}

// Refused where the row or the count of runners is not taken.
pub fn check_size<M: KeptMemory>(memory: &M, runners: u32) -> Result<(), Refusal>
    ensures value { result ≡ checked tt (size_refusal (M.words memory.now) runners) }
    ensures cases { elim result [ Ok _ ↦ size_refusal (M.words memory.now) runners ≡ None | Err e ↦ size_refusal (M.words memory.now) runners ≡ Some e ] }
{
    let count = memory.count();
    if count < 37 || (count - 1) % 18 != 0 || (count - 1) / 18 > 64 {
        return Err(Refusal::WrongLength);
    }
    if !(1..=8).contains(&runners) {
        return Err(Refusal::WrongCount);
    }
    Ok(())
}

// The table that a rebuild for some runners would set.
pub fn survey<M: KeptMemory, K: KeyKind>(memory: &M, runners: u32) -> Result<Table, Refusal>
    ensures { result ≡ surveyed K.key K.before (M.words memory.now) runners }
{
    check_size(memory, runners)?;
    survey_list::<M, K>(memory, runners as u8)
}
