// The slots of a page: which keys stand in them.
ghost use Rattle.std.specs.Prelude.{◌≡◌};
ghost use Rattle.protocol.specs.Fields.{page_at};
ghost use Rattle.protocol.specs.Search.{holds as slot_holds, found, live, live_from};
ghost use Rattle.protocol.specs.Locate.{live_key, live_keys};

use crate::row::word;
use memory::kept::KeptMemory;
use protocol::layout::key_at;
use protocol::rows::is_set;
use protocol::table::Table;
use std::array;

// Those slots of a page whose bit is set.
#[derive(Drop)]
pub struct Slots<'a, M> {
    memory: &'a M,
    page: u8,
    bits: u8,
}

impl<'a, M: KeptMemory> Slots<'a, M> {
    pub fn of(memory: &'a M, page: u8, bits: u8) -> Slots<'a, M>
        ensures { (result.memory.now ≡ memory.now) × (result.page ≡ page) × (result.bits ≡ bits) }
    {
        Slots { memory, page, bits }
    }

    // All slots, whatever is committed.
    pub fn all(memory: &'a M, page: u8) -> Slots<'a, M>
        ensures { (result.memory.now ≡ memory.now) × (result.page ≡ page) × (result.bits ≡ 255) }
    {
        Slots::of(memory, page, 255)
    }

    // The committed slots of the page.
    pub fn committed(memory: &'a M, table: &Table, page: u8) -> Slots<'a, M>
        ensures { (result.memory.now ≡ memory.now) × (result.page ≡ page) × (result.bits ≡ (page_at table.now page).committed) }
    {
        Slots::of(memory, page, table.page_at(page).committed)
    }

    fn holds(&self, slot: u8, key: u64) -> bool
        ensures { result ≡ slot_holds (M.words self.now.memory.now) self.now.bits self.now.page key slot }
    {
        is_set(self.bits, slot) && word(self.memory, key_at(self.page, slot)) == key
    }

    // The first slot that holds the key.
    // A loop that yields its slot by break is this project's form for the search of a page; the searches below are chains.
    #[tactic(auto, using(protocol::proofs::First::first_more, protocol::proofs::First::first_none))]
    pub fn find(&self, key: u64) -> Option<u8>
        ensures { result ≡ found (M.words self.now.memory.now) self.now.bits self.now.page key }
    {
        // The same slots by value: through `self` their page and memory are read again at each slot.
        let slots = Slots::of(self.memory, self.page, self.bits);
        let mut slot = 0;
        loop {
            if slot >= 8 {
                break None;
            }
            if slots.holds(slot, key) {
                break Some(slot);
            }
            slot += 1;
        }
    }

    fn is_live(&self, slot: u8) -> bool
        ensures { result ≡ live (M.words self.now.memory.now) self.now.bits self.now.page slot }
    {
        is_set(self.bits, slot) && word(self.memory, key_at(self.page, slot)) != 0
    }

    // The first slot from `from` on with a nonzero key.
    pub fn next_live(&self, from: u8) -> Option<u8>
        ensures { result ≡ live_from (M.words self.now.memory.now) self.now.bits self.now.page from }
    {
        (from..8).find(|slot| self.is_live(*slot))
    }

    // 0 and no Option: key word 0 is no key in the row, and ranks are counted over whole words.
    fn key(&self, slot: u8) -> u64
        ensures { result ≡ live_key (M.words self.now.memory.now) self.now.bits self.now.page slot }
    {
        if is_set(self.bits, slot) {
            word(self.memory, key_at(self.page, slot))
        } else {
            0
        }
    }

    // The keys of the slots, 0 for the others.
    pub fn keys(&self) -> [u64; 8]
        ensures { result ≡ live_keys (M.words self.now.memory.now) self.now.bits self.now.page }
    {
        array::from_fn(|slot| self.key(slot as u8))
    }
}
