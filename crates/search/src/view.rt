// What a step sees before it acts: the row, the table, and by the kind the order of the keys.
ghost use Rattle.std.specs.Prelude.{◌≡◌};
ghost use Rattle.protocol.specs.Fields.{page_at};
ghost use Rattle.protocol.specs.Search.{on_right, new_page, new_slot, ends_before, covering};

use crate::new_pages::{goes_right, new_page, new_slot};
use crate::row::word;
use crate::slots::Slots;
use keys::kind::KeyKind;
use memory::kept::KeptMemory;
use protocol::layout::low_at;
use protocol::table::{Split, Table};
use std::marker::PhantomData;

#[derive(Drop)]
pub struct View<'a, M, K> {
    pub memory: &'a M,
    pub table: &'a Table,
    kind: PhantomData<K>,
}

impl<'a, M: KeptMemory, K: KeyKind> View<'a, M, K> {
    pub fn new(memory: &'a M, table: &'a Table) -> View<'a, M, K>
        ensures { (result.memory.now ≡ memory.now) × (result.table.now ≡ table.now) }
    {
        View {
            memory,
            table,
            kind: PhantomData,
        }
    }

    // The committed slots of the page.
    pub fn committed(&self, page: u8) -> Slots<'a, M>
        ensures { (result.memory.now ≡ self.now.memory.now) × (result.page ≡ page) × (result.bits ≡ (page_at self.now.table.now page).committed) }
    {
        Slots::committed(self.memory, self.table, page)
    }

    // Whether the key's new page is the right one.
    pub fn goes_right(&self, split: Split, key: u64) -> bool
        ensures { result ≡ on_right K.before split key }
    {
        goes_right::<K>(split, key)
    }

    // A key's page among the new ones of a split.
    pub fn new_page(&self, split: Split, key: u64) -> u8
        ensures { result ≡ new_page K.before split key }
    {
        new_page::<K>(split, key)
    }

    // The key's slot in its new page, whatever is committed there.
    pub fn new_slot(&self, split: Split, key: u64) -> Option<u8>
        ensures { result ≡ new_slot K.before (M.words self.now.memory.now) split key }
    {
        new_slot::<M, K>(self.memory, split, key)
    }

    fn ends_before(&self, key: u64, next: u8) -> bool
        ensures { result ≡ ends_before K.before (M.words self.now.memory.now) key next }
    {
        next == 0 || K::comes_before(key, word(self.memory, low_at(next)))
    }

    // The listed page that covers the key.
    #[tactic(auto, using(protocol::proofs::Cover::cover_more, protocol::proofs::Cover::cover_none))]
    pub fn covering_page(&self, key: u64) -> u8
        ensures { result ≡ covering K.before (M.words self.now.memory.now) self.now.table.now key }
    {
        // The index only bounds the walk. An iterator over the list is no plainer: it ends with the list, and this goes on to say where it stood.
        let mut page = self.table.first;
        for _i in 0..64u8 {
            let next = self.table.page_at(page).next;
            if self.ends_before(key, next) {
                return page;
            }
            page = next;
        }
        page
    }
}
