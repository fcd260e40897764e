// The pairs that stand in a row.
use crate::key_text::{KeyText, key_word};
use crate::pages::Pages;
use memory::kept::KeptMemory;
use protocol::layout::{key_at, value_at};
use protocol::table::Table;
use search::word;
use std::fmt;
use std::marker::PhantomData;
use values::value_word::value_of;

// The pairs in the pages of a table's list, and how many they are.
#[derive(Drop)]
pub(crate) struct PairsText<'a, M, K> {
    memory: &'a M,
    table: &'a Table,
    kind: PhantomData<K>,
}

impl<'a, M: KeptMemory, K: KeyText> PairsText<'a, M, K> {
    pub(crate) fn of(memory: &'a M, table: &'a Table) -> PairsText<'a, M, K> {
        PairsText {
            memory,
            table,
            kind: PhantomData,
        }
    }

    // The key and the value in a slot, if there is a key.
    fn pair_at(&self, page: u8, slot: u8) -> Option<(u64, u32)> {
        match word(self.memory, key_at(page, slot)) {
            0 => None,
            key => Some((key, value_of(word(self.memory, value_at(page, slot))))),
        }
    }
}

impl<M: KeptMemory, K: KeyText> fmt::Display for PairsText<'_, M, K> {
    fn fmt<W: fmt::Write>(&self, f: &mut fmt::Formatter<W>) -> fmt::Result {
        let slots = Pages::of(self.table).flat_map(|page| (0..8).map(move |slot| (page, slot)));
        // Saturating: tried as `+= 1` and by `count`, whose proofs did not close, since how many items a `flat_map` gives is not known.
        let mut count = 0u64;
        for (key, value) in slots.filter_map(|(page, slot)| self.pair_at(page, slot)) {
            writeln!(f, "{} {value}", key_word::<K>(key))?;
            count = count.saturating_add(1);
        }
        write!(f, "{count} pairs")
    }
}
