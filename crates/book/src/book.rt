// A book over a kept memory. The memory outlives a cut, the table does not: a cut is to take the memory back and to start closed again.
ghost use Rattle.std.specs.Prelude.{◌≡◌};
ghost use Rattle.protocol.specs.Make.{closed_table};

use protocol::table::Table;
use std::marker::PhantomData;

#[derive(Drop)]
pub struct Book<M, K> {
    pub(crate) memory: M,
    pub(crate) table: Table,
    kind: PhantomData<K>,
}

impl<M, K> Book<M, K> {
    // No book is open over the memory yet.
    pub fn closed(memory: M) -> Book<M, K>
        ensures { (result.memory ≡ memory) × (result.table ≡ closed_table) }
    {
        Book {
            memory,
            table: Table::bare(false, 0, 0),
            kind: PhantomData,
        }
    }

    pub fn memory(&self) -> &M
        ensures { result.now ≡ self.now.memory }
    {
        &self.memory
    }

    pub fn table(&self) -> Table
        ensures { result ≡ self.now.table }
    {
        self.table
    }

    // The memory again; the table is lost.
    pub fn into_memory(self) -> M
        ensures { result ≡ self.memory }
    {
        let Book {
            memory,
            table: _,
            kind: _,
        } = self;
        memory
    }
}
