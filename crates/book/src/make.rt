// Make: a new, empty book in the row.
ghost use Rattle.std.specs.Prelude.{◌≡◌};
ghost use Rattle.protocol.specs.Make.{made_table, all_stored, make_stores};
ghost use Rattle.protocol.specs.Calls.{made};

use crate::book::Book;
use keys::kind::KeyKind;
use memory::kept::KeptMemory;
use protocol::numbers::Refusal;
use protocol::table::{PageRow, Table};
use survey::check_size;

fn store_all<M: KeptMemory>(memory: &mut M, stores: &[(usize, u64)])
    ensures row { M.words memory.new ≡ all_stored (M.words memory.old) stores.now }
    ensures beside { M.rest memory.new ≡ M.rest memory.old }
{
    for (at, word) in stores {
        let _ = memory.store(*at, *word);
    }
}

fn new_table(count: u8) -> Table
    ensures { result ≡ made_table count }
{
    let mut table = Table::bare(true, count, 1);
    table.set_page(1, PageRow::filled(0, 0));
    table
}

// The head is 0 until all else is stored, so that a cut in between leaves no half-made book.
fn store_new_book<M: KeptMemory>(memory: &mut M)
    ensures row { M.words memory.new ≡ all_stored (M.words memory.old) make_stores }
    ensures beside { M.rest memory.new ≡ M.rest memory.old }
{
    store_all(
        memory,
        &[
            (0, 0),
            (1, 0),
            (2, 0),
            (3, 0),
            (5, 0),
            (7, 0),
            (9, 0),
            (11, 0),
            (13, 0),
            (15, 0),
            (17, 0),
            (0, 1),
        ],
    );
}

impl<M: KeptMemory, K: KeyKind> Book<M, K> {
    // Makes a new book for some runners.
    pub fn make(&mut self, runners: u32) -> Result<(), Refusal>
        ensures after { (M.words self.new.memory, self.new.table, result) ≡ made (M.words self.old.memory) self.old.table runners }
        ensures beside { M.rest self.new.memory ≡ M.rest self.old.memory }
    {
        check_size(&self.memory, runners)?;
        store_new_book(&mut self.memory);
        self.table = new_table(runners as u8);
        Ok(())
    }
}
