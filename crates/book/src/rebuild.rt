// Rebuild: the table again from the row, which is not written.
ghost use Rattle.std.specs.Prelude.{◌≡◌};
ghost use Rattle.protocol.specs.Rebuild.{surveyed};
ghost use Rattle.protocol.specs.Calls.{rebuilt};

use crate::book::Book;
use keys::kind::KeyKind;
use memory::kept::KeptMemory;
use protocol::numbers::Refusal;
use protocol::table::Table;
use survey::survey;

impl<M: KeptMemory, K: KeyKind> Book<M, K> {
    // The table that a rebuild for some runners would set; nothing changes.
    pub fn survey(&self, runners: u32) -> Result<Table, Refusal>
        ensures { result ≡ surveyed K.key K.before (M.words self.now.memory) runners }
    {
        survey::<M, K>(&self.memory, runners)
    }

    // Opens the book that stands in the row.
    pub fn rebuild(&mut self, runners: u32) -> Result<(), Refusal>
        ensures after { (self.new.table, result) ≡ rebuilt K.key K.before (M.words self.old.memory) self.old.table runners }
        ensures same { self.new.memory ≡ self.old.memory }
    {
        self.table = self.survey(runners)?;
        Ok(())
    }
}
