// Page rows: a record is made from a row after a check, changed, and its numbers are written back to the row.
ghost use Rattle.std.specs.Prelude.{◌≡◌, true, false, Some, None};
ghost use Rattle.protocol.specs.Fields.{committed, sound, row_taken, row_committed, no_page};
ghost use Rattle.protocol.specs.Settle.{filled, with_next};
ghost use Rattle.protocol.specs.Split.{slot_after};
ghost use Rattle.protocol.specs.Rows.{numbers_of, numbers_taken, numbers_committed, with_numbers};

use crate::record::PageRecord;
use crate::table::PageRow;

impl PageRecord {
    // The record of a row that has no committed slot at or above its taken count.
    pub fn of(row: PageRow) -> Option<PageRecord>
        ensures { elim result [ Some p ↦ (numbers_of p ≡ (row.taken, row.committed)) × (sound row ≡ true) | None ↦ sound row ≡ false ] }
    {
        if row.taken <= 8 && u16::from(row.committed) < 1 << row.taken {
            Some(PageRecord {
                taken: row.taken,
                committed: row.committed,
            })
        } else {
            None
        }
    }

    // Takes one more slot, if there is one.
    pub fn take(&mut self)
        ensures { numbers_of self.new ≡ numbers_taken (numbers_of self.old) }
    {
        if self.taken < 8 {
            self.taken += 1;
        }
    }

    // Commits a slot, if it is taken.
    pub fn commit(&mut self, slot: u8)
        ensures { numbers_of self.new ≡ numbers_committed (numbers_of self.old) slot }
    {
        if slot < self.taken {
            self.committed |= 1 << slot;
        }
    }
}

impl PageRow {
    // A page that is not in the list.
    pub fn none() -> PageRow
        ensures { result ≡ no_page }
    {
        PageRow {
            listed: false,
            next: 0,
            taken: 0,
            committed: 0,
        }
    }

    pub fn is_committed(self, slot: u8) -> bool
        ensures { result ≡ committed self.committed slot }
    {
        is_set(self.committed, slot)
    }

    fn with_record(self, record: PageRecord) -> PageRow
        ensures { result ≡ with_numbers self (numbers_of «record») }
    {
        PageRow {
            taken: record.taken,
            committed: record.committed,
            ..self
        }
    }

    // One more slot is taken. (One function for this and the next, with the change as a closure, is no plainer: its contract is longer than both.)
    pub fn with_slot_taken(self) -> PageRow
        ensures { result ≡ row_taken self }
    {
        let Some(mut record) = PageRecord::of(self) else {
            return self;
        };
        record.take();
        self.with_record(record)
    }

    // A taken slot is committed.
    pub fn with_slot_committed(self, slot: u8) -> PageRow
        ensures { result ≡ row_committed self slot }
    {
        let Some(mut record) = PageRecord::of(self) else {
            return self;
        };
        record.commit(slot);
        self.with_record(record)
    }

    pub fn with_next(self, next: u8) -> PageRow
        ensures { result ≡ with_next self next }
    {
        PageRow { next, ..self }
    }

    // A listed page whose first slots are taken and committed.
    pub fn filled(next: u8, slots: u8) -> PageRow
        ensures { result ≡ filled next slots }
    {
        if slots > 8 {
            return PageRow {
                listed: true,
                next,
                taken: 0,
                committed: 0,
            };
        }
        let committed = ((1u16 << slots) - 1) as u8;
        PageRow {
            listed: true,
            next,
            taken: slots,
            committed,
        }
    }
}

// Whether a slot's bit is set.
pub fn is_set(bits: u8, slot: u8) -> bool
    ensures { result ≡ committed bits slot }
{
    slot < 8 && bits >> slot & 1 == 1
}

// The slot after, and no further than 8.
pub fn slot_after(slot: u8) -> u8
    ensures { result ≡ slot_after slot }
{
    slot.saturating_add(1).min(8)
}
