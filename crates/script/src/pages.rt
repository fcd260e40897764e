// The pages of a table's list, in its order.
ghost use Rattle.std.specs.Iterator.{at_most};

use protocol::table::Table;

const MOST_PAGES: u8 = 64;

// A type of its own: no function can hand out the iterator that `successors` makes of a closure.
#[derive(Drop)]
pub(crate) struct Pages<'a> {
    table: &'a Table,
    next: u8,
    left: u8,
}

impl<'a> Pages<'a> {
    pub(crate) fn of(table: &'a Table) -> Pages<'a> {
        Pages {
            table,
            next: table.first,
            left: MOST_PAGES,
        }
    }
}

impl Iterator for Pages<'_> {
    type Item = u8;

    ghost remaining = { λ s. at_most s.left };

    fn next(&mut self) -> Option<u8> {
        if self.next == 0 {
            return None;
        }
        self.left = self.left.checked_sub(1)?;
        let page = self.next;
        self.next = self.table.page_at(page).next;
        Some(page)
    }
}
