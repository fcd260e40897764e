// Where the words of a page stand in the row: one function a rule.
ghost use Rattle.std.specs.Prelude.{◌≡◌};
ghost use Rattle.protocol.specs.Layout.{page_start, next_at, low_at, key_at, value_at};

fn page_start(page: u8) -> usize
    ensures { result ≡ page_start page }
{
    (18 * usize::from(page)).saturating_sub(17)
}

pub fn next_at(page: u8) -> usize
    ensures { result ≡ next_at page }
{
    page_start(page)
}

pub fn low_at(page: u8) -> usize
    ensures { result ≡ low_at page }
{
    page_start(page) + 1
}

pub fn key_at(page: u8, slot: u8) -> usize
    ensures { result ≡ key_at page slot }
{
    page_start(page) + 2 + 2 * usize::from(slot)
}

pub fn value_at(page: u8, slot: u8) -> usize
    ensures { result ≡ value_at page slot }
{
    page_start(page) + 3 + 2 * usize::from(slot)
}
