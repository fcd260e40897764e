// A page record: a page's taken count and committed slots, with no committed slot at or above the taken count.
ghost use Rattle.std.specs.Prelude.{◌^◌, ◌<◌, ◌≤◌};

#[derive(Clone, Copy)]
pub struct PageRecord {
    pub taken: u8,
    pub committed: u8,
    ghost few: { taken ≤ 8 },
    ghost below: { committed < 2 ^ taken },
}
