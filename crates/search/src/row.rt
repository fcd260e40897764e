// What is read of the row.
ghost use Rattle.std.specs.Prelude.{◌≡◌};
ghost use Rattle.protocol.specs.Layout.{word as word_of, page_count};
ghost use Rattle.protocol.specs.Search.{stands as slot_stands, standing_from};

use memory::kept::KeptMemory;
use protocol::layout::key_at;
use protocol::table::Split;

// A word of the row; past its end every word reads 0.
pub fn word<M: KeptMemory>(memory: &M, at: usize) -> u64
    ensures { result ≡ word_of (M.words memory.now) at }
{
    memory.load(at).unwrap_or(0)
}

// How many pages the row has.
pub fn pages_of<M: KeptMemory>(memory: &M) -> u8
    ensures { result ≡ page_count (M.words memory.now) }
{
    (memory.count().saturating_sub(1) / 18).min(64) as u8
}

fn stands<M: KeptMemory>(memory: &M, split: Split, slot: u8) -> bool
    ensures { result ≡ slot_stands (M.words memory.now) split slot }
{
    let copy = split.copy_at(slot);
    copy.page != 0 && word(memory, key_at(copy.page, copy.slot)) != 0
}

// The first copied slot from `from` on that is not gone.
pub fn next_standing<M: KeptMemory>(memory: &M, split: Split, from: u8) -> Option<u8>
    ensures { result ≡ standing_from (M.words memory.now) split from }
{
    (from..8).find(|slot| stands(memory, split, *slot))
}
