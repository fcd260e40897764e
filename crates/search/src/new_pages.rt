// Where a split takes a key: its page among the new ones, and its slot there.
ghost use Rattle.std.specs.Prelude.{◌≡◌};
ghost use Rattle.protocol.specs.Search.{on_right, new_page, new_slot};

use crate::slots::Slots;
use keys::kind::KeyKind;
use memory::kept::KeptMemory;
use protocol::table::Split;

// Whether the key's new page is the right one.
pub fn goes_right<K: KeyKind>(split: Split, key: u64) -> bool
    ensures { result ≡ on_right K.before split key }
{
    split.right != 0 && !K::comes_before(key, split.key)
}

// A key's page among the new ones of a split.
pub fn new_page<K: KeyKind>(split: Split, key: u64) -> u8
    ensures { result ≡ new_page K.before split key }
{
    if goes_right::<K>(split, key) {
        split.right
    } else {
        split.left
    }
}

// The key's slot in its new page, whatever is committed there.
pub fn new_slot<M: KeptMemory, K: KeyKind>(memory: &M, split: Split, key: u64) -> Option<u8>
    ensures { result ≡ new_slot K.before (M.words memory.now) split key }
{
    Slots::all(memory, new_page::<K>(split, key)).find(key)
}
