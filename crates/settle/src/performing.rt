// The one access of a step: the only place where a step writes the row.
ghost use Rattle.std.specs.Prelude.{◌≡◌};
ghost use Rattle.protocol.specs.Settle.{performed, outcome};

use memory::kept::KeptMemory;
use protocol::moves::{Access, Outcome};
use search::word;

pub fn perform<M: KeptMemory>(memory: &mut M, access: Access) -> Outcome
    ensures row { M.words memory.new ≡ performed (M.words memory.old) access }
    ensures answer { result ≡ outcome (M.words memory.old) access }
    ensures beside { M.rest memory.new ≡ M.rest memory.old }
{
    match access {
        Access::Nothing => Outcome::Nothing,
        Access::Load(at) => Outcome::Loaded(word(memory, at)),
        Access::Store(at, word) => {
            let _ = memory.store(at, word);
            Outcome::Nothing
        }
        Access::Swap(at, expected, new) => {
            Outcome::Swapped(memory.swap(at, expected, new).unwrap_or(false))
        }
    }
}
