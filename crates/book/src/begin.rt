// Begin: a runner takes on an operation.
ghost use Rattle.std.specs.Prelude.{◌≡◌};
ghost use Rattle.protocol.specs.Search.{first_from, is_some};
ghost use Rattle.protocol.specs.Calls.{enters as enters_key, begun_drawing, begun_with, begun};

use crate::book::Book;
use crate::step::runner_index;
use keys::kind::KeyKind;
use memory::kept::KeptMemory;
use protocol::numbers::{Operation, Refusal};
use protocol::table::{Activity, Runner, Stage, Table};
use values::value_word::fresh;

// The largest change number.
const LAST_NUMBER: u32 = 2147483647;

fn enters(table: &Table, key: u64, i: usize) -> bool
    ensures { result ≡ enters_key table.now key i }
{
    let x = table.runner_at(i);
    x.operation == Operation::Enter && x.key == key && x.stage.activity() == Activity::Open
}

// Whether some open enter has the key.
fn is_being_entered(table: &Table, key: u64) -> bool
    ensures { result ≡ is_some (first_from (enters_key table.now key) 0 8) }
{
    (0..8).any(|i| enters(table, key, i))
}

// What a runner is asked for.
#[derive(Clone, Copy)]
struct Asked {
    operation: Operation,
    key: u64,
    value: u32,
}

// The operation starts at locating; an enter or a change draws its change number.
fn start(table: &mut Table, i: usize, asked: Asked) -> Result<(), Refusal>
    ensures { (table.new, result) ≡ begun_drawing table.old i asked.key asked.value asked.operation }
{
    let Asked {
        operation,
        key,
        value,
    } = asked;
    let mut word = 0;
    if operation.draws() {
        if table.last >= LAST_NUMBER {
            return Err(Refusal::NumbersSpent);
        }
        table.last += 1;
        word = fresh(table.last, value);
    }
    table.set_runner(
        i,
        Runner {
            operation,
            key,
            word,
            stage: Stage::Locating,
        },
    );
    Ok(())
}

fn begin_with<K: KeyKind>(table: &mut Table, i: usize, asked: Asked) -> Result<(), Refusal>
    ensures { (table.new, result) ≡ begun_with K.key table.old i asked.key asked.value asked.operation }
{
    if !K::is_key(asked.key) {
        return Err(Refusal::NotAKey);
    }
    if asked.operation == Operation::Enter && is_being_entered(table, asked.key) {
        return Err(Refusal::BeingEntered);
    }
    start(table, i, asked)
}

impl<M: KeptMemory, K: KeyKind> Book<M, K> {
    // An idle runner, counted from 1, takes on the operation of that number. It is a number and no Operation, since one that is none is refused here.
    pub fn begin(
        &mut self,
        runner: u32,
        operation: u32,
        key: u64,
        value: u32,
    ) -> Result<(), Refusal>
        ensures after { (self.new.table, result) ≡ begun K.key self.old.table runner operation key value }
        ensures same { self.new.memory ≡ self.old.memory }
    {
        let i = runner_index(&self.table, runner)?;
        if self.table.runner_at(i).stage != Stage::Idle {
            return Err(Refusal::Busy);
        }
        let asked = Asked {
            operation: Operation::try_from(operation)?,
            key,
            value,
        };
        begin_with::<K>(&mut self.table, i, asked)
    }
}
