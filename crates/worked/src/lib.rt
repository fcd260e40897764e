// The worked examples of the bay book: specs/Examples.antt has the table, specs/Script.antt the language that it is written in, and specs/Run.antt what
// each line gives by the definitions of keys, memory and protocol. The contracts of the book's calls cite the same definitions.
#![tactic(auto)]

ghost use Rattle.std.specs.Prelude.{◌≡◌, length};
ghost use Rattle.worked.specs.Run.{AllHold};
ghost use Rattle.worked.specs.Examples.{examples};

// How many worked examples there are. Every line of every one gives what the table says.
pub fn example_count() -> usize
    ensures value { result ≡ length examples }
    ensures answer { AllHold examples }
{
    11
}
