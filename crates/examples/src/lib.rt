// The worked examples that the definitions are proved to yield.
#![tactic(auto)]

ghost use Rattle.std.specs.Prelude.{◌≡◌, length};
ghost use Rattle.examples.specs.Table.{table, TheDefinitionsYieldEveryExample};

// How many examples there are.
pub fn how_many() -> u8
    ensures how_many_there_are { result ≡ length table }
    ensures the_definitions_yield_every_example { TheDefinitionsYieldEveryExample }
{
    // the table stands in the proofs alone, so the program has no list to count
    11
}
