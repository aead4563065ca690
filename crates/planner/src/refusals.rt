ghost use Rattle.std.specs.Prelude.{◌≡◌, length};
ghost use Rattle.planner.specs.Refusals.{numbers, TheBookHasNoOtherNumbers, TheseCallsMeetEveryRefusalOnce};

// How many numbers the book declines calls with.
pub fn numbers_of_the_book() -> u8
    ensures how_many_there_are { result ≡ length numbers }
    ensures the_book_has_no_other_numbers { TheBookHasNoOtherNumbers }
    ensures a_list_of_calls_meets_every_refusal_of_the_book_once { TheseCallsMeetEveryRefusalOnce }
{
    // the book stands in the proofs alone, so the program has no list to count
    14
}
