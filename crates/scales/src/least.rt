ghost use Rattle.std.specs.Prelude.{◌≡◌, length, None, slice_index_or};
ghost use Rattle.scales.specs.Runs.{FirstLeast, nearer};

use crate::scale::Scale;

// The lower of the best so far and of the cell at i; a tie keeps the earlier place.
fn lower_of<S: Scale>(
    scale: &S,
    best: Option<(usize, S::Cost)>,
    i: usize,
    cell: Option<S::Cost>,
) -> Option<(usize, S::Cost)>
    ensures the_lower_and_in_a_tie_the_earlier { result ≡ nearer (S.Scale.measure scale.now) best i cell }
{
    match cell {
        Some(new) if best.is_none_or(|(_, old)| scale.lower(new, old)) => Some((i, new)),
        _ => best,
    }
}

// The place and the cost of the first of the least of a run of cells; nothing where all are empty.
// A loop: `min_by` asks for an `Ordering`, and a scale says only which of two is lower.
pub fn first_least<S: Scale>(scale: &S, run: &[Option<S::Cost>]) -> Option<(usize, S::Cost)>
    ensures the_first_of_the_least { FirstLeast (S.Scale.measure scale.now) (length run.now) (λ i. slice_index_or run.now i None) result }
{
    let mut best = None;
    for (i, cell) in run.iter().enumerate() {
        best = lower_of(scale, best, i, *cell);
    }
    best
}
