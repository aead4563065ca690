ghost use Rattle.std.specs.Prelude.{◌≡◌, ℕ, ◌≤◌, List, length, take, drop};
ghost use Rattle.scales.specs.Bytes.{high_first, pair_bytes};
ghost use Rattle.std.proofs.Common.{rules};

use crate::pair::Pair;
use crate::scale::Scale;
use crate::steps::Steps;
use crate::steps_then_points::StepsThenPoints;

// A scale whose costs can be printed. A printed line holds 64 characters, three for each byte but the last, and in the line of a total two bytes
// stand beside the cost: so a cost has at most 19 bytes.
pub trait PrintedScale: Scale {
    // the most bytes that a cost has
    ghost WIDTH: { ℕ };

    ghost shown: { Self → Self.Cost → List ℕ };

    const WIDTH: usize;

    // Writes the bytes of the cost to the front of `out`, and says how many they are.
    // The bytes are lent and their number is told: a `Vec` could fail for want of memory, and the kit's `arrayvec` would be trusted.
    fn write_bytes(&self, cost: Self::Cost, out: &mut [u8; 19]) -> usize
        ensures so_many_bytes { result ≡ length (shown self.now cost) }
        ensures the_bytes_of_the_cost { take result out.new ≡ shown self.now cost }
        ensures the_rest_is_left_alone { drop result out.new ≡ drop result out.old };

    ghost no_wider: { (s : Self) (cost : Self.Cost) → length (shown s cost) ≤ WIDTH };

    ghost fits_a_line: { WIDTH ≤ 19 };
}

// The steps, in two bytes.
impl PrintedScale for Steps {
    ghost WIDTH = { 2 };

    ghost shown = { λ _ cost. high_first cost };

    ghost no_wider = { Prim.search rules };

    ghost fits_a_line = { Prim.search rules };

    const WIDTH: usize = 2;

    fn write_bytes(&self, cost: u16, out: &mut [u8; 19]) -> usize
        ensures so_many_bytes { result ≡ length (high_first cost) }
        ensures the_bytes_of_the_cost { take result out.new ≡ high_first cost }
        ensures the_rest_is_left_alone { drop result out.new ≡ drop result out.old }
        ensures its_bytes_are_the_steps { ⟦<Steps as PrintedScale>⟧.shown self.now cost ≡ high_first cost }
    {
        out[..2].copy_from_slice(&cost.to_be_bytes());
        2
    }
}

// The steps in two bytes, and then the points in two.
impl PrintedScale for StepsThenPoints {
    ghost WIDTH = { 4 };

    ghost shown = { λ _ cost. pair_bytes cost };

    ghost no_wider = { Prim.search rules };

    ghost fits_a_line = { Prim.search rules };

    const WIDTH: usize = 4;

    fn write_bytes(&self, cost: Pair, out: &mut [u8; 19]) -> usize
        ensures so_many_bytes { result ≡ length (pair_bytes cost) }
        ensures the_bytes_of_the_cost { take result out.new ≡ pair_bytes cost }
        ensures the_rest_is_left_alone { drop result out.new ≡ drop result out.old }
        ensures its_bytes_are_the_steps_and_then_the_points { ⟦<StepsThenPoints as PrintedScale>⟧.shown self.now cost ≡ pair_bytes cost }
    {
        let Pair { steps, points } = cost;
        out[..2].copy_from_slice(&steps.to_be_bytes());
        out[2..4].copy_from_slice(&points.to_be_bytes());
        4
    }
}
