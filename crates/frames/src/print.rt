ghost use Rattle.std.specs.Prelude.{◌≡◌, ◌+◌, ◌*◌, ◌≤◌, ◌∷◌, ◌++◌, length, take};
ghost use Rattle.std.specs.List.{AllByRecursion};
ghost use Rattle.scales.specs.Bytes.{high_first};
ghost use Rattle.frames.specs.Text.{text, written, printing, printed, ReadsBack, EachReadsBack, RoundTrip};
ghost use Rattle.frames.specs.Cuts.{TextIntoItsLines};
ghost use Rattle.frames.specs.Replies.{refusal_lines, total_bytes, train_lines, lines_of_plan};

use crate::line::write_line;
use crate::plan::Plan;
use scales::printed::PrintedScale;
use sheets::sheet::Sheet;
use track::refusal::Refusal;

// The kinds of the lines that are printed: for each train, for the total, and for a refusal.
// Three numbers and no enum: each is only written, and nothing asks which of them a line is.
const TRAIN: u8 = 0x10;

const TOTAL: u8 = 0x11;

const REFUSAL: u8 = 0x1F;

// The bytes of a train's line, with where it stands at all 17 times.
fn train_bytes(number: u16, sections: &[u8; 17]) -> [u8; 20]
    ensures its_number_and_where_it_stands { result ≡ 16 ∷ (high_first number ++ sections.now) }
{
    let mut bytes = [0; 20];
    bytes[0] = TRAIN;
    bytes[1..3].copy_from_slice(&number.to_be_bytes());
    bytes[3..].copy_from_slice(sections);
    bytes
}

// The bytes of the line of the total, from the bytes of the cost. The array is as long as the longest such line:
// printing works in fixed memory. The line is its front, two bytes more than the cost has.
fn total_bytes(cost: &[u8], groups: u8) -> [u8; 21]
    requires { length cost.now ≤ 19 }
    ensures the_cost_and_the_groups { take (length cost.now + 2) result ≡ total_bytes cost.now groups }
{
    let mut bytes = [0; 21];
    bytes[0] = TOTAL;
    bytes[1..1 + cost.len()].copy_from_slice(cost);
    bytes[1 + cost.len()] = groups;
    bytes
}

// Writes a line for each train, from the start of the writing place.
fn write_trains(numbers: &[u16], sheet: &Sheet, steps: usize, out: &mut [u8])
    requires at_most_eight { length numbers.now ≤ 8 }
    requires steps_bound { steps ≤ 16 }
    requires steps_in_bounds { length numbers.now * (3 * (4 + steps)) ≤ length out.old }
    ensures their_lines_are_written { out.new ≡ written out.old 0
        (text (train_lines numbers.now sheet.now steps (length numbers.now))) }
    ensures each_can_be_read_again { AllByRecursion ReadsBack (train_lines numbers.now sheet.now steps (length numbers.now)) }
{
    // the place is counted by the row: after a loop over `chunks_exact_mut` a proof does not know what was written
    for (row, number) in numbers.iter().enumerate() {
        let bytes = train_bytes(*number, &sheet.rows[row]);
        write_line(&bytes[..4 + steps], &mut out[row * (3 * (4 + steps))..]);
    }
}

// Prints why a frame was declined, into a place that is lent, and tells the length: printing asks for no memory, so nothing of it
// can fail but for a place that is too short.
pub fn print_refusal(refusal: &Refusal, out: &mut [u8]) -> Result<usize, Refusal>
    ensures its_length_or_that_it_does_not_fit { result ≡ printing out.old (text (refusal_lines refusal.now)) }
    ensures just_the_text_or_nothing_is_written { out.new ≡ printed out.old (text (refusal_lines refusal.now)) }
    ensures its_line_can_be_read_again { EachReadsBack result (refusal_lines refusal.now) }
{
    if out.len() < 6 {
        return Err(Refusal::WritingPlaceTooShort);
    }
    write_line(&[REFUSAL, refusal.number()], out);
    Ok(6)
}

// Prints a plan: where each train stands at times 0 to the last, the cost, and how many groups there are.
// What is printed goes by the plan and the scale alone.
pub fn print_plan<S: PrintedScale>(
    scale: &S,
    plan: &Plan<S::Cost>,
    out: &mut [u8],
) -> Result<usize, Refusal>
    ensures its_length_or_that_it_does_not_fit { result ≡ printing out.old
        (text (lines_of_plan (S.PrintedScale.shown scale.now) plan.now)) }
    ensures just_the_text_or_nothing_is_written { out.new ≡ printed out.old
        (text (lines_of_plan (S.PrintedScale.shown scale.now) plan.now)) }
    ensures its_lines_can_be_read_again { EachReadsBack result (lines_of_plan (S.PrintedScale.shown scale.now) plan.now) }
    ensures a_text_is_cut_into_its_lines { TextIntoItsLines }
    ensures what_is_printed_can_be_read_again { RoundTrip }
{
    let mut shown = [0; 19];
    let width = scale.write_bytes(plan.cost, &mut shown);
    let numbers = plan.numbers.items();
    let front = numbers.len() * (3 * (4 + plan.steps));
    let length = front + 3 * (width + 2);
    if out.len() < length {
        return Err(Refusal::WritingPlaceTooShort);
    }
    write_trains(numbers, &plan.sheet, plan.steps, out);
    let bytes = total_bytes(&shown[..width], plan.groups);
    write_line(&bytes[..width + 2], &mut out[front..]);
    Ok(length)
}
