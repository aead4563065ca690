ghost use Rattle.std.specs.Prelude.{◌≡◌, ◌+◌, ◌<◌, ◌≤◌, ◌++◌, take, drop, map};
ghost use Rattle.std.specs.List.{range_with_len};
ghost use Rattle.words.specs.Rows.{Rows, Written, planned};

use crate::chosen::Chosen;
use sheets::sheet::Sheet;
use std::array;

// Where the i-th of k trains is at the time t, by its start and the plan.
#[tactic(auto, unfolding(crate::specs::Rows::planned))]
fn planned(start: u8, plan: &[u8; 128], k: usize, i: usize, t: usize) -> u8
    requires of_the_trains { i < k }
    requires few { k ≤ 8 }
    requires in_time { t ≤ 16 }
    ensures the_start_and_then_as_planned { result ≡ planned start plan.now k i t }
{
    if t == 0 { start } else { plan[k * (t - 1) + i] }
}

// Where the i-th of k trains is at each time.
fn line_of(start: u8, plan: &[u8; 128], k: usize, i: usize) -> [u8; 17]
    requires of_the_trains { i < k }
    requires few { k ≤ 8 }
    ensures its_section_at_each_time { result ≡ map (planned start plan.now k i) (range_with_len 0 17) }
{
    array::from_fn(|t| planned(start, plan, k, i, t))
}

// The line up to a time, and the old row after it.
fn up_to(last: usize, line: [u8; 17], old: [u8; 17]) -> [u8; 17]
    requires { last ≤ 16 }
    ensures the_line_and_then_the_old_row { result ≡ take (last + 1) line ++ drop (last + 1) old }
{
    let mut row = old;
    row[..=last].copy_from_slice(&line[..=last]);
    row
}

// Writes the plan into the group's rows.
pub fn write(sheet: &mut Sheet, chosen: &Chosen, plan: &[u8; 128], steps: usize)
    requires rows { Rows chosen.now }
    requires few { steps ≤ 16 }
    ensures the_plan_and_nothing_else_is_written { Written chosen.now plan.now steps chosen.now.trains sheet.old sheet.new }
{
    for (i, &row) in chosen.row[..chosen.trains].iter().enumerate() {
        let line = line_of(chosen.start[i], plan, chosen.trains, i);
        sheet.rows[row] = up_to(steps, line, sheet.rows[row]);
    }
}
