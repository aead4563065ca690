ghost use Rattle.std.specs.Prelude.{◌≡◌, ◌≤◌, length, drop};
ghost use Rattle.std.specs.List.{enumerate_from, prefix_len};
ghost use Rattle.frames.specs.Lines.{right, fault_from, fault_of, place_of};
ghost use Rattle.frames.specs.Frames.{shown, read_as, KindThenFields};

use crate::digits::value_of;
use crate::fields::byte_at;
use crate::frame::Frame;
use crate::kind::Kind;
use crate::part::Part;
use track::refusal::Refusal;

// Whether `x` may stand at the place `i`: the places go digit, digit, space.
fn is_right(i: usize, x: u8) -> bool
    ensures whether_it_may_stand_there { result ≡ right i x }
{
    if i % 3 == 2 {
        x == b' '
    } else {
        value_of(x).is_some()
    }
}

// How many bytes from the start of a line may stand where they do.
fn right_bytes(line: &[u8]) -> usize
    ensures as_many_as_are_right { result ≡ prefix_len (λ p. right p.0 p.1) (enumerate_from 0 line.now) }
    ensures not_more_than_there_are { result ≤ length line.now }
{
    line.iter()
        .enumerate()
        .take_while(|(i, x)| is_right(*i, **x))
        .count()
}

// The place of the first wrong byte, if there is one; the line's length, where a digit is missing at the end.
#[tactic(auto, using(crate::proofs::Faults::wrong_there, crate::proofs::Faults::right_to_the_end), unfolding(crate::specs::Lines::fault_from))]
fn first_wrong(line: &[u8]) -> Option<u8>
    requires { length line.now ≤ 64 }
    ensures the_first_wrong_place { result ≡ fault_from 0 line.now }
{
    let right = right_bytes(line);
    let whole = right == line.len() && right % 3 == 2;
    // the cast is proved to lose nothing: `u8::try_from` with an `unwrap` would say no more
    (!whole).then_some(right as u8)
}

// The place of the first fault of a line, if it has one: a line holds 1 to 64 bytes.
fn fault(line: &[u8]) -> Option<u8>
    ensures the_first_fault { result ≡ fault_of line.now }
{
    match line.len() {
        0 => Some(0),
        1..=64 => first_wrong(line),
        _ => Some(64),
    }
}

// What stands behind the kind and the space after it.
fn fields_of(line: &[u8]) -> Part<'_>
    ensures what_stands_there { result.digits.now ≡ drop (place_of line.now) line.now }
    ensures where_it_begins { result.place ≡ place_of line.now }
{
    let place = line.len().min(3);
    Part {
        digits: &line[place..],
        place,
    }
}

// The frame of a line without its ending 0A, or why it is none: 27 with the place of the first fault, otherwise 28.
pub fn read(line: &[u8]) -> Result<Frame<'_>, Refusal>
    ensures the_frame_or_the_first_refusal { shown result ≡ read_as line.now }
    ensures the_line_writes_the_kind_and_then_the_fields { KindThenFields line.now }
{
    if let Some(place) = fault(line) {
        return Err(Refusal::NotPairsOfDigits(place));
    }
    let kind = Kind::try_from(byte_at(line, 0))?;
    if kind.size() != (line.len() + 1) / 3 {
        return Err(Refusal::UnknownFrame);
    }
    Ok(kind.framed(fields_of(line)))
}
