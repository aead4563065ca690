ghost use Rattle.std.specs.Prelude.{◌≡◌, ◌+◌, ◌*◌, ◌<◌, ◌≤◌, slice_index};
ghost use Rattle.frames.specs.Lines.{bytes_of};

use crate::digits::pair_value;
use crate::part::Part;

// The byte with the index `i` of those that a line writes, 0 where there is none: no call of a part fails.
#[tactic(auto, using(crate::proofs::Pairs::byte_here, crate::proofs::Pairs::none_there))]
pub(crate) fn byte_at(line: &[u8], i: usize) -> u8
    requires { i ≤ 256 }
    ensures the_byte_or_zero { result ≡ slice_index (bytes_of line.now) i }
{
    let at = 3 * i;
    if at + 1 < line.len() {
        pair_value(line[at], line[at + 1])
    } else {
        0
    }
}

impl Part<'_> {
    // The byte with the index `i` of the fields, 0 where there is none.
    pub fn byte(&self, i: u8) -> u8
        ensures the_byte_or_zero { result ≡ slice_index (bytes_of self.now.digits.now) i }
    {
        byte_at(self.digits, usize::from(i))
    }

    // The number that the bytes with the indices `i` and `i + 1` of the fields write, the high one first.
    pub fn number(&self, i: u8) -> u16
        ensures two_bytes_the_high_one_first { result ≡ slice_index (bytes_of self.now.digits.now) i * 256 + slice_index (bytes_of self.now.digits.now) (i + 1) }
    {
        let at = usize::from(i);
        u16::from_be_bytes([byte_at(self.digits, at), byte_at(self.digits, at + 1)])
    }
}
