ghost use Rattle.std.specs.Prelude.{◌≡◌, ◌*◌, ◌<◌, ◌≤◌, length};
ghost use Rattle.std.specs.List.{AllByRecursion};
ghost use Rattle.frames.specs.Text.{digit_of, trio, line_of, written};

// The digit of a value. By hand: `{:02X}` writes through a formatter, and `char::from_digit` gives lower case and a char.
fn digit_of(value: u8) -> u8
    requires { value < 16 }
    ensures the_digit_of_the_value { result ≡ digit_of value }
{
    if value < 10 {
        b'0' + value
    } else {
        b'A' + (value - 10)
    }
}

// The two digits of a byte, and the character behind them.
fn trio(byte: u8, behind: u8) -> [u8; 3]
    ensures the_digits_and_what_is_behind { result ≡ trio byte behind }
{
    [digit_of(byte / 16), digit_of(byte % 16), behind]
}

// Writes a line to the front of the writing place.
pub(crate) fn write_line(bytes: &[u8], out: &mut [u8])
    requires bytes_in_bounds { 3 * length bytes.now ≤ length out.old }
    requires bytes_nonzero { 0 < length bytes.now }
    ensures the_line_is_written { out.new ≡ written out.old 0 (line_of bytes.now) }
    ensures all_are_bytes { AllByRecursion (λ b. b < 256) bytes.now }
{
    // the place is counted: after a loop over `chunks_exact_mut` a proof does not know what was written
    for (i, byte) in bytes.iter().enumerate() {
        let behind = if i + 1 == bytes.len() { b'\n' } else { b' ' };
        out[3 * i..3 * i + 3].copy_from_slice(&trio(*byte, behind));
    }
}
