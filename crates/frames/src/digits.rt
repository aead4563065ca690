ghost use Rattle.std.specs.Prelude.{◌≡◌, ◌+◌, ◌*◌, ◌<◌};
ghost use Rattle.std.specs.Option.{ForSome};
ghost use Rattle.frames.specs.Lines.{value_of, pair_value};

// What an upper-case hexadecimal digit stands for, if the byte is one. By hand: `to_digit(16)` takes lower case too.
pub fn value_of(x: u8) -> Option<u8>
    ensures the_value_of_the_digit { result ≡ value_of x }
    ensures below_sixteen { ForSome result (λ v. v < 16) }
{
    match x {
        b'0'..=b'9' => Some(x - b'0'),
        b'A'..=b'F' => Some(x - b'A' + 10),
        _ => None,
    }
}

// The byte that two digits write; what is no digit counts 0: no call of a part fails, whatever its digits are.
pub fn pair_value(high: u8, low: u8) -> u8
    ensures the_byte_of_the_pair { result ≡ pair_value high low }
{
    value_of(high).unwrap_or(0) * 16 + value_of(low).unwrap_or(0)
}
