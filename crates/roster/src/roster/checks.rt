ghost use Rattle.std.specs.Prelude.{◌≡◌, ◌<◌};
ghost use Rattle.roster.specs.Trains.{no_number, has as holds};

pub(super) fn has(closed: u32, section: u8) -> bool
    requires { section < 32 }
    ensures whether_the_bit_is_set { result ≡ holds closed section }
{
    (closed >> section) & 1 == 1
}

pub(super) fn out_of_range(number: u16) -> bool
    ensures whether_no_train_has_such_a_number { result ≡ no_number number }
{
    number == 0 || number > 9999
}
