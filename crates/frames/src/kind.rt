ghost use Rattle.std.specs.Prelude.{◌≡◌};
ghost use Rattle.frames.specs.Lines.{size_of};
ghost use Rattle.frames.specs.Frames.{told, frame_of};
ghost use Rattle.frames.specs.Kinds.{number_of_kind, Decodes};

use crate::frame::Frame;
use crate::part::Part;
use track::refusal::Refusal;

// What a frame asks for, without its fields. Its first byte is the number of its kind.
// The cases are those of `Frame`: the kind is read before the fields are known to be there.
#[derive(Clone, Copy, PartialEq, Eq, Debug)]
pub enum Kind {
    AddSections,
    Link,
    Foul,
    Finish,
    Enter,
    Withdraw,
    Plan,
}

impl TryFrom<u8> for Kind {
    type Error = Refusal;

    ghost try_from_gives = { Decodes };

    fn try_from(number: u8) -> Result<Kind, Refusal> {
        match number {
            1 => Ok(Kind::AddSections),
            2 => Ok(Kind::Link),
            3 => Ok(Kind::Foul),
            4 => Ok(Kind::Finish),
            5 => Ok(Kind::Enter),
            6 => Ok(Kind::Withdraw),
            7 => Ok(Kind::Plan),
            _ => Err(Refusal::UnknownFrame),
        }
    }
}

impl Kind {
    // How many bytes a frame of this kind has, the kind among them.
    pub fn size(self) -> usize
        ensures the_size_of_the_kind { result ≡ size_of (number_of_kind self) }
    {
        match self {
            Kind::AddSections => 2,
            Kind::Link => 4,
            Kind::Foul => 5,
            Kind::Finish => 1,
            Kind::Enter => 5,
            Kind::Withdraw => 3,
            Kind::Plan => 2,
        }
    }

    // The frame of this kind with these fields.
    pub fn framed(self, part: Part<'_>) -> Frame<'_>
        ensures of_the_kind { frame_of result ≡ told (number_of_kind self) part.entry }
    {
        match self {
            Kind::AddSections => Frame::AddSections(part),
            Kind::Link => Frame::Link(part),
            Kind::Foul => Frame::Foul(part),
            Kind::Finish => Frame::Finish(part),
            Kind::Enter => Frame::Enter(part),
            Kind::Withdraw => Frame::Withdraw(part),
            Kind::Plan => Frame::Plan(part),
        }
    }
}
