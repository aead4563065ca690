ghost use Rattle.std.specs.Prelude.{◌≡◌, false, not, [], ◌∷◌, ◌++◌, length, take, ◌==◌};
ghost use Rattle.frames.specs.Cuts.{cut, begun_of, after, fresh, AnyPieces, AllLines, NextOfTheInput, ClippedReadsTheSame};
ghost use Rattle.frames.specs.Cutters.{cut_of};

use crate::cutter::Cutter;
use track::list::FixedList;

impl Cutter {
    #[tactic(auto, using(crate::proofs::Cutting::all_lines))]
    pub fn new() -> Cutter
        ensures nothing_is_begun { cut_of result ≡ fresh }
        ensures all_lines_are_given { AllLines }
    {
        Cutter {
            held: FixedList::new(0),
            ended: false,
        }
    }

    // Lets go of a line that was ended: the next byte belongs to another.
    fn begin(&mut self)
        ensures the_bytes_begun { self.new.held ≡ begun_of (cut_of self.old) }
    {
        if self.ended {
            self.held.clear();
        }
    }

    // Holds a byte behind those that are held, if it is one of the first 65.
    #[tactic(auto, using(crate::proofs::Cutting::full, crate::proofs::Cutting::stored))]
    fn hold(&mut self, byte: u8)
        ensures one_of_the_first_65_is_held { cut_of self.new ≡ cut (take 65 (self.old.held ++ (byte ∷ []))) false }
    {
        self.ended = false;
        if self.held.items().len() < 65 {
            self.held.push(byte);
        }
    }

    // Takes the next byte, and tells whether it ends the line.
    #[tactic(auto, using(crate::proofs::Cutting::ends, crate::proofs::Cutting::goes_on))]
    pub fn push(&mut self, byte: u8) -> bool
        ensures the_byte_is_taken { cut_of self.new ≡ after (cut_of self.old) byte }
        ensures whether_the_line_is_ended { result ≡ (byte == 10) }
        ensures the_line_that_it_ends_is_the_next_of_the_input { NextOfTheInput (cut_of self.old) byte (cut_of self.new) }
        ensures any_cut_into_pieces_gives_the_same_lines { AnyPieces }
    {
        self.begin();
        if byte == b'\n' {
            self.ended = true;
            true
        } else {
            self.hold(byte);
            false
        }
    }

    // The current line, or the one that the last byte ended: at most its first 65 bytes.
    #[tactic(auto, using(crate::proofs::Cutting::clipped_reads_the_same))]
    pub fn line(&self) -> &[u8]
        ensures what_is_held_of_the_line { result.now ≡ (cut_of self.now).line }
        ensures it_is_read_as_the_whole_line { ClippedReadsTheSame }
    {
        self.held.items()
    }

    // Whether a line has begun that no 0A has ended: at the end of the input it is the last one.
    pub fn has_rest(&self) -> bool
        ensures whether_a_line_has_begun { result ≡ not (length (begun_of (cut_of self.now)) == 0) }
    {
        !self.ended && self.held.items().len() > 0
    }
}
