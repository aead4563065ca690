use crate::declined::Declined;
use crate::guide::Guide;
use crate::row::Row;
use sheets::question::Question;
use sheets::sheet::Sheet;
use std::io;
use track::layout::Layout;
use track::refusal::Refusal;

impl Guide<'_> {
    pub fn show_refusal(&self, what: &str, refusal: Refusal) -> io::Result<()> {
        println!(self.rt; "{}", Declined { what, refusal })
    }

    fn show_fouls(&self, layout: &Layout, a: u8, b: u8) -> io::Result<()> {
        for c in a..layout.sections() {
            for d in c..layout.sections() {
                if (a, b) < (c, d) && layout.fouls(a, b, c, d) {
                    println!(self.rt; "  {a}-{b}   fouls {c}-{d}")?;
                }
            }
        }
        Ok(())
    }

    pub fn show_layout(&self, layout: &Layout) -> io::Result<()> {
        let n = layout.sections();
        println!(self.rt; "the layout: {n} sections")?;
        println!(self.rt; "  link  points")?;
        for a in 0..n {
            for b in a..n {
                if let Some(points) = layout.points(a, b) {
                    println!(self.rt; "  {a}-{b}   {points}")?;
                }
            }
        }
        for a in 0..n {
            for b in a..n {
                self.show_fouls(layout, a, b)?;
            }
        }
        Ok(())
    }

    pub(crate) fn show_question(&self, question: &Question) -> io::Result<()> {
        println!(self.rt; "")?;
        println!(self.rt; "the question: {} steps", question.steps)?;
        for train in question.roster.trains() {
            println!(self.rt;
                "  train {:4} from {} to {}",
                train.number, train.start, train.goal
            )?;
        }
        Ok(())
    }

    pub(crate) fn show_sheet(&self, question: &Question, sheet: &Sheet) -> io::Result<()> {
        for (train, sections) in question.roster.trains().iter().zip(&sheet.rows) {
            let row = Row {
                number: train.number,
                sections: &sections[..question.times()],
            };
            println!(self.rt; "{row}")?;
        }
        Ok(())
    }
}
