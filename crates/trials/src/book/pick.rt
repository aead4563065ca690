use crate::book::Book;
use crate::call::Call;
use crate::dice::Dice;
use roster::train::Train;
use std::alloc::{AllocError, Global};

impl Book {
    // A book of 1 to 3 trains, and some closed sections.
    pub fn pick(dice: &mut Dice, alloc: Global, sections: u8) -> Result<Book, AllocError> {
        let mut book = Book::new(alloc);
        for _ in 0..1 + dice.below(6) {
            let train = Train {
                number: 1 + u16::from(dice.below(200)),
                start: dice.below(sections),
                goal: dice.below(sections),
            };
            if book.trains.len() < 3 {
                book.try_call(sections, Call::Enter(train))?;
            }
        }
        for section in 0..sections {
            if dice.once_in(4) {
                book.try_call(sections, Call::Possess(section))?;
            }
        }
        Ok(book)
    }

    // Takes a call into the book, unless it is declined.
    fn try_call(&mut self, sections: u8, call: Call) -> Result<(), AllocError> {
        if self.declines(sections, call).is_none() {
            self.take(call)?;
        }
        Ok(())
    }
}
