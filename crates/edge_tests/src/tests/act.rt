use std::process::Abort;
use track::refusal::Refusal;

// The number with which a call was declined, or 0.
pub(crate) fn number_of(answer: Result<(), Refusal>) -> u8 {
    match answer {
        Ok(()) => 0,
        Err(refusal) => refusal.number(),
    }
}

// A call to an object, which tells the number with which it was declined, or 0.
pub trait Act<O> {
    fn on(&self, object: &mut O) -> u8;
}

// Makes the calls of a script, each of which is to be declined with its number or, at 0, to pass: on `all` each of them, and those that are declined
// twice; on `only` just those that pass.
pub(crate) fn play<O, A: Act<O>>(rt: &impl Abort, script: &[(A, u8)], all: &mut O, only: &mut O) {
    for (place, (act, number)) in script.iter().enumerate() {
        assert_eq!(rt; act.on(all), *number, "call {place}");
        if *number == 0 {
            assert_eq!(rt; act.on(only), 0, "call {place} without those declined");
        } else {
            assert_eq!(rt; act.on(all), *number, "call {place} again");
        }
    }
}
