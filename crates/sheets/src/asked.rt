use crate::question::Question;

// What a search is asked: a question, and the rule and the scale by which it is to be answered.
#[derive(Drop)]
pub struct Asked<'a, R, S> {
    pub rule: &'a R,
    pub scale: &'a S,
    pub question: &'a Question<'a, 'a>,
}
