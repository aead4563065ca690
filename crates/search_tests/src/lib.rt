// Worked examples of the searches; an enumeration of all sheets gives the same answers.
#![tactic(auto)]

#[cfg(test)]
mod tests;
