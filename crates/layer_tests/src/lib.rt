// Worked examples of the layers over the searches: the grouping and the single-train check.
#![tactic(auto)]

#[cfg(test)]
mod tests;
