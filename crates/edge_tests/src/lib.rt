// The edges of every refusal that a library call can give: the last value that passes, the first that is refused, which of two numbers comes
// first, and that a declined call changed nothing.
#![tactic(auto)]

#[cfg(test)]
mod tests;
