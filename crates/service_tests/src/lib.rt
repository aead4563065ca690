// The service between a reader and a writer that keep one list of what happened: in which order bytes are read
// and answers written, and what stands where reading or writing fails.
#![tactic(auto)]

#[cfg(test)]
mod tests;
