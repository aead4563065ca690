mod failures;
mod fakes;
mod lines;
