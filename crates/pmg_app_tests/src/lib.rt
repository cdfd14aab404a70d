//! Tests of jobs, from without: how threads run them, and what the program prints of one. What commands print for a text is shown by
//! the examples, and what they print and end with where a reader or a writer fails by `hostile/run`.
#![tactic(auto)]

#[cfg(test)]
mod jobs;
#[cfg(test)]
mod launches;
#[cfg(test)]
mod programs;
#[cfg(test)]
mod words;
