//! The tests, and what they share.
mod joins;
mod making;
mod values;
mod writing;
