//! The tests, and what they share.
mod asked_again;
mod copies;
mod frames;
mod lanes;
mod making;
mod plain;
mod sets;
mod spelled;
mod stores;
mod streams;
