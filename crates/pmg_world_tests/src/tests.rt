//! The tests, and what they share.
mod nodes;
mod worlds;
