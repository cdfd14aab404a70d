//! A job that is run: how it is read from JSON.
#![tactic(auto)]

mod description;
mod job;
mod parts;

pub use job::{Job, MAX_JOB_NODES, MAX_JOB_PROCS};
