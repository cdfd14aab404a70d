//! A job of several nodes that threads run, and that is audited: its outcome is one run of the model.
#![tactic(auto)]

mod launch;

pub use launch::{Outcome, run, run_linked};
pub use pmg_jobfile::Job;
pub use pmg_threads::{Exchange, Links, Program, Report};
