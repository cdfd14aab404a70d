//! The parts that the programs share: the command line, and the end of a command and of a program. Also the commands `dump` and `merge`,
//! which need only stores.
#![tactic(auto)]

mod command;
mod dump;
mod ending;
mod merge;
mod reporting;
mod status;
mod text;

pub use command::{Chosen, choose, read_command_line};
pub use dump::run_dump;
pub use ending::{end_with, tell_failures};
pub use merge::run_merge;
pub use reporting::{conclude, finish, write_refusal};
pub use status::{AUDIT_FAULT, DONE, FAILED, NO_MEMORY, USAGE_FAULT};
