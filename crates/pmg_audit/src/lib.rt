//! The check that the journals of a group's nodes and the transcripts of its clients are one run of the model.
#![tactic(auto)]

mod auditing;
mod labels;
mod laws;
mod moves;
mod ordering;
mod replaying;
mod run;
mod same;
mod sayings;
mod sends;

pub use auditing::audit;
pub use laws::audit_rules;
pub use run::Run;
