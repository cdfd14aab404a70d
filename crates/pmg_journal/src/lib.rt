//! The events at a node, the calls of a client, and the state that follows from them.
#![tactic(auto)]

mod journal;
mod notes;
mod record;
mod transcript;

pub use journal::{Event, Journal, copy_of_answer, has_event_by};
pub use notes::{AnswerCopies, ClientLog};
pub use record::{Evidence, Record, Step, caller_of, is_free_at};
pub use transcript::{Call, Called, Transcript};
