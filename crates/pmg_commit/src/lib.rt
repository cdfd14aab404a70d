//! The commits of processes: contributions, and the knowledge that they add up to.
#![tactic(auto)]

mod last_puts;
mod laws;
mod piece;
mod reading;
mod same;
mod sealer;
mod stamps;

pub use last_puts::SealedPut;
pub use laws::{data_rules, honest_rules, knowledge_rules, sealer_rules};
pub use piece::{
    MAX_COMMIT, MAX_ENTRIES, MAX_PIECE_SIZE, Piece, PieceEntry, are_keys_rising, are_numbered,
    entries_size,
};
pub use reading::best_of;
pub use same::are_same_entries;
pub use sealer::{Sealer, SealerUndo};
