//! Stores: the knowledge of all processes from pieces in any order, and the content of a stream of frames.
#![tactic(auto)]

mod board;
mod dump;
mod failure;
mod input;
mod laws;
mod merge;
mod store;
mod stream;

pub use board::Board;
pub use failure::Failure;
pub use input::{INPUT_LIMIT, MOST_READS, ReadFault, WatchedReader, read_input, too_long};
pub use laws::{honest_data, honest_stores, pieces_in_any_order};
pub use merge::{MAX_STREAMS, merge_inputs, merge_streams};
pub use store::{Look, Store};
pub use stream::{dump_stream, store_of_stream};
