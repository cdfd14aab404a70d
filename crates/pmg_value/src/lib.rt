//! Names, values and refusals, which all crates of pmixgroup use.
#![tactic(auto)]

mod array;
mod blobs;
mod copied;
mod items;
mod laws;
mod names;
mod parts;
mod process;
mod refusal;
mod refusal_text;
mod rows;
mod small_bytes;
mod value;
mod value_text;
mod within;
mod word;
mod written;

pub use array::Array;
pub use blobs::{MAX_BLOB_LEN, Octets, Text, first_zero, is_string_text};
pub use copied::{Copied, copy_all, copy_queue, copy_rows};
pub use items::{Item, Items, is_number_kind};
pub use laws::process_order;
pub use names::{
    Key, MAX_KEY_LEN, MAX_NSPACE_LEN, Nspace, is_key_text, is_nspace_name, is_reserved_name,
};
pub use parts::Parts;
pub use process::{HOST_NAME, MAX_NODE, MAX_RANK, NodeId, Proc, Rank};
pub use refusal::{Cause, Fault, Refusal};
pub use rows::{Growable, grow_row, put_back};
pub use value::{MAX_VALUE_SIZE, Value};
pub use written::{WatchedWriter, WriteFault, push_number};
