//! Names, keys and values as bytes: each has one encoding, and a fault of bytes is the first fault.
#![tactic(auto)]

mod cursor;
mod fields;
mod laws;
mod put;
mod skip;
mod texts;
mod values;

pub use cursor::Cursor;
pub use fields::{Admits, get_flag, get_key, get_proc};
pub use laws::value_rules;
pub use put::{put_key, put_proc, put_value};
pub use values::{get_value, value_from_bytes};
