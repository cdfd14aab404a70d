//! The fences of a node: the entries of its processes, the headers of other nodes, and the condition under which a fence is ready.
#![tactic(auto)]

mod all_series;
mod change;
mod entry;
mod fence;
mod headers;
mod index;
mod laws;
mod numbers;
mod owns;
mod series;
mod signatures;
mod table;

pub use change::Change;
pub use entry::Entry;
pub use laws::{call_rules, entry_rules, header_rules, table_rules};
pub use table::{Table, TableUndo};
