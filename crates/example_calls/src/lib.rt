//! Short callers of `Node`, `Link`, `Store` and `audit`, which `docs/CALLING.md` quotes.
#![tactic(auto)]

mod audits;
mod links;
mod nodes;
mod stores;

pub use audits::count_events;
pub use links::publish;
pub use nodes::deliver;
pub use stores::learn;
