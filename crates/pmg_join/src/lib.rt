//! Joins: associative, commutative and idempotent, and least upper bounds. A join of many therefore does not depend on order, grouping and
//! repeats.
#![tactic(auto)]

mod element;
mod grow_set;
mod join;
mod laws;
mod many;
mod map_join;
mod max;
mod pair_join;
mod places;
mod range_set;
mod ranges;

pub use element::Element;
pub use grow_set::GrowSet;
pub use join::{Absorb, Join, TwoPhaseJoin, join_rules};
pub use laws::join_of_many;
pub use many::join_all;
pub use map_join::{MapJoin, put_change};
pub use max::MaxU64;
pub use pair_join::PairJoin;
pub use places::{make_place, pop_place, put_place};
pub use range_set::RangeSet;
pub use ranges::{Ranges, Span};
