//! The rule over the shown board and the knowledge of each place.
use crate::history::History;
use crate::shown::Shown;
use atomic_table::{Join, Split};
use crossbeam_utils::rule::{Outcome, Protocol};

/// The knowledge of a place: once it is live, a prefix of the list that made the shown board. No value of this type is made.
pub struct Known {
    pub live: bool,
    pub history: History,
}

/// The rule that one list makes the shown board, and that each live place knows a prefix of it.
pub struct InOneList;

impl Protocol<Shown, Known> for InOneList {
    ghost use Rattle.pmg_publish.specs.Rule.{KeepsShown, unnamed};

    ghost holds = { KeepsShown };

    ghost first = { unnamed };
}

/// The rule that a place knows the whole list after it enters or publishes.
pub struct Sees;

impl Outcome<Shown, Known> for Sees {
    ghost use Rattle.pmg_publish.specs.Rule.{Sees};

    ghost then = { Sees };
}

/// The rule that the writer shares its knowledge with a reader.
pub struct Shares;

impl Split<Known> for Shares {
    ghost left = { λ v. v };

    ghost right = { λ v. v };
}

impl Join<Known> for Shares {
    ghost use Rattle.pmg_publish.specs.Rule.{unnamed};

    ghost both = { λ v w. w };

    ghost spent = { unnamed };
}
