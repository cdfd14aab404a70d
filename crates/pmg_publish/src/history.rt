ghost use Rattle.std.specs.Prelude.{◌≡◌, ◌∷◌, ◌++◌, [], IfSome, MatchBool};
ghost use mathlib.Core.List.{IsPrefix};
ghost use Rattle.pmg_publish.specs.Counting.{counter_of};
ghost use Rattle.pmg_publish.specs.Publications.{publication};

use crate::counting::{Add, Count, Counter, Nothing, Publication};
use crate::parts::Parts;
use logbook::{Offer, Seen, Start, Word};
use std::marker::Model;

/// A prefix of a publisher's list of publications. Contracts see its list, and the publications. The code keeps only their number.
#[derive(Drop)]
pub struct History {
    count: u64,
    seen: Seen<Publication, u64, Count>,
}

impl Model for History {
    ghost use Rattle.std.specs.Prelude.{◌≡◌, length};
    ghost use Rattle.pmg_publish.specs.Publications.{Publications};

    ghost Value = { Publications };

    ghost view = { λ h. record { book = h.seen.book; log = h.seen.log } };

    ghost invariant = { λ h. h.count ≡ length h.seen.log };
}

impl History {
    /// Opens a new list without publications, and returns its history and the word that counts it.
    pub fn open() -> (History, Counter)
        ensures log { result.0.log ≡ [] }
        ensures counter { result.1 ≡ counter_of result.0.book }
    {
        let (seen, mut first, _second) = Seen::open(Start::alone(), 0, 0);
        let counter = Word::tracked(0, &mut first);
        (History { count: 0, seen }, counter)
    }

    /// Returns a copy.
    pub fn again(&self) -> History
        ensures { result ≡ self.now }
    {
        History {
            count: self.count,
            seen: self.seen.again(),
        }
    }

    /// Returns whether this history begins with the other one; if not, the other one begins with this one.
    pub fn continues(&self, other: &History) -> bool
        requires { other.now.book ≡ self.now.book }
        ensures { MatchBool result (IsPrefix other.now.log self.now.log) (IsPrefix self.now.log other.now.log) }
    {
        let mut both = self.seen.again();
        both.learn(&other.seen);
        other.count <= self.count
    }

    /// Returns the history with the publication of these parts after all others, or `None` if the list is longer than this history or its
    /// count is full.
    pub fn with_publication(&self, counter: &Counter, parts: &Parts) -> Option<History>
        requires { counter.now ≡ counter_of self.now.book }
        ensures book { IfSome result (λ h. h.book ≡ self.now.book) }
        ensures log { IfSome result (λ h. h.log ≡ self.now.log ++ publication parts.now.near.items parts.now.far.items ∷ []) }
    {
        if self.count == u64::MAX {
            return None;
        }
        let next = self.count + 1;
        let mut seen = self.seen.again();
        let mut offer: Offer<Publication, u64, Count, Nothing> = seen.plain::<Nothing, Parts, Add>(
            parts,
        );
        let mut pen = seen.no_pen();
        let found = counter.compare_exchange::<Add, Nothing>(
            self.count, next, &mut seen, &mut offer, &mut pen,
        );
        if found != self.count {
            return None;
        }
        Some(History { count: next, seen })
    }
}
