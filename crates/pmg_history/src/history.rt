//! A prefix of a list of entries.
ghost use Rattle.std.specs.Prelude.{◌≡◌, ◌∷◌, ◌++◌, [], IfSome, length};
ghost use mathlib.Core.List.{IsPrefix};
ghost use Rattle.pmg_history.specs.Appending.{length_word};

use crate::rule::{Append, Counter, Length, Nothing};
use logbook::{Offer, Seen, Start, Word};
use std::marker::Model;

/// A prefix of a list of entries. Contracts see which list it is, and the entries. The code keeps their number alone.
#[derive(Drop)]
pub struct History<E> {
    count: u64,
    seen: Seen<E, u64, Length>,
}

impl<E> Model for History<E> {
    ghost use Rattle.std.specs.Prelude.{◌≡◌, length};
    ghost use Rattle.pmg_history.specs.Entries.{Entries};

    ghost Value = { Entries E };

    ghost view = { λ h. record { book = h.seen.book; log = h.seen.log } };

    ghost invariant = { λ h. h.count ≡ length h.seen.log };
}

impl<E> History<E> {
    /// Opens a new list without entries, and returns it with the word that counts it.
    pub(crate) fn open() -> (History<E>, Counter<E>)
        ensures log { result.0.log ≡ [] }
        ensures counter { result.1 ≡ length_word result.0.book }
    {
        let (seen, mut first, _second) = Seen::open(Start::alone(), 0, 0);
        let counter = Word::tracked(0, &mut first);
        (History { count: 0, seen }, counter)
    }

    /// Returns a copy.
    pub fn again(&self) -> History<E>
        ensures { result ≡ self.now }
    {
        History {
            count: self.count,
            seen: self.seen.again(),
        }
    }

    /// Returns the number of its entries.
    pub fn count(&self) -> u64
        ensures { result ≡ length self.now.log }
    {
        self.count
    }

    /// Adds the entry at the end of the list, and learns by the same step that the other history is a prefix of this one. None
    /// where the list is longer than this history, or cannot be counted any more.
    pub(crate) fn with_entry(
        &self,
        counter: &Counter<E>,
        other: &History<E>,
        entry: &E,
    ) -> Option<History<E>>
        requires counter { counter.now ≡ length_word self.now.book }
        requires other { other.now.book ≡ self.now.book }
        ensures book { IfSome result (λ h. h.book ≡ self.now.book) }
        ensures log { IfSome result (λ h. h.log ≡ self.now.log ++ entry.now ∷ []) }
        ensures other { IfSome result (λ h. IsPrefix other.now.log self.now.log) }
    {
        if self.count == u64::MAX {
            return None;
        }
        let next = self.count + 1;
        let mut seen = self.seen.again();
        seen.learn(&other.seen);
        let mut offer: Offer<E, u64, Length, Nothing> = seen.plain::<Nothing, E, Append>(entry);
        let mut pen = seen.no_pen();
        let found = counter.compare_exchange::<Append, Nothing>(
            self.count, next, &mut seen, &mut offer, &mut pen,
        );
        if found != self.count {
            return None;
        }
        Some(History { count: next, seen })
    }
}
