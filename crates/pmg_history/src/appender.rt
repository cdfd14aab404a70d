//! Who adds to a list of entries.
ghost use Rattle.std.specs.Prelude.{◌≡◌, ◌∷◌, ◌++◌, [], OnErr, OnOk};
ghost use mathlib.Core.List.{IsPrefix};

use crate::history::History;
use crate::rule::Counter;
use std::alloc::AllocError;
use std::marker::Model;

/// Who adds to a list of entries: nobody else can. Contracts see the whole list.
#[derive(Drop)]
pub struct Appender<E> {
    history: History<E>,
    counter: Counter<E>,
}

impl<E> Model for Appender<E> {
    ghost use Rattle.std.specs.Prelude.{◌≡◌};
    ghost use Rattle.pmg_history.specs.Appending.{length_word};
    ghost use Rattle.pmg_history.specs.Entries.{Entries};

    ghost Value = { Entries E };

    ghost view = { λ a. a.history };

    ghost invariant = { λ a. a.counter ≡ length_word a.history.book };
}

impl<E> Appender<E> {
    /// Opens a new list without entries.
    pub fn open() -> Appender<E>
        ensures { result.log ≡ [] }
    {
        let (history, counter) = History::open();
        Appender { history, counter }
    }

    /// Returns all that was added so far.
    pub fn tell(&self) -> History<E>
        ensures { result ≡ self.now }
    {
        self.history.again()
    }

    /// Adds the entry at the end of the list, and learns by the same step that the other history is a prefix of the list as it was.
    /// Errors: `AllocError` if the list cannot count one entry more; then it is as before.
    pub fn append(&mut self, other: &History<E>, entry: &E) -> Result<(), AllocError>
        requires other { other.now.book ≡ self.old.book }
        ensures book { self.new.book ≡ self.old.book }
        ensures log { OnOk result (self.new.log ≡ self.old.log ++ entry.now ∷ []) }
        ensures prefix { OnOk result (IsPrefix other.now.log self.old.log) }
        ensures err { OnErr result (self.new ≡ self.old) }
    {
        match self.history.with_entry(&self.counter, other, entry) {
            Some(history) => {
                self.history = history;
                Ok(())
            }
            None => Err(AllocError),
        }
    }
}
