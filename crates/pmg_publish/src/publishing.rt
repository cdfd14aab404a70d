ghost use Rattle.std.specs.Prelude.{◌≡◌, ◌↔◌, ◌∷◌, ◌++◌, [], true, false, IsTrue, IsOk, IsOkUnless, OnOk, OnErr, IfSome, MatchBool};
ghost use Rattle.std.specs.Prelude.{drop as after};
ghost use mathlib.Core.List.{IsPrefix};
ghost use Rattle.left_right.specs.Sides.{view as known_at};
ghost use Rattle.pmg_value.specs.declared.refusal.Refusal.TheVariants as refusals;
ghost use Rattle.pmg_publish.specs.Counting.{counter_of};
ghost use Rattle.pmg_publish.specs.Publications.{publication};
ghost use Rattle.pmg_publish.specs.Rule.{IsOf};

use crate::counting::Counter;
use crate::history::History;
use crate::parts::Parts;
use crate::rule::{InOneList, Known, Sees};
use crate::shown::{Shown, Update};
use crate::viewer::{Told, Viewer};
use left_right::writer::Writer;
use pmg_commit::Piece;
use pmg_value::Refusal;
use std::marker::Model;
use std::mem;
use std::sync::Wait;

/// The writer of the two copies.
pub(crate) type Desk = Writer<Shown, Update, Known, InOneList>;

/// The publisher of a board. Contracts see whether it is open, and the list of its publications. It is not dropped: end it by `close`.
pub struct Publisher {
    is_open: bool,
    writer: Option<Desk>,
    counter: Counter,
    history: History,
}

impl Model for Publisher {
    ghost use Rattle.std.specs.Prelude.{◌≡◌, [], true, is_some, IfSome, IsSome};
    ghost use Rattle.std.specs.Prelude.{drop as after};
    ghost use Rattle.left_right.specs.Sides.{view as known_at};
    ghost use Rattle.pmg_publish.specs.Publications.{Published};
    ghost use Rattle.pmg_publish.specs.Counting.{counter_of};
    ghost use Rattle.pmg_publish.specs.Rule.{IsOf};

    ghost Value = { Published };

    ghost view = { λ p. record { is_open = p.is_open; is_read = is_some p.writer; book = p.history.book; log = p.history.log } };

    ghost invariant = { λ p. (p.counter ≡ counter_of p.history.book)
        × (p.is_open ≡ true → IsSome p.writer)
        × IfSome p.writer (λ w. IsOf p.history.book (known_at w.desk.place)
        × (w.desk.shown.value.history ≡ p.history)
        × (p.is_open ≡ true → after w.behind w.log.items ≡ [])) };
}

impl Publisher {
    /// Makes a publisher of this list, by this writer, which shows it.
    pub(crate) fn new(writer: Desk, counter: Counter, history: History) -> Publisher
        requires counter { counter ≡ counter_of history.book }
        requires place { IsOf history.book (known_at writer.desk.place) }
        requires shown { writer.desk.shown.value.history ≡ history }
        requires pending { after writer.behind writer.log.items ≡ [] }
        ensures { result ≡ record { is_open = true; is_read = true; book = history.book; log = history.log } }
    {
        Publisher {
            is_open: true,
            writer: Some(writer),
            counter,
            history,
        }
    }

    /// Shows viewers the board with these pieces added, all at once, as the next publication of its list. It waits for viewers that still
    /// read the board before the last. Errors: `NoMemory`, which closes the publisher. Earlier publications stay, viewers continue to read
    /// them, and every later call is refused as `Closed`.
    pub fn publish<R: Wait>(
        &mut self,
        rt: &R,
        near: Vec<Piece>,
        far: Vec<Piece>,
    ) -> Result<(), Refusal>
        ensures book { self.new.book ≡ self.old.book }
        ensures ok { OnOk result (self.new.log ≡ self.old.log ++ publication near.items far.items ∷ []) }
        ensures open { IsTrue self.new.is_open ↔ IsOk result }
        ensures readers { self.new.is_read ≡ self.old.is_read }
        ensures err { OnErr result (self.new.log ≡ self.old.log) }
        ensures closed { self.old.is_open ≡ false → result ≡ Err refusals.Closed }
        ensures memory { self.old.is_open ≡ true → IsOkUnless result refusals.NoMemory }
    {
        if !self.is_open {
            return Err(Refusal::Closed);
        }
        let Some(issue) = self.issue_of(Parts { near, far }) else {
            self.is_open = false;
            return Err(Refusal::NoMemory);
        };
        self.show(rt, issue)
    }

    /// Returns the next publication of the list, with these parts, or `None` if the count of the list is full.
    fn issue_of(&self, parts: Parts) -> Option<Update>
        ensures near { IfSome result (λ i. i.parts.near.items ≡ parts.near.items) }
        ensures far { IfSome result (λ i. i.parts.far.items ≡ parts.far.items) }
        ensures book { IfSome result (λ i. i.history.book ≡ self.now.book) }
        ensures log { IfSome result (λ i. i.history.log ≡ self.now.log ++ publication parts.near.items parts.far.items ∷ []) }
    {
        let history = self.history.with_publication(&self.counter, &parts)?;
        Some(Update { parts, history })
    }

    /// Shows the board with the update. It closes the publisher if an allocation fails.
    fn show<R: Wait>(&mut self, rt: &R, issue: Update) -> Result<(), Refusal>
        requires open { self.old.is_open ≡ true }
        requires book { issue.history.book ≡ self.old.book }
        requires log { issue.history.log ≡ self.old.log ++ publication issue.parts.near.items issue.parts.far.items ∷ [] }
        ensures ok { OnOk result (self.new ≡ record self.old { log = issue.history.log }) }
        ensures err { OnErr result (self.new ≡ record self.old { is_open = false }) }
        ensures memory { IsOkUnless result refusals.NoMemory }
    {
        self.is_open = false;
        let history = issue.history.again();
        let Some(mut writer) = self.writer.take() else {
            unreachable!()
        };
        if let Err(_) = writer.append(issue) {
            put_back(&mut self.writer, writer, rt);
            return Err(Refusal::NoMemory);
        }
        let (writer, shown) = writer.publish_as::<Sees, R>(rt);
        put_back(&mut self.writer, writer, rt);
        if shown.is_err() {
            return Err(Refusal::NoMemory);
        }
        self.history = history;
        self.is_open = true;
        Ok(())
    }

    /// Returns the publications so far. The call informs no viewer: a viewer learns its result.
    pub fn tell(&self) -> Told
        ensures { result ≡ record { book = self.now.book; log = self.now.log } }
    {
        Told {
            history: self.history.again(),
        }
    }

    /// Returns whether the viewer's sight is published here, as it is in every run. If it is, the viewer's list is a prefix of this one,
    /// else this one is a prefix of the viewer's.
    pub fn has_published(&self, viewer: &Viewer) -> bool
        requires { viewer.now.book ≡ self.now.book }
        ensures { MatchBool result (IsPrefix viewer.now.log self.now.log) (IsPrefix self.now.log viewer.now.log) }
    {
        self.history.continues(viewer.history())
    }

    /// Ends the publisher. It waits for viewers that still read, and later reads of viewers are refused as Closed.
    pub fn close<R: Wait>(self, rt: &R) {
        let Publisher {
            is_open: _,
            writer,
            counter: _,
            history: _,
        } = self;
        if let Some(writer) = writer {
            drop(writer.take(rt));
        }
    }
}

/// Puts the writer into its place, and ends the earlier one.
fn put_back<R: Wait>(place: &mut Option<Desk>, writer: Desk, rt: &R)
    ensures { place.new ≡ Some writer }
{
    if let Some(old) = mem::replace(place, Some(writer)) {
        drop(old.take(rt));
    }
}
