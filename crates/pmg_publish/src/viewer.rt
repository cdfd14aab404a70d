ghost use Rattle.std.specs.Prelude.{◌≡◌, ◌⊎◌, ◌≤◌, OnErr, IfOk, IfErr, IfSome, IsSome};
ghost use mathlib.Core.List.{IsPrefix};
ghost use Rattle.left_right.specs.Sides.{view as known_at};
ghost use Rattle.pmg_value.specs.declared.refusal.Refusal.TheVariants as refusals;
ghost use Rattle.pmg_commit.specs.Data.{level_at};
ghost use Rattle.pmg_publish.specs.Publications.{near_of, far_of};
ghost use Rattle.pmg_publish.specs.Boards.{IsMade};
ghost use Rattle.pmg_publish.specs.Rule.{IsOf};
ghost use Rattle.pmg_publish.specs.Sights.{IsFarSight, IsSight};
ghost use Rattle.pmg_commit.specs.declared.piece.TheConstants.{MAX_COMMIT};

use crate::history::History;
use crate::rule::{InOneList, Known, Sees};
use crate::shown::Shown;
use crate::sight::{FarSnapshot, Snapshot, far_sight_of, sight_of};
use left_right::reader::{Reader, Reading};
use pmg_value::{Key, Proc, Refusal};
use std::marker::Model;

/// A reader's place.
pub(crate) type Place = Reader<Shown, Known, InOneList>;

/// A place while it reads.
type Entered = Reading<Shown, Known, InOneList>;

/// The publications of a publisher at the time of its `tell`. Contracts see them as that prefix of its list.
#[derive(Drop)]
pub struct Told {
    pub(crate) history: History,
}

impl Model for Told {
    ghost use Rattle.pmg_publish.specs.Publications.{Publications};

    ghost Value = { Publications };

    ghost view = { λ t. t.history };
}

/// A reader of the publications, which waits for nobody. Contracts see it as the list of publications that it last saw or learned.
pub struct Viewer {
    /// Its place, which it always has except while it reads.
    place: Option<Place>,
    history: History,
}

impl Drop for Viewer {
    fn drop(self) {
        let Self { place, history } = self;
    }
}

impl Model for Viewer {
    ghost use Rattle.std.specs.Prelude.{IfSome, IsSome};
    ghost use Rattle.left_right.specs.Sides.{view as known_at};
    ghost use Rattle.pmg_publish.specs.Publications.{Publications};
    ghost use Rattle.pmg_publish.specs.Rule.{IsOf};

    ghost Value = { Publications };

    ghost view = { λ v. v.history };

    ghost invariant = { λ v. IsSome v.place × IfSome v.place (λ p. IsOf v.history.book (known_at p.place)) };
}

impl Viewer {
    /// Makes a viewer at this place that has seen this history.
    pub(crate) fn new(place: Place, history: History) -> Viewer
        requires { IsOf history.book (known_at place.place) }
        ensures { result ≡ history }
    {
        Viewer {
            place: Some(place),
            history,
        }
    }

    /// Returns the history that it last saw or learned.
    pub(crate) fn history(&self) -> &History
        ensures { result.now ≡ self.now }
    {
        &self.history
    }

    /// Learns these publications: from now on the viewer sees at least them.
    pub fn learn(&mut self, told: &Told)
        requires { told.now.book ≡ self.old.book }
        ensures book { self.new.book ≡ self.old.book }
        ensures seen { IsPrefix self.old.log self.new.log }
        ensures told { IsPrefix told.now.log self.new.log }
        ensures one { (self.new ≡ self.old) ⊎ (self.new ≡ told.now) }
    {
        if !self.history.continues(&told.history) {
            self.history = told.history.again();
        }
    }

    /// Reads the process under the key, in the board that a list of publications makes. The list begins with all that this viewer saw or
    /// learned before. Errors: `Closed` if the publisher is closed; `NoMemory` if a copy fails.
    pub fn read(&mut self, proc: &Proc, key: &Key) -> Result<Snapshot, Refusal>
        ensures book { self.new.book ≡ self.old.book }
        ensures seen { IsPrefix self.old.log self.new.log }
        ensures read { IfOk result (IsSight (near_of self.new.log) (far_of self.new.log) proc.now key.now) }
        ensures err { OnErr result (self.new ≡ self.old) }
        ensures refusals { IfErr result (λ e. (e ≡ refusals.Closed) ⊎ (e ≡ refusals.NoMemory)) }
    {
        let entered = enter_from(&mut self.place, &self.history)?;
        let shown = entered.get();
        let sight = sight_of(&shown.board, proc, key);
        let history = shown.history.again();
        self.place = Some(entered.leave());
        let sight = sight?;
        self.history = history;
        Ok(sight)
    }

    /// Reads the process under the key in the far store only, in the board that a list of publications makes. The list begins with all
    /// that this viewer saw or learned before. Errors: `Closed` if the publisher is closed; `NoMemory` if the copy fails.
    pub fn read_far(&mut self, proc: &Proc, key: &Key) -> Result<FarSnapshot, Refusal>
        ensures book { self.new.book ≡ self.old.book }
        ensures seen { IsPrefix self.old.log self.new.log }
        ensures read { IfOk result (IsFarSight (far_of self.new.log) proc.now key.now) }
        ensures err { OnErr result (self.new ≡ self.old) }
        ensures refusals { IfErr result (λ e. (e ≡ refusals.Closed) ⊎ (e ≡ refusals.NoMemory)) }
    {
        let entered = enter_from(&mut self.place, &self.history)?;
        let shown = entered.get();
        let sight = far_sight_of(&shown.board, proc, key);
        let history = shown.history.again();
        self.place = Some(entered.leave());
        let sight = sight?;
        self.history = history;
        Ok(sight)
    }

    /// Returns the level of the process in the far store, in the board that a list of publications makes. The list begins with all that
    /// this viewer saw or learned before. Errors: `Closed` if the publisher is closed.
    pub fn level(&mut self, proc: &Proc) -> Result<u64, Refusal>
        ensures book { self.new.book ≡ self.old.book }
        ensures seen { IsPrefix self.old.log self.new.log }
        ensures level { IfOk result (λ n. n ≡ level_at (far_of self.new.log) proc.now) }
        ensures bound { IfOk result (λ n. n ≤ MAX_COMMIT) }
        ensures err { OnErr result (self.new ≡ self.old) }
        ensures refusals { IfErr result (λ e. e ≡ refusals.Closed) }
    {
        let entered = enter_from(&mut self.place, &self.history)?;
        let shown = entered.get();
        let level = shown.board.far().level(proc);
        self.history = shown.history.again();
        self.place = Some(entered.leave());
        Ok(level)
    }
}

/// Takes the place out, and enters the shown board by it. Errors: `Closed`, with the place put back, if the shown list does not begin with
/// the publications that the viewer saw or learned.
fn enter_from(place: &mut Option<Place>, history: &History) -> Result<Entered, Refusal>
    requires place { IsSome place.old × IfSome place.old (λ p. IsOf history.now.book (known_at p.place)) }
    ensures place { IfOk result (λ r. IsOf history.now.book (known_at r.place)) }
    ensures book { IfOk result (λ r. r.part.value.history.book ≡ history.now.book) }
    ensures seen { IfOk result (λ r. IsPrefix history.now.log r.part.value.history.log) }
    ensures made { IfOk result (λ r. IsMade r.part.value) }
    ensures back { OnErr result (IsSome place.new × IfSome place.new (λ p. IsOf history.now.book (known_at p.place))) }
    ensures refusals { IfErr result (λ e. e ≡ refusals.Closed) }
{
    let Some(own) = place.take() else {
        unreachable!()
    };
    match enter(own, history) {
        Ok(entered) => Ok(entered),
        Err(own) => {
            *place = Some(own);
            Err(Refusal::Closed)
        }
    }
}

/// Enters the shown board, if its list begins with the publications that the viewer saw or learned; else returns the place.
fn enter(place: Place, history: &History) -> Result<Entered, Place>
    requires { IsOf history.now.book (known_at place.place) }
    ensures place { IfOk result (λ r. IsOf history.now.book (known_at r.place)) }
    ensures book { IfOk result (λ r. r.part.value.history.book ≡ history.now.book) }
    ensures seen { IfOk result (λ r. IsPrefix history.now.log r.part.value.history.log) }
    ensures made { IfOk result (λ r. IsMade r.part.value) }
    ensures back { IfErr result (λ p. IsOf history.now.book (known_at p.place)) }
{
    let entered = place.enter_as::<Sees>()?;
    if entered.get().history.continues(history) {
        return Ok(entered);
    }
    Err(entered.leave())
}
