ghost use Rattle.std.specs.Prelude.{◌≡◌, ◌-◌, ◌≤◌, ℕ, List, [], ◌∷◌, ◌++◌, ◌&&◌, not, nat_lt, length, true, IfOk, IfSome, OnOk, OnErr, IsTrue};
ghost use Rattle.pmg_value.specs.Answers.{Gives};
ghost use Rattle.pmg_value.specs.Process.{can_commit};
ghost use Rattle.std.specs.FinMap as finite;
ghost use Rattle.std.specs.Option.{option_map};
ghost use Rattle.pmg_scope.specs.Rows.{IsRising, table_of};
ghost use Rattle.pmg_scope.specs.Cached.{global_put};
ghost use Rattle.pmg_scope.specs.Scripts.{Call, Script};
ghost use Rattle.pmg_commit.specs.Sealed.{
  fresh,
  sealed_with,
  end_of,
  new_answer,
  are_within,
  can_seal,
  commit_answer,
  stamped_with,
  seal_answer,
  piece_answer,
  term_table,
};
ghost use Rattle.pmg_commit.specs.SealerRules.{FitsBatch, FitsSealer};
ghost use Rattle.pmg_commit.specs.Stamped.{CanBeSent, IsSealer, newer_answer, stamp_of};
ghost use Rattle.pmg_commit.specs.TakenBack.{sealer_back, end_back, CanRollBack};
ghost use Rattle.pmg_scope.specs.declared.sizes.TheConstants.{MAX_KEYS};
ghost use Rattle.pmg_value.specs.declared.value.TheConstants.{MAX_VALUE_SIZE};

use crate::last_puts::SealedPut;
use crate::piece::{MAX_COMMIT, Piece};
use crate::stamps::{Stamps, StampsUndo};
use pmg_scope::{Batch, Reach};
use pmg_value::{Copied, Key, Proc, Refusal, Value};
use std::alloc::{AllocError, Global};
use std::marker::Model;

/// The puts that the commits of one process sealed: under each key the last put, with the number of its commit (PMIx Standard 5.0,
/// PMIx_Commit; the numbers are this project's).
pub struct Sealer {
    alloc: Global,
    proc: Proc,
    level: u64,
    ended: bool,
    near: Stamps,
    far: Stamps,
}

impl Drop for Sealer {
    fn drop(self) {
        let Self {
            alloc,
            proc,
            level,
            ended,
            near,
            far,
        } = self;
    }
}

impl Model for Sealer {
    ghost use Rattle.pmg_commit.specs.Sealed.{Sealed, coded_sealed};
    ghost use Rattle.pmg_commit.specs.Stamped.{IsSealer};

    ghost Value = { Sealed };

    ghost coded = { coded_sealed };

    ghost view = { λ a. record { proc = a.proc; level = a.level; ended = a.ended; near = a.near; far = a.far } };

    ghost invariant = { λ a. IsSealer (record { proc = a.proc; level = a.level; ended = a.ended; near = a.near; far = a.far }) };
}

/// The state of a sealer before a commit, by which the commit can be taken back.
#[derive(Drop)]
pub struct SealerUndo {
    level: u64,
    ended: bool,
    near: StampsUndo,
    far: StampsUndo,
}

impl Sealer {
    /// Makes a sealer of the process, without commits. It keeps the allocator. Errors: `BadParam` if the process does not commit, because
    /// it is neither a client of a group nor its host; `NoMemory`.
    pub fn new(alloc: Global, proc: &Proc) -> Result<Sealer, Refusal>
        ensures { Gives (λ z. z) result (new_answer proc.now) }
    {
        if !proc.can_commit() {
            return Err(Refusal::BadParam);
        }
        Ok(Sealer::from_checked(alloc, proc.copy()?))
    }

    /// Makes a sealer of a process that was judged before, without commits. It keeps the allocator.
    pub fn from_checked(alloc: Global, proc: Proc) -> Sealer
        requires { can_commit proc ≡ true }
        ensures { result ≡ fresh proc }
    {
        Sealer {
            alloc,
            proc,
            level: 0,
            ended: false,
            near: Stamps::new(alloc),
            far: Stamps::new(alloc),
        }
    }

    /// Returns the number of commits.
    pub fn level(&self) -> u64
        ensures value { result ≡ self.now.level }
        ensures bound { result ≤ MAX_COMMIT }
        ensures sealer { IsSealer self.now }
    {
        self.level
    }

    /// Returns whether the process has ended.
    pub fn has_ended(&self) -> bool
        ensures { result ≡ self.now.ended }
    {
        self.ended
    }

    /// Makes the next commit, which seals the batch, and returns the earlier state, by which the commit can be taken back (PMIx Standard
    /// 5.0, PMIx_Commit). An empty batch takes a number too. A refused commit changes nothing. It takes time in proportion to the batch,
    /// times the logarithm of the sealed puts. Errors: `TooMany` after the end, or if the commit's number would be 4294967295, which is
    /// kept for the end. `TooMany` if one reach would have more than 65535 keys, or more than 16000000 bytes of keys and values, with ten
    /// more for each. `NoMemory`.
    pub fn commit(&mut self, batch: &Batch) -> Result<SealerUndo, Refusal>
        ensures before { Gives (λ b. sealer_back self.new b) result (commit_answer self.old batch.now) }
        ensures fits { IfOk result (λ b. CanRollBack self.new b) }
        ensures ok { OnOk result (self.new ≡ sealed_with self.old batch.now) }
        ensures err { OnErr result (self.new ≡ self.old) }
    {
        let near = batch.near();
        let far = batch.far();
        if !self.goes_on() {
            return Err(Refusal::TooMany);
        }
        if !self.near.can_take(near) || !self.far.can_take(far) {
            return Err(Refusal::TooMany);
        }
        Ok(self.stamp(false, near, far)?)
    }

    /// Takes a commit or an end back, by the earlier state. It takes no memory.
    pub fn rollback(&mut self, before: SealerUndo)
        requires { CanRollBack self.old before }
        ensures { self.new ≡ sealer_back self.old before }
    {
        self.level = before.level;
        self.ended = before.ended;
        self.near.rollback(before.near);
        self.far.rollback(before.far);
    }

    /// Makes the next commit, and returns its number. A refused commit changes nothing. Errors: `TooMany` past 4,294,967,294 commits or the
    /// limits of sealed puts for a reach; `NoMemory`.
    pub fn seal(&mut self, batch: &Batch) -> Result<u64, Refusal>
        ensures answer { Gives (λ n. n) result (seal_answer self.old batch.now) }
        ensures ok { OnOk result (self.new ≡ sealed_with self.old batch.now) }
        ensures err { OnErr result (self.new ≡ self.old) }
        ensures script { OnOk result ((s : Script) → FitsBatch batch.now s → FitsSealer self.old s
            → FitsSealer self.new (s ++ Call.commit ∷ [])) }
    {
        let _ = self.commit(batch)?;
        Ok(self.level())
    }

    /// Seals the puts by the next commit, with or without the end of the process.
    fn stamp(
        &mut self,
        ended: bool,
        near: &[(Key, Value)],
        far: &[(Key, Value)],
    ) -> Result<SealerUndo, AllocError>
        requires rising { IsRising near.now × IsRising far.now }
        requires few { (length near.now ≤ MAX_KEYS) × (length far.now ≤ MAX_KEYS) }
        requires sealer { IsSealer (stamped_with self.old ended (table_of near.now) (table_of far.now)) }
        ensures before { IfOk result (λ b. sealer_back self.new b ≡ self.old) }
        ensures fits { IfOk result (λ b. CanRollBack self.new b) }
        ensures ok { OnOk result (self.new ≡ stamped_with self.old ended (table_of near.now) (table_of far.now)) }
        ensures err { OnErr result (self.new ≡ self.old) }
    {
        let level = self.level + 1;
        let near = self.near.stamp(self.alloc, level, near)?;
        match self.far.stamp(self.alloc, level, far) {
            Err(AllocError) => {
                self.near.rollback(near);
                Err(AllocError)
            }
            Ok(far) => {
                let before = SealerUndo {
                    level: self.level,
                    ended: self.ended,
                    near,
                    far,
                };
                self.level = level;
                self.ended = ended;
                Ok(before)
            }
        }
    }

    /// Returns whether the process can make another commit: it has not ended, and a number is left beside the number of its end.
    fn goes_on(&self) -> bool
        ensures value { result ≡ (not self.now.ended && nat_lt self.now.level (MAX_COMMIT - 1)) }
        ensures within { IsTrue result → IsTrue (are_within self.now.near && are_within self.now.far) }
    {
        !self.ended && self.level < MAX_COMMIT - 1
    }

    /// Returns whether the next commit can seal one put with PMIX_GLOBAL, of a value of that many canonical bytes under the key. It takes
    /// no memory.
    pub fn can_seal_put(&self, key: &Key, size: usize) -> bool
        requires { size ≤ MAX_VALUE_SIZE }
        ensures { (bytes : List ℕ) → length bytes ≡ size
            → result ≡ can_seal self.now (global_put key.now bytes) }
    {
        self.goes_on() && self.near.can_take_one(key, size) && self.far.can_take_one(key, size)
    }

    /// Makes the last commit of the process, by which others learn that it has ended: it seals the key `pmix.term`, true, for all of them.
    /// Returns the earlier state, by which the end can be taken back. A sealer that has ended stays as it is, and returns `None`. If an
    /// allocation fails, nothing changes.
    pub fn end(&mut self) -> Result<Option<SealerUndo>, AllocError>
        ensures before { IfOk result (λ b. end_back self.new b ≡ self.old) }
        ensures fits { IfOk result (λ b. IfSome b (CanRollBack self.new)) }
        ensures ok { OnOk result (self.new ≡ end_of self.old) }
        ensures err { OnErr result (self.new ≡ self.old) }
    {
        if self.ended {
            return Ok(None);
        }
        let puts = last_puts();
        Ok(Some(self.stamp(true, &puts, &puts)?))
    }

    /// Makes the last commit, as `end` does, and returns its number. If an allocation fails, nothing changes. A sealer that has ended takes
    /// no memory.
    pub fn seal_end(&mut self) -> Result<u64, AllocError>
        ensures number { IfOk result (λ n. n ≡ (end_of self.old).level) }
        ensures ok { OnOk result (self.new ≡ end_of self.old) }
        ensures err { OnErr result (self.new ≡ self.old) }
        ensures script { OnOk result ((s : Script) → FitsSealer self.old s
            → FitsSealer self.new (s ++ Call.terminate ∷ [])) }
    {
        let _ = self.end()?;
        Ok(self.level())
    }

    /// Returns the puts that the commits from+1 to the level sealed for that reach. Errors: `BadParam` if there is no such commit, or the
    /// reach is the process's own; `NoMemory`.
    pub fn piece_of(&self, from: u64, reach: Reach) -> Result<Piece, Refusal>
        ensures { Gives (λ p. p) result (piece_answer self.now from reach) }
    {
        match reach {
            Reach::Own => Err(Refusal::BadParam),
            Reach::Near => newer_piece(self.alloc, &self.proc, from, self.level, &self.near),
            Reach::Far => newer_piece(self.alloc, &self.proc, from, self.level, &self.far),
        }
    }

    /// Returns the put that was sealed last under the key for the processes on other nodes. It takes about the logarithm of the number of
    /// keys.
    pub fn far_put(&self, key: &Key) -> Option<&SealedPut>
        ensures { option_map (λ put. stamp_of put.now) result ≡ finite.get self.now.far key.now }
    {
        self.far.get(key)
    }

    /// Returns the keys with a sealed put for the processes on other nodes, in their order.
    pub fn far_keys(&self) -> Result<Vec<Key>, AllocError>
        ensures { IfOk result (λ keys. keys.items ≡ finite.keys self.now.far) }
    {
        self.far.keys(self.alloc)
    }

    /// Returns a copy, equal to this sealer.
    pub fn copy(&self) -> Result<Sealer, AllocError>
        ensures { IfOk result (λ z. z ≡ self.now) }
    {
        Ok(Sealer {
            alloc: self.alloc,
            proc: self.proc.copy()?,
            level: self.level,
            ended: self.ended,
            near: self.near.copy(self.alloc)?,
            far: self.far.copy(self.alloc)?,
        })
    }
}

impl Copied for Sealer {
    fn copy(&self) -> Result<Sealer, AllocError> {
        Sealer::copy(self)
    }
}

/// Returns the puts that the commits from+1 to the level sealed, by the stamps. Errors: `BadParam` if there is no such commit.
fn newer_piece(
    alloc: Global,
    proc: &Proc,
    from: u64,
    level: u64,
    stamps: &Stamps,
) -> Result<Piece, Refusal>
    requires { CanBeSent proc.now level stamps.now }
    ensures { Gives (λ p. p) result (newer_answer proc.now from level stamps.now) }
{
    if from >= level {
        return Err(Refusal::BadParam);
    }
    let nspace = proc.nspace.copy()?;
    let entries = stamps.newer(alloc, from)?;
    Piece::new(Proc::new(nspace, proc.rank), from, level, entries)
}

/// Returns the put of an end: the key `pmix.term`, true. It takes no memory.
fn last_puts() -> [(Key, Value); 1]
    ensures rising { IsRising result }
    ensures table { table_of result ≡ term_table }
{
    [(Key::of_termination(), Value::Bool(true))]
}
