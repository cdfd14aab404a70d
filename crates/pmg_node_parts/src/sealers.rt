ghost use Rattle.std.specs.Prelude.{◌≡◌, ◌<◌, ◌≤◌, true, false, is_some, IfOk, IfSome, OnOk, OnErr};
ghost use Rattle.std.specs.FinMap as finite;
ghost use Rattle.std.specs.Option.{option_map};
ghost use Rattle.pmg_value.specs.Answers.{Gives};
ghost use Rattle.pmg_value.specs.Process.{can_commit};
ghost use Rattle.pmg_commit.specs.Sealed.{sealed_with, end_of, commit_answer, piece_answer};
ghost use Rattle.pmg_commit.specs.Stamped.{IsSealer};
ghost use Rattle.pmg_commit.specs.TakenBack.{sealer_back, end_back, CanRollBack};
ghost use Rattle.pmg_node_parts.specs.Sealers.{sealed_by};
ghost use Rattle.pmg_commit.specs.declared.piece.TheConstants.{MAX_COMMIT};

use pmg_commit::{Piece, Sealer, SealerUndo};
use pmg_scope::{Batch, Reach};
use pmg_value::{Proc, Refusal, copy_rows};
use std::alloc::{AllocError, Global};
use std::collections::BTreeMap;
use std::marker::Model;

/// The sealer of each own process of a node. A flag says whether one of them may have ended, so that most queries for an end need no
/// look-up.
#[derive(Drop)]
pub struct Sealers {
    rows: BTreeMap<Proc, Sealer>,
    any_ended: bool,
}

impl Model for Sealers {
    ghost use Rattle.std.specs.Prelude.{◌≡◌, false};
    ghost use Rattle.pmg_value.specs.Rows.{map_of};
    ghost use Rattle.pmg_node_parts.specs.Sealers.{AllSealed, coded_all_sealed, NoneEnded};

    ghost Value = { AllSealed };

    ghost coded = { coded_all_sealed };

    ghost view = { λ a. map_of a.rows.entries };

    ghost invariant = { λ a. a.any_ended ≡ false → NoneEnded (map_of a.rows.entries) };
}

impl Sealers {
    /// Makes an empty map.
    pub fn new(alloc: Global) -> Sealers
        ensures { result ≡ finite.empty }
    {
        Sealers {
            rows: BTreeMap::new(alloc),
            any_ended: false,
        }
    }

    /// Adds the sealer of the process, which made no commit.
    pub fn add(&mut self, proc: &Proc, sealer: Sealer) -> Result<(), AllocError>
        ensures ok { OnOk result (self.new ≡ finite.insert self.old proc.now sealer) }
        ensures err { OnErr result (self.new ≡ self.old) }
    {
        self.any_ended = self.any_ended || sealer.has_ended();
        self.rows.insert(proc.copy()?, sealer)?;
        Ok(())
    }

    /// Returns the sealer of the process, if there is one.
    pub fn get(&self, proc: &Proc) -> Option<&Sealer>
        ensures { option_map (λ z. z.now) result ≡ finite.get self.now proc.now }
    {
        self.rows.get(proc)
    }

    /// Returns the number of the process's commits.
    pub fn level(&self, proc: &Proc) -> u64
        ensures value { result ≡ (sealed_by self.now proc.now).level }
        ensures bound { result ≤ MAX_COMMIT }
        ensures sealer { can_commit proc.now ≡ true → IsSealer (sealed_by self.now proc.now) }
    {
        match self.get(proc) {
            Some(sealer) => sealer.level(),
            None => 0,
        }
    }

    /// Returns whether the process has ended.
    pub fn has_ended(&self, proc: &Proc) -> bool
        ensures { result ≡ (sealed_by self.now proc.now).ended }
    {
        if !self.any_ended {
            return false;
        }
        match self.get(proc) {
            Some(sealer) => sealer.has_ended(),
            None => false,
        }
    }

    /// Returns the piece of an own process's commits above a number, for a reach of other processes.
    pub fn piece(&self, proc: &Proc, from: u64, reach: Reach) -> Result<Piece, Refusal>
        requires { is_some (finite.get self.now proc.now) ≡ true }
        ensures { Gives (λ p. p) result (piece_answer (sealed_by self.now proc.now) from reach) }
    {
        match self.get(proc) {
            Some(sealer) => sealer.piece_of(from, reach),
            None => Err(Refusal::NoMemory),
        }
    }

    /// Seals the batch as the own process's next commit, and returns the earlier state.
    pub fn commit(&mut self, proc: &Proc, batch: &Batch) -> Result<SealerUndo, Refusal>
        requires { is_some (finite.get self.old proc.now) ≡ true }
        ensures before { Gives (λ b. sealer_back (sealed_by self.new proc.now) b) result (commit_answer (sealed_by self.old proc.now) batch.now) }
        ensures fits { IfOk result (λ b. CanRollBack (sealed_by self.new proc.now) b) }
        ensures ok { OnOk result (self.new ≡ finite.insert self.old proc.now (sealed_with (sealed_by self.old proc.now) batch.now)) }
        ensures err { OnErr result (self.new ≡ self.old) }
    {
        if let Some(sealer) = self.rows.get_mut(proc) {
            return sealer.commit(batch);
        }
        Err(Refusal::NoMemory)
    }

    /// Ends the own process by its last commit, and returns the earlier state, if it had not ended.
    pub fn end(&mut self, proc: &Proc) -> Result<Option<SealerUndo>, AllocError>
        requires { is_some (finite.get self.old proc.now) ≡ true }
        ensures before { IfOk result (λ b. end_back (sealed_by self.new proc.now) b ≡ sealed_by self.old proc.now) }
        ensures fits { IfOk result (λ b. IfSome b (CanRollBack (sealed_by self.new proc.now))) }
        ensures ok { OnOk result (self.new ≡ finite.insert self.old proc.now (end_of (sealed_by self.old proc.now))) }
        ensures err { OnErr result (self.new ≡ self.old) }
    {
        self.any_ended = true;
        if let Some(sealer) = self.rows.get_mut(proc) {
            return sealer.end();
        }
        Err(AllocError)
    }

    /// Takes the own process's last commit back.
    pub fn rollback(&mut self, proc: &Proc, before: SealerUndo)
        requires own { is_some (finite.get self.old proc.now) ≡ true }
        requires fits { CanRollBack (sealed_by self.old proc.now) before }
        ensures { self.new ≡ finite.insert self.old proc.now (sealer_back (sealed_by self.old proc.now) before) }
    {
        self.any_ended = true;
        if let Some(sealer) = self.rows.get_mut(proc) {
            sealer.rollback(before);
        }
    }

    /// Returns a copy with equal sealers. It keeps the allocator.
    pub fn copy(&self, alloc: Global) -> Result<Sealers, AllocError>
        ensures { IfOk result (λ copy. copy ≡ self.now) }
    {
        Ok(Sealers {
            rows: copy_rows(alloc, &self.rows)?,
            any_ended: self.any_ended,
        })
    }
}
