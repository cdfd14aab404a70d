ghost use Rattle.std.specs.Prelude.{◌≡◌, ◌<◌, ◌≤◌, true, false, is_some, IfOk, OnOk, OnErr};
ghost use Rattle.std.specs.FinMap as finite;
ghost use Rattle.pmg_value.specs.Answers.{Gives};
ghost use Rattle.pmg_value.specs.CheckOrder.{first_of};
ghost use Rattle.pmg_value.specs.Process.{can_commit, is_host};
ghost use Rattle.pmg_commit.specs.Sealed.{sealed_with, commit_answer, is_other, piece_at};
ghost use Rattle.pmg_commit.specs.Stamped.{IsSealer};
ghost use Rattle.pmg_commit.specs.TakenBack.{sealer_back, CanRollBack};
ghost use Rattle.pmg_pset.specs.Members.{each_once, proc_bytes, no_members};
ghost use Rattle.pmg_pset.specs.Refusing.{define_cause, delete_cause};
ghost use Rattle.pmg_pset.specs.Sets.{set_changed, AreSetsBack};
ghost use Rattle.pmg_node_parts.specs.Owns.{sealed_of, with_sealed, with_sets};
ghost use Rattle.pmg_commit.specs.declared.piece.TheConstants.{MAX_COMMIT};

use crate::sealers::Sealers;
use pmg_commit::{Piece, SealerUndo};
use pmg_pset::Sets;
use pmg_scope::{Batch, Reach};
use pmg_value::{Key, Proc, Refusal};
use std::alloc::{AllocError, Global};
use std::marker::Model;

/// The commits of a node's own processes, and the process sets.
pub struct LocalCommits {
    pub sealers: Sealers,
    pub sets: Sets,
}

impl Drop for LocalCommits {
    fn drop(self) {
        let Self { sealers, sets } = self;
    }
}

impl Model for LocalCommits {
    ghost use Rattle.pmg_node_parts.specs.Owns as owns;

    ghost Value = { owns.LocalCommits };

    ghost coded = { owns.coded_own };

    ghost view = { λ a. record { sealers = a.sealers; sets = a.sets } };
}

impl LocalCommits {
    /// Returns the number of the process's commits; for the process that represents the group's host, the number of changes of the sets.
    #[tactic(auto, unfolding(pmg_node_model::specs::Holdings::sealer_in))]
    pub fn level(&self, proc: &Proc) -> u64
        ensures value { result ≡ (sealed_of self.now proc.now).level }
        ensures bound { result ≤ MAX_COMMIT }
        ensures sealer { can_commit proc.now ≡ true → IsSealer (sealed_of self.now proc.now) }
    {
        if proc.is_host() {
            return self.sets.level();
        }
        self.sealers.level(proc)
    }

    /// Returns whether the process, which does not represent the group's host, has ended.
    #[tactic(auto, unfolding(pmg_node_model::specs::Holdings::sealer_in))]
    pub fn has_ended(&self, proc: &Proc) -> bool
        requires { is_host proc.now ≡ false }
        ensures { result ≡ (sealed_of self.now proc.now).ended }
    {
        self.sealers.has_ended(proc)
    }

    /// Returns the piece of the process's commits above a number, for a reach of other processes. Because these commits exist, only an
    /// allocation can fail.
    #[tactic(auto, unfolding(pmg_node_model::specs::Holdings::sealer_in))]
    pub fn piece(&self, proc: &Proc, from: u64, reach: Reach) -> Result<Piece, AllocError>
        requires others { is_other reach ≡ true }
        requires level { from < (sealed_of self.now proc.now).level }
        ensures { IfOk result (λ c. c ≡ piece_at (sealed_of self.now proc.now) from reach) }
    {
        let piece = if proc.is_host() {
            self.sets.piece_from(from)
        } else {
            self.sealers.piece(proc, from, reach)
        };
        match piece {
            Ok(piece) => Ok(piece),
            Err(_) => Err(AllocError),
        }
    }

    /// Seals the batch as the process's next commit, and returns the earlier state.
    #[tactic(auto, unfolding(pmg_node_model::specs::Holdings::sealer_in))]
    pub fn commit(&mut self, proc: &Proc, batch: &Batch) -> Result<SealerUndo, Refusal>
        requires client { is_host proc.now ≡ false }
        requires own { is_some (finite.get self.old.sealers proc.now) ≡ true }
        ensures before { Gives (λ b. sealer_back (sealed_of self.new proc.now) b) result (commit_answer (sealed_of self.old proc.now) batch.now) }
        ensures fits { IfOk result (λ b. CanRollBack (sealed_of self.new proc.now) b) }
        ensures ok { OnOk result (self.new ≡ with_sealed self.old proc.now (sealed_with (sealed_of self.old proc.now) batch.now)) }
        ensures err { OnErr result (self.new ≡ self.old) }
    {
        self.sealers.commit(proc, batch)
    }

    /// Takes the process's last commit back.
    #[tactic(auto, unfolding(pmg_node_model::specs::Holdings::sealer_in))]
    pub fn rollback(&mut self, proc: &Proc, before: SealerUndo)
        requires client { is_host proc.now ≡ false }
        requires own { is_some (finite.get self.old.sealers proc.now) ≡ true }
        requires fits { CanRollBack (sealed_of self.old proc.now) before }
        ensures { self.new ≡ with_sealed self.old proc.now (sealer_back (sealed_of self.old proc.now) before) }
    {
        self.sealers.rollback(proc, before);
    }

    /// Returns the number of changes of the sets.
    pub fn sets_level(&self) -> u64
        ensures value { result ≡ self.now.sets.level }
        ensures bound { result ≤ MAX_COMMIT }
    {
        self.sets.level()
    }

    /// Defines the set of these processes, and returns the earlier state.
    pub fn define(&mut self, name: &Key, members: Vec<Proc>) -> Result<SealerUndo, Refusal>
        ensures before { Gives (λ b. sealer_back self.new.sets b) result (first_of (define_cause self.old.sets name.now members.items) self.old.sets) }
        ensures fits { IfOk result (λ b. AreSetsBack self.new.sets b) }
        ensures ok { OnOk result (self.new ≡ with_sets self.old (set_changed self.old.sets name.now (proc_bytes (each_once members.items)))) }
        ensures err { OnErr result (self.new ≡ self.old) }
    {
        self.sets.put_set(name, members)
    }

    /// Deletes the set of that name, and returns the earlier state.
    pub fn delete(&mut self, name: &Key) -> Result<SealerUndo, Refusal>
        ensures before { Gives (λ b. sealer_back self.new.sets b) result (first_of (delete_cause self.old.sets name.now) self.old.sets) }
        ensures fits { IfOk result (λ b. AreSetsBack self.new.sets b) }
        ensures ok { OnOk result (self.new ≡ with_sets self.old (set_changed self.old.sets name.now no_members)) }
        ensures err { OnErr result (self.new ≡ self.old) }
    {
        self.sets.remove_set(name)
    }

    /// Takes the last change of the sets back.
    pub fn take_sets_back(&mut self, before: SealerUndo)
        requires { AreSetsBack self.old.sets before }
        ensures { self.new ≡ with_sets self.old (sealer_back self.old.sets before) }
    {
        self.sets.rollback(before);
    }

    /// Returns a copy with equal commits and equal sets.
    pub fn copy(&self, alloc: Global) -> Result<LocalCommits, AllocError>
        ensures { IfOk result (λ copy. copy ≡ self.now) }
    {
        Ok(LocalCommits {
            sealers: self.sealers.copy(alloc)?,
            sets: self.sets.copy()?,
        })
    }
}
