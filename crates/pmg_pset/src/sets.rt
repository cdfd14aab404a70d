//! The process sets of a group.
ghost use Rattle.std.specs.Prelude.{◌≡◌, ◌≤◌, ◌||◌, not, suc, true, List, [], ◌∷◌, ◌++◌, IfOk, OnOk, OnErr, IfSome};
ghost use Rattle.std.specs.Option.{option_map};
ghost use Rattle.std.specs.Result.{result_map_both};
ghost use Rattle.pmg_value.specs.Answers.{Gives};
ghost use Rattle.pmg_value.specs.CheckOrder.{first_of};
ghost use Rattle.pmg_value.specs.declared.value.Value.TheVariants as values;
ghost use Rattle.pmg_value.specs.Spelling.{spelling};
ghost use Rattle.pmg_scope.specs.declared.scope.Reach.{Reach};
ghost use Rattle.pmg_commit.specs.Sealed.{fresh, is_other, piece_answer};
ghost use Rattle.pmg_commit.specs.Stamped.{IsSealer};
ghost use Rattle.pmg_commit.specs.SealerRules.{FitsSealer};
ghost use Rattle.pmg_commit.specs.TakenBack.{sealer_back};
ghost use Rattle.pmg_pset.specs.Changes.{Change, definition, deletion, script_of};
ghost use Rattle.pmg_pset.specs.Members.{each_once, proc_bytes, no_members};
ghost use Rattle.pmg_pset.specs.Refusing.{AreMeasured, are_too_many, is_too_much, define_cause, room_cause, delete_cause, members_cause, change_answer};
ghost use Rattle.pmg_pset.specs.Sets.{host, set_changed, live_at, live_names, members_at, AreSetsBack};
ghost use Rattle.pmg_commit.specs.declared.piece.TheConstants.{MAX_COMMIT};

use crate::members::{MAX_MEMBERS, are_unfit, array_of, array_size, each_once, members_of};
use pmg_commit::{Piece, Sealer, SealerUndo};
use pmg_scope::{Batch, Reach};
use pmg_value::{Array, Key, MAX_VALUE_SIZE, Proc, Refusal, Value};
use std::alloc::{AllocError, Global};
use std::marker::Model;

/// The process sets of a group (PMIx Standard 5.0, process sets), which node 0 keeps. Each definition and each deletion
/// is a commit of the process `pmix.host 0`: it puts the array of the members, of none where the set is deleted, under
/// the set's name, with PMIX_GLOBAL. So other servers learn of the sets as they learn of what processes put.
#[derive(Drop)]
pub struct Sets {
    alloc: Global,
    sealer: Sealer,
}

impl Model for Sets {
    ghost use Rattle.pmg_commit.specs.Sealed.{Sealed, coded_sealed};
    ghost use Rattle.pmg_pset.specs.Sets.{AreSets};

    ghost Value = { Sealed };

    ghost coded = { coded_sealed };

    ghost view = { λ a. a.sealer };

    ghost invariant = { λ a. AreSets a.sealer };
}

impl Sets {
    /// No sets. It keeps the allocator.
    pub fn new(alloc: Global) -> Sets
        ensures { result ≡ fresh host }
    {
        Sets {
            alloc,
            sealer: Sealer::from_checked(alloc, Proc::of_host()),
        }
    }

    /// Defines the set of these processes, whatever their order and however often each is named, and tells what there was
    /// before, by which the definition can be taken back (PMIx Standard 5.0, process sets). Refused as BadParam where the
    /// name begins with `pmix`, where no process is named, and where one is that no group may register, as one of rank
    /// PMIX_RANK_WILDCARD; as Exists where there is a set of that name; as TooMany where more than 4,096 processes are
    /// named, where their array would be longer than 1,048,576 canonical bytes, where the number of the host's commit would
    /// be 4294967295, and where the sets would pass the limits of a sealer; and as NoMemory. A refused definition changes
    /// nothing.
    pub fn put_set(&mut self, name: &Key, members: Vec<Proc>) -> Result<SealerUndo, Refusal>
        ensures before { Gives (λ b. sealer_back self.new b) result (first_of (define_cause self.old name.now members.items) self.old) }
        ensures fits { IfOk result (λ b. AreSetsBack self.new b) }
        ensures ok { OnOk result (self.new ≡ set_changed self.old name.now (proc_bytes (each_once members.items))) }
        ensures err { OnErr result (self.new ≡ self.old) }
    {
        if name.is_reserved() || are_unfit(&members) {
            return Err(Refusal::BadParam);
        }
        if self.live(name).is_some() {
            return Err(Refusal::Exists);
        }
        self.change(name, each_once(members))
    }

    /// Whether a set of that name can be defined whose members are so many, and their array so many canonical bytes long: for
    /// whatever processes that holds of, as `put_set` is refused once they are known, as Exists and as TooMany. Of more than
    /// 4,096 processes the number may be told as any that is more, and their size as any. It takes no memory.
    pub fn can_define(&self, name: &Key, count: usize, size: usize) -> Result<(), Refusal>
        ensures { (procs : List Proc) → AreMeasured procs count size → result ≡ first_of (room_cause self.now name.now procs) tt }
    {
        match self.live(name) {
            Some(_) => Err(Refusal::Exists),
            None if !self.has_room(name, count, size) => Err(Refusal::TooMany),
            None => Ok(()),
        }
    }

    /// Defines the set of these processes, and gives the number of the host's commit that tells of it. A refused definition changes
    /// nothing. Errors: `BadParam` for a name that begins with `pmix`, without members, or for one that no group may register;
    /// `Exists`; `TooMany` past the limits of members, of a value and of a sealer; `NoMemory`.
    pub fn define(&mut self, name: Key, members: Vec<Proc>) -> Result<u64, Refusal>
        ensures answer { Gives (λ n. n) result (first_of (define_cause self.old name members.items) (suc self.old.level)) }
        ensures ok { OnOk result (self.new ≡ set_changed self.old name (proc_bytes (each_once members.items))) }
        ensures err { OnErr result (self.new ≡ self.old) }
        ensures script { OnOk result ((cs : List Change) → FitsSealer self.old (script_of cs)
            → FitsSealer self.new (script_of (cs ++ definition name members.items ∷ []))) }
    {
        let _ = self.put_set(&name, members)?;
        Ok(self.level())
    }

    /// Deletes the set of that name, which may then be defined again, and tells what there was before, by which the
    /// deletion can be taken back. Refused as NotFound where there is no such set; as TooMany where the number of the
    /// host's commit would be 4294967295; and as NoMemory. Where it is refused the set stays.
    pub fn remove_set(&mut self, name: &Key) -> Result<SealerUndo, Refusal>
        ensures before { Gives (λ b. sealer_back self.new b) result (first_of (delete_cause self.old name.now) self.old) }
        ensures fits { IfOk result (λ b. AreSetsBack self.new b) }
        ensures ok { OnOk result (self.new ≡ set_changed self.old name.now no_members) }
        ensures err { OnErr result (self.new ≡ self.old) }
    {
        if self.live(name).is_none() {
            return Err(Refusal::NotFound);
        }
        self.change(name, Vec::new(self.alloc))
    }

    /// Deletes the set of that name, and gives the number of the host's commit that tells of it. Where it is refused the set stays.
    /// Errors: `NotFound`; `TooMany` past the limits of sealing; `NoMemory`.
    pub fn delete(&mut self, name: &Key) -> Result<u64, Refusal>
        ensures answer { Gives (λ n. n) result (first_of (delete_cause self.old name.now) (suc self.old.level)) }
        ensures ok { OnOk result (self.new ≡ set_changed self.old name.now no_members) }
        ensures err { OnErr result (self.new ≡ self.old) }
        ensures script { OnOk result ((cs : List Change) → FitsSealer self.old (script_of cs)
            → FitsSealer self.new (script_of (cs ++ deletion name.now ∷ []))) }
    {
        let _ = self.remove_set(name)?;
        Ok(self.level())
    }

    /// Takes a definition or a deletion back, by what there was before. It takes no memory.
    pub fn rollback(&mut self, before: SealerUndo)
        requires { AreSetsBack self.old before }
        ensures { self.new ≡ sealer_back self.old before }
    {
        self.sealer.rollback(before);
    }

    /// The members of the set of that name, as an array of processes (PMIx Standard 5.0, PMIX_QUERY_PSET_MEMBERSHIP).
    /// Refused as NotFound where there is no such set. It takes no memory.
    pub fn members(&self, name: &Key) -> Result<&Array, Refusal>
        ensures value { result_map_both (λ a. spelling (values.Array a.now)) (λ e. e) result ≡ first_of (members_cause self.now name.now) (members_at self.now name.now) }
        ensures kind { IfOk result (λ a. a.now.tag ≡ 16) }
    {
        match self.live(name) {
            Some(members) => Ok(members),
            None => Err(Refusal::NotFound),
        }
    }

    /// The names of the sets, in the order of their bytes (PMIx Standard 5.0, PMIX_QUERY_PSET_NAMES).
    pub fn names(&self) -> Result<Vec<Key>, AllocError>
        ensures { IfOk result (λ names. names.items ≡ live_names self.now) }
    {
        let mut names = Vec::new(self.alloc);
        for name in self.sealer.far_keys()? {
            if self.live(&name).is_some() {
                names.push(name)?;
            }
        }
        Ok(names)
    }

    /// What other servers take to learn of the changes from+1 to the level: a contribution of `pmix.host 0`, which is the
    /// same for processes on its node. Refused as BadParam where there is no such change, and as NoMemory.
    pub fn piece_from(&self, from: u64) -> Result<Piece, Refusal>
        ensures { (r : Reach) → is_other r ≡ true → Gives (λ p. p) result (piece_answer self.now from r) }
    {
        self.sealer.piece_of(from, Reach::Far)
    }

    /// The number of the changes that were made.
    pub fn level(&self) -> u64
        ensures value { result ≡ self.now.level }
        ensures bound { result ≤ MAX_COMMIT }
        ensures sealer { IsSealer self.now }
    {
        self.sealer.level()
    }

    /// A copy, equal to these sets.
    pub fn copy(&self) -> Result<Sets, AllocError>
        ensures { IfOk result (λ z. z ≡ self.now) }
    {
        Ok(Sets {
            alloc: self.alloc,
            sealer: self.sealer.copy()?,
        })
    }

    /// The members of the set of that name, if there is one.
    fn live(&self, name: &Key) -> Option<&Array>
        ensures value { option_map (λ a. spelling (values.Array a.now)) result ≡ live_at self.now name.now }
        ensures kind { IfSome result (λ a. a.now.tag ≡ 16) }
    {
        match self.sealer.far_put(name) {
            Some(put) => members_of(put),
            None => None,
        }
    }

    /// Whether a set of that name may have so many members, whose array is so many canonical bytes long.
    fn has_room(&self, name: &Key, count: usize, size: usize) -> bool
        ensures { (procs : List Proc) → AreMeasured procs count size
            → result ≡ not (are_too_many procs || is_too_much self.now name.now (proc_bytes procs)) }
    {
        count <= MAX_MEMBERS && size <= MAX_VALUE_SIZE && self.sealer.can_seal_put(name, size)
    }

    /// Seals the array of these processes under the name, for all, and tells what there was before.
    fn change(&mut self, name: &Key, procs: Vec<Proc>) -> Result<SealerUndo, Refusal>
        ensures before { Gives (λ b. sealer_back self.new b) result (change_answer self.old name.now procs.items) }
        ensures fits { IfOk result (λ b. AreSetsBack self.new b) }
        ensures ok { OnOk result (self.new ≡ set_changed self.old name.now (proc_bytes procs.items)) }
        ensures err { OnErr result (self.new ≡ self.old) }
    {
        let Some(size) = array_size(&procs) else {
            return Err(Refusal::TooMany);
        };
        if !self.sealer.can_seal_put(name, size) {
            return Err(Refusal::TooMany);
        }
        let array = array_of(self.alloc, procs)?;
        let batch = Batch::of_put(self.alloc, name.copy()?, Value::Array(array))?;
        let before = self.sealer.commit(&batch)?;
        Ok(before)
    }
}
