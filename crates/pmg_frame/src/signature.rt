ghost use Rattle.std.specs.Prelude.{◌≡◌, ◌≤◌, length, IsTrue, IfOk};
ghost use Rattle.std.specs.FinSet as set;
ghost use Rattle.std.specs.List.{list_all};
ghost use Rattle.pmg_value.specs.InOrder.{in_order};
ghost use Rattle.pmg_value.specs.Process.{is_client};
ghost use Rattle.pmg_frame.specs.Fences.{AreParticipants, signature, asked_signature};
ghost use Rattle.pmg_frame.specs.Listed.{listed_in};
ghost use Rattle.std.specs.Cmp.{partial_order_from_agreeing_total, partial_equiv_from_equiv};
ghost use Rattle.std.specs.Ordering.{as_partial_cmp, eq_by_cmp};
ghost use Rattle.std.proofs.Common.{refl};
ghost use Rattle.std.proofs.lemmas.Cmp.{eq_by_cmp_equiv};
ghost use Rattle.pmg_frame.specs.FenceOrder.{signature_cmp, signature_total};

use crate::comparing::compare;
use pmg_value::{Copied, Proc, Refusal, copy_all};
use std::alloc::{AllocError, Global};
use std::cmp::Ordering;
use std::marker::Model;
use std::sync::Arc;

/// The most participants of a fence.
pub const MAX_PARTICIPANTS: usize = 4096;

/// The storage of the participants of a fence.
enum Participants {
    /// A list of one owner.
    Own(Vec<Proc>),
    /// A list that all copies share.
    Shared(Arc<Vec<Proc>>),
}

impl Drop for Participants {
    fn drop(self) {
        match self {
            Participants::Own(_) => {}
            Participants::Shared(_) => {}
        }
    }
}

impl Participants {
    /// Returns the listed processes.
    fn as_slice(&self) -> &[Proc]
        ensures { result.now ≡ listed_in self.now }
    {
        match self {
            Participants::Own(list) => list.as_slice(),
            Participants::Shared(list) => list.as_slice(),
        }
    }

    /// Returns this list, which all copies share from now on.
    fn shared(self, alloc: Global) -> Result<Participants, AllocError>
        ensures { IfOk result (λ list. listed_in list ≡ listed_in self) }
    {
        match self {
            Participants::Own(list) => Ok(Participants::Shared(Arc::new(alloc, list)?)),
            Participants::Shared(list) => Ok(Participants::Shared(list)),
        }
    }

    /// Returns another list of the same processes.
    fn copy(&self) -> Result<Participants, AllocError>
        ensures { IfOk result (λ list. listed_in list ≡ listed_in self.now) }
    {
        match self {
            Participants::Own(list) => Ok(Participants::Own(copy_all(list)?)),
            Participants::Shared(list) => Ok(Participants::Shared(Arc::try_clone(list)?)),
        }
    }
}

/// The processes that meet in a fence, each once, and whether the fence collects data (PMIx Standard 5.0,
/// PMIx_Fence, PMIX_COLLECT_DATA).
pub struct Signature {
    participants: Participants,
    collect: bool,
}

impl Drop for Signature {
    fn drop(self) {
        let Self {
            participants,
            collect,
        } = self;
    }
}

impl Model for Signature {
    ghost use Rattle.pmg_value.specs.Signatures as fences;

    ghost Value = { fences.Signature };

    ghost use Rattle.pmg_frame.specs.Fences.{coded_signature};

    ghost coded = { coded_signature };

    ghost use Rattle.pmg_frame.specs.Fences.{AreParticipants, signature};
    ghost use Rattle.pmg_frame.specs.Listed.{listed_in};

    ghost view = { λ a. signature (listed_in a.participants) a.collect };

    ghost invariant = { λ a. AreParticipants (listed_in a.participants) };
}

fn are_clients(list: &[Proc]) -> bool
    ensures { result ≡ list_all is_client list.now }
{
    list.iter().all(|process| process.is_client())
}

impl Signature {
    /// Returns the signature of the processes in the list. Order and repeats do not matter. Errors: `BadParam` if the list is empty, or
    /// names a process that no group may register; `TooMany` if it names more than 4096.
    #[tactic(auto, unfolding(crate::specs::Fences::asked_signature))]
    pub fn new(list: Vec<Proc>, collect: bool) -> Result<Signature, Refusal>
        ensures { result ≡ asked_signature list.items collect }
    {
        if list.is_empty() {
            return Err(Refusal::BadParam);
        }
        if !are_clients(&list) {
            return Err(Refusal::BadParam);
        }
        let mut participants = list;
        participants.sort_unstable();
        participants.dedup();
        if participants.len() > MAX_PARTICIPANTS {
            return Err(Refusal::TooMany);
        }
        Ok(Signature {
            participants: Participants::Own(participants),
            collect,
        })
    }

    /// Returns the signature of processes that are in order already.
    pub fn from_rising(participants: Vec<Proc>, collect: bool) -> Signature
        requires { AreParticipants participants.items }
        ensures { result ≡ signature participants.items collect }
    {
        Signature {
            participants: Participants::Own(participants),
            collect,
        }
    }

    /// Returns this signature. From now on its copies share its list, and take no memory.
    pub fn shared(self, alloc: Global) -> Result<Signature, AllocError>
        ensures { IfOk result (λ s. s ≡ self) }
    {
        let Signature {
            participants,
            collect,
        } = self;
        Ok(Signature {
            participants: participants.shared(alloc)?,
            collect,
        })
    }

    /// Returns the participants, each greater than the one before.
    pub fn participants(&self) -> &[Proc]
        ensures value { result.now ≡ in_order self.now.participants }
        ensures clients { IsTrue (list_all is_client result.now) }
        ensures some { 1 ≤ length result.now }
        ensures few { length result.now ≤ MAX_PARTICIPANTS }
    {
        self.participants.as_slice()
    }

    /// Returns whether the fence collects data.
    pub fn collect(&self) -> bool
        ensures { result ≡ self.now.collect }
    {
        self.collect
    }

    /// Returns whether the process is a participant.
    pub fn contains(&self, process: &Proc) -> bool
        ensures { result ≡ set.contains self.now.participants process.now }
    {
        self.participants.as_slice().binary_search(process).is_ok()
    }

    /// Returns a copy, equal to this signature. It takes memory for its list, unless the list is shared.
    pub fn copy(&self) -> Result<Signature, AllocError>
        ensures { IfOk result (λ s. s ≡ self.now) }
    {
        Ok(Signature {
            participants: self.participants.copy()?,
            collect: self.collect,
        })
    }
}

impl Copied for Signature {
    fn copy(&self) -> Result<Signature, AllocError> {
        Signature::copy(self)
    }
}

/// The order by the participants in their order, then by whether data is collected.
impl Ord for Signature {
    ghost cmp = { signature_cmp };

    ghost total = { signature_total };

    ghost matches_partial_cmp = { λ _ _. refl };

    ghost matches_eq = { λ _ _. refl };

    fn cmp(&self, other: &Signature) -> Ordering {
        let participants = compare(self.participants(), other.participants());
        participants.then(self.collect.cmp(&other.collect))
    }
}

impl PartialOrd for Signature {
    ghost partial_cmp = { as_partial_cmp signature_cmp };

    ghost laws = { partial_order_from_agreeing_total signature_cmp signature_total (λ _ _. refl) (λ _ _. refl) };

    fn partial_cmp(&self, other: &Signature) -> Option<Ordering> {
        Some(self.cmp(other))
    }
}

impl PartialEq for Signature {
    ghost eq = { eq_by_cmp signature_cmp };

    ghost laws = { partial_equiv_from_equiv (eq_by_cmp_equiv signature_total) };

    fn eq(&self, other: &Signature) -> bool {
        self.cmp(other).is_eq()
    }
}

impl Eq for Signature {
    ghost laws = { eq_by_cmp_equiv signature_total };
}
