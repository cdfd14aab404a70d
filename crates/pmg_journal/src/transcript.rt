//! The calls of a client, one after another.
ghost use Rattle.std.specs.Prelude.{◌≡◌, IfOk, map};
ghost use Rattle.pmg_journal.specs.Transcripts.{calling_of, noted_in, noted_of};

use crate::journal::copy_of_answer;
use pmg_node::{Reply, Request};
use pmg_scope::Scope;
use pmg_value::{Key, Proc, Refusal, Value};
use std::alloc::{AllocError, Global};

/// A call of a client.
pub enum Call {
    /// It puts the value under the key, visible as the scope says (PMIx Standard 5.0, PMIx_Put).
    Put(Scope, Key, Value),
    /// It commits its puts (PMIx Standard 5.0, PMIx_Commit).
    Commit,
    /// It makes this request. Its cache answers a get of its own key, unless the key belongs to the standard; its node answers any other
    /// request.
    Request(Request),
}

impl Drop for Call {
    fn drop(self) {
        match self {
            Call::Put(_, _, _) => {}
            Call::Commit => {}
            Call::Request(_) => {}
        }
    }
}

impl Call {
    /// Returns an equal copy.
    pub fn copy(&self) -> Result<Call, AllocError>
        ensures { IfOk result (λ copy. calling_of copy ≡ calling_of self.now) }
    {
        Ok(match self {
            Call::Put(scope, key, value) => Call::Put(*scope, key.copy()?, value.copy()?),
            Call::Commit => Call::Commit,
            Call::Request(request) => Call::Request(request.copy()?),
        })
    }
}

/// A call with its answer.
pub struct Called {
    /// The call.
    pub call: Call,
    /// Its answer.
    pub answer: Result<Reply, Refusal>,
}

impl Drop for Called {
    fn drop(self) {
        let Self { call, answer } = self;
    }
}

impl Called {
    /// Returns an equal copy.
    pub fn copy(&self) -> Result<Called, AllocError>
        ensures { IfOk result (λ copy. noted_of copy ≡ noted_of self.now) }
    {
        let call = self.call.copy()?;
        let answer = copy_of_answer(&self.answer)?;
        Ok(Called { call, answer })
    }
}

/// The calls of a client, from its start on, without its reads that wait for nobody. A fence is recorded as an entry and a leave. A get is
/// recorded as a question and, if it waits, a take. A call whose allocation failed may be missing.
#[derive(Drop)]
pub struct Transcript {
    /// The client's process.
    pub proc: Proc,
    /// Its calls, in their order.
    pub calls: Vec<Called>,
}

/// Returns equal copies of the calls.
fn copies_of(alloc: Global, calls: &[Called]) -> Result<Vec<Called>, AllocError>
    ensures { IfOk result (λ copies. map noted_of copies.items ≡ map noted_of calls.now) }
{
    let mut copies = Vec::new(alloc);
    for called in calls {
        copies.push(called.copy()?)?;
    }
    Ok(copies)
}

impl Transcript {
    /// Returns an equal copy.
    pub fn copy(&self) -> Result<Transcript, AllocError>
        ensures proc { IfOk result (λ copy. copy.proc ≡ self.now.proc) }
        ensures calls { IfOk result (λ copy. noted_in copy ≡ noted_in self.now) }
    {
        let proc = self.proc.copy()?;
        let calls = copies_of(*self.calls.allocator(), &self.calls)?;
        Ok(Transcript { proc, calls })
    }
}
