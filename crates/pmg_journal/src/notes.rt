//! The calls of a client, and the state that follows from them.
ghost use Rattle.std.specs.Prelude.{◌≡◌, ◌<◌, ◌∷◌, ◌++◌, ◌||◌, [], false, not, IfOk, OnOk, OnErr, vec_capacity, vec_len, Err, IfErr};
ghost use Rattle.std.specs.FinMap as finite;
ghost use Rattle.std.specs.Option.{option_map};
ghost use Rattle.pmg_value.specs.CheckOrder.{first_of};
ghost use Rattle.pmg_value.specs.Spelling.{spelling};
ghost use Rattle.pmg_value.specs.Names.{is_reserved};
ghost use Rattle.pmg_scope.specs.Cached.{no_puts, unsealed_of, with_put};
ghost use Rattle.pmg_scope.specs.Scopes.{reaches};
ghost use Rattle.pmg_scope.specs.declared.scope.Reach.TheVariants as reach;
ghost use Rattle.pmg_node_model.specs.Acts.{Reply as ModelReply};
ghost use Rattle.pmg_node.specs.Acting.{reply_as};
ghost use Rattle.pmg_node.specs.Servers.{reply_in};
ghost use Rattle.pmg_journal.specs.Journals.{IsEvent};
ghost use Rattle.pmg_journal.specs.Transcripts.{Answers, Calling, NotesCall, cached_after, cached_by, calling_of, is_put, noted, noted_in, put_cause_of, waits_after, waits_by};

use crate::transcript::{Call, Called, Transcript};
use pmg_node::Reply;
use pmg_scope::{Batch, Cache, Reach, Scope, includes};
use pmg_value::{Key, Refusal, Value};
use std::alloc::{AllocError, Global};
use std::marker::Model;

/// The answer to an act, for the caller and for its transcript.
#[derive(Drop)]
pub struct AnswerCopies {
    /// For the caller.
    pub told: Result<Reply, Refusal>,
    /// For its transcript.
    pub kept: Result<Reply, Refusal>,
}

/// A client's transcript, with the state that follows from it: the client's puts, and whether a call of it waits.
pub struct ClientLog {
    transcript: Transcript,
    cache: Cache,
    in_call: bool,
}

impl Drop for ClientLog {
    fn drop(self) {
        let Self {
            transcript,
            cache,
            in_call,
        } = self;
    }
}

impl Model for ClientLog {
    ghost use Rattle.std.specs.Prelude.{◌≡◌, false};
    ghost use Rattle.pmg_scope.specs.Cached.{no_puts};
    ghost use Rattle.pmg_journal.specs.Transcripts.{cached_after, noted_in, waits_after};
    ghost use Rattle.pmg_journal.specs.declared.transcript.Transcript.{Transcript};
    ghost use Rattle.pmg_journal.specs.contracts.transcript.Transcript.{the_row as transcript_row};

    ghost Value = { Transcript };

    ghost coded = { transcript_row.coded };

    ghost view = { λ n. n.transcript };

    ghost invariant = { λ n. (n.cache ≡ cached_after no_puts (noted_in n.transcript)) × (n.in_call ≡ waits_after false (noted_in n.transcript)) };
}

/// Seals the puts if the call is a commit that is done.
fn seal_by(cache: &mut Cache, call: &Call, answer: &Result<Reply, Refusal>)
    requires { is_put (calling_of call.now) ≡ false }
    ensures { cache.new ≡ cached_by cache.old (calling_of call.now) (reply_in reply_as answer.now) }
{
    let Call::Commit = call else {
        return;
    };
    if let Ok(Reply::Committed(_)) = answer {
        cache.mark_sealed();
    }
}

/// Returns whether a call waits after this one, with this answer.
fn waits_by(waits: bool, call: &Call, answer: &Result<Reply, Refusal>) -> bool
    ensures { result ≡ waits_by waits (calling_of call.now) (reply_in reply_as answer.now) }
{
    let Call::Request(_) = call else {
        return waits;
    };
    match answer {
        Ok(Reply::Entered(_)) | Ok(Reply::Parked) => true,
        Ok(Reply::Released(..)) | Ok(Reply::Found(_)) => false,
        Err(Refusal::NotFound) | Err(Refusal::OutsideScope) => false,
        _ => waits,
    }
}

/// Returns whether nobody may make such a put: its key belongs to the standard, or its scope reaches no process.
fn is_bad_put(scope: Scope, key: &Key) -> bool
    ensures { result ≡ (not (reaches scope reach.Own) || is_reserved key.now) }
{
    !includes(scope, Reach::Own) || key.is_reserved()
}

/// Puts the value under the key, unless a call waits.
fn put_into(
    cache: &mut Cache,
    waits: bool,
    scope: Scope,
    key: Key,
    value: Value,
) -> Result<(), Refusal>
    ensures answer { Answers result (first_of (put_cause_of waits cache.old scope key (spelling value)) tt) }
    ensures ok { OnOk result (cache.new ≡ with_put cache.old scope key (spelling value)) }
    ensures err { OnErr result (cache.new ≡ cache.old) }
{
    if !waits {
        return cache.put(scope, key, value);
    }
    if is_bad_put(scope, &key) {
        return Err(Refusal::BadParam);
    }
    Err(Refusal::Busy)
}

/// Notes the put with its answer, for which there is a place. A put whose allocation failed is not noted.
fn note_put(transcript: &mut Transcript, call: Call, answer: &Result<(), Refusal>)
    requires { vec_len transcript.old.calls < vec_capacity transcript.old.calls }
    ensures proc { transcript.new.proc ≡ transcript.old.proc }
    ensures noted { NotesCall (noted_in transcript.old) (noted_in transcript.new) (calling_of call) (λ _. ModelReply.done) answer.now }
{
    let answer = match answer {
        Ok(()) => Ok(Reply::Done),
        Err(Refusal::NoMemory) => return,
        Err(refusal) => Err(*refusal),
    };
    transcript.calls.push_reserved(Called { call, answer });
}

impl ClientLog {
    /// Makes the log of a client from its transcript, which has no calls yet.
    pub fn new(alloc: Global, transcript: Transcript) -> ClientLog
        requires { transcript.calls.items ≡ [] }
        ensures { result ≡ transcript }
    {
        ClientLog {
            transcript,
            cache: Cache::new(alloc),
            in_call: false,
        }
    }

    /// Returns the calls so far.
    pub fn transcript(&self) -> &Transcript
        ensures { result.now ≡ self.now }
    {
        &self.transcript
    }

    /// Returns whether a call waits.
    pub fn in_call(&self) -> bool
        ensures { result ≡ waits_after false (noted_in self.now) }
    {
        self.in_call
    }

    /// Returns the value that the client itself reads under the key.
    pub fn own(&self, key: &Key) -> Option<&Value>
        ensures { option_map (λ v. spelling v.now) result ≡ finite.get (cached_after no_puts (noted_in self.now)).own key.now }
    {
        self.cache.own(key)
    }

    /// Returns the puts that no commit sealed.
    pub fn unsealed(&self) -> Result<Batch, AllocError>
        ensures { IfOk result (λ b. b ≡ unsealed_of (cached_after no_puts (noted_in self.now))) }
    {
        self.cache.unsealed()
    }

    /// Returns the transcript, once the client has ended.
    pub fn into_transcript(self) -> Transcript
        ensures { result ≡ self }
    {
        let ClientLog {
            transcript,
            cache: _,
            in_call: _,
        } = self;
        transcript
    }

    /// Makes a place for another call.
    pub fn reserve(&mut self) -> Result<(), AllocError>
        ensures place { OnOk result (vec_len self.new.calls < vec_capacity self.new.calls) }
        ensures proc { self.new.proc ≡ self.old.proc }
        ensures noted { noted_in self.new ≡ noted_in self.old }
    {
        self.transcript.calls.reserve(1)
    }

    /// Notes a call other than a put with its answer, for which there is a place.
    pub fn note(&mut self, call: Call, answer: Result<Reply, Refusal>)
        requires place { vec_len self.old.calls < vec_capacity self.old.calls }
        requires kind { is_put (calling_of call) ≡ false }
        ensures proc { self.new.proc ≡ self.old.proc }
        ensures noted { noted_in self.new ≡ noted_in self.old ++ noted (calling_of call) (reply_in reply_as answer) ∷ [] }
    {
        let waits = waits_by(self.in_call, &call, &answer);
        seal_by(&mut self.cache, &call, &answer);
        self.in_call = waits;
        self.transcript.calls.push_reserved(Called { call, answer });
    }

    /// Ends a call other than a put, for which there is a place, and returns its answer. A call whose allocation failed is not noted.
    pub fn end(
        &mut self,
        call: Call,
        answer: Result<AnswerCopies, Refusal>,
    ) -> Result<Reply, Refusal>
        requires place { vec_len self.old.calls < vec_capacity self.old.calls }
        requires kind { is_put (calling_of call) ≡ false }
        requires event { IfOk answer (λ t. IsEvent t.told) }
        requires copy { IfOk answer (λ t. reply_in reply_as t.kept ≡ reply_in reply_as t.told) }
        ensures proc { self.new.proc ≡ self.old.proc }
        ensures told { IfOk answer (λ t. result ≡ t.told) }
        ensures refused { IfErr answer (λ e. result ≡ Err e) }
        ensures noted { NotesCall (noted_in self.old) (noted_in self.new) (calling_of call) reply_as result }
    {
        match answer {
            Ok(twice) => {
                self.note(call, twice.kept);
                twice.told
            }
            Err(Refusal::NoMemory) => Err(Refusal::NoMemory),
            Err(refusal) => {
                self.note(call, Err(refusal));
                Err(refusal)
            }
        }
    }

    /// Notes a call other than a put that was answered without the node, by a value, unless an allocation failed.
    pub fn keep(&mut self, call: Call, answer: &Result<Value, Refusal>) -> Result<(), AllocError>
        requires { is_put (calling_of call) ≡ false }
        ensures proc { self.new.proc ≡ self.old.proc }
        ensures noted { OnOk result (NotesCall (noted_in self.old) (noted_in self.new) (calling_of call) (λ v. ModelReply.found (spelling v)) answer.now) }
        ensures err { OnErr result (noted_in self.new ≡ noted_in self.old) }
    {
        let answer = match answer {
            Ok(value) => Ok(Reply::Found(value.copy()?)),
            Err(Refusal::NoMemory) => return Ok(()),
            Err(refusal) => Err(*refusal),
        };
        self.reserve()?;
        self.note(call, answer);
        Ok(())
    }

    /// Puts the value under the key for the client.
    pub fn put(&mut self, scope: Scope, key: Key, value: Value) -> Result<(), Refusal>
        ensures proc { self.new.proc ≡ self.old.proc }
        ensures answer { Answers result (first_of (put_cause_of (waits_after false (noted_in self.old)) (cached_after no_puts (noted_in self.old)) scope key (spelling value)) tt) }
        ensures noted { NotesCall (noted_in self.old) (noted_in self.new) (Calling.put scope key (spelling value)) (λ _. ModelReply.done) result }
    {
        self.reserve()?;
        let call = Call::Put(scope, key.copy()?, value.copy()?);
        let answer = put_into(&mut self.cache, self.in_call, scope, key, value);
        note_put(&mut self.transcript, call, &answer);
        answer
    }
}
