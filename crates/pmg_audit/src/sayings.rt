//! The claims of transcripts about their clients' events.
ghost use Rattle.std.specs.Prelude.{◌≡◌, ◌≢◌, ◌<◌, ◌++◌, ◌∷◌, [], true, false, length, map, IfOk, IfErr, IfSome, IsNone, OnOk};
ghost use Rattle.pmg_value.specs.Lists.{In, Each};
ghost use Rattle.pmg_value.specs.Spelling.{spelling};
ghost use Rattle.pmg_value.specs.declared.refusal.Refusal.TheVariants as refusals;
ghost use Rattle.pmg_value.specs.declared.process.Proc.{Proc as ProcOf};
ghost use Rattle.pmg_scope.specs.Cached.{no_puts};
ghost use Rattle.pmg_node_model.specs.Acts.{Act as ModelAct, Reply as ModelReply};
ghost use Rattle.pmg_node.specs.Acting.{act_of, reply_as, request_of};
ghost use Rattle.pmg_node.specs.Servers.{reply_in};
ghost use Rattle.pmg_journal.specs.Transcripts.{Calling, calling_of, noted, noted_in, noted_of};
ghost use Rattle.pmg_journal.specs.declared.transcript.Transcript.{Transcript as TranscriptOf};
ghost use Rattle.pmg_audit.specs.Agreeing.{AreOfOtherProcs};
ghost use Rattle.pmg_audit.specs.Codes.{audited_put, rest_of, audited_due};
ghost use Rattle.pmg_audit.specs.Dues.{made_due, dues, is_passed, puts_after, takes_put, takes_all};
ghost use Rattle.pmg_audit.specs.Moves.{is_own_ask};
ghost use Rattle.pmg_audit.specs.Reading.{ReadsCall};
ghost use Rattle.pmg_audit.specs.Taking.{ArePlaces, AreSayings, NoneOf, IsSayingOf, SomeLeft, TakesSaying, sayers};
ghost use Rattle.pmg_audit.specs.declared.moves.Saying.{Saying as SayingOf};

use crate::moves::{Due, Put, Saying};
use pmg_journal::{Call, Called, Transcript, copy_of_answer};
use pmg_node::{Act, Reply, Request};
use pmg_scope::{Cache, Scope};
use pmg_value::{Key, Proc, Refusal, Value};
use std::alloc::{AllocError, Global};
use std::collections::{BTreeMap, VecDeque};
use std::marker::Model;
use std::mem;

/// A transcript that is read: the contents of its client's cache, the puts since its last event, and its events.
struct Reading {
    alloc: Global,
    cache: Cache,
    puts: Vec<Put>,
    dues: VecDeque<Due>,
}

impl Drop for Reading {
    fn drop(self) {
        let Self {
            alloc,
            cache,
            puts,
            dues,
        } = self;
    }
}

/// Returns whether the call is no event: an allocation failed, or its desk was closed.
fn is_passed(answer: &Result<Reply, Refusal>) -> bool
    ensures { result ≡ is_passed (reply_in reply_as answer.now) }
{
    match answer {
        Err(Refusal::NoMemory) => true,
        Err(Refusal::Closed) => true,
        _ => false,
    }
}

/// Returns whether the request is a get of the process's own key, for which no node is asked.
fn is_own_ask(request: &Request) -> bool
    ensures { result ≡ is_own_ask (ModelAct.request (request_of request.now)) }
{
    match request {
        Request::Ask(_, proc, target, key) => proc.cmp(target).is_eq() && !key.is_reserved(),
        _ => false,
    }
}

impl Reading {
    /// Adds a put that is done, and returns whether the cache takes it.
    fn put(&mut self, scope: Scope, key: &Key, value: &Value) -> Result<bool, AllocError>
        ensures takes { IfOk result (λ t. t ≡ takes_put self.old.cache (Calling.put scope key.now (spelling value.now)) ModelReply.done) }
        ensures reads { IfOk result (λ t. t ≡ true
            → (p : ProcOf) → ReadsCall p self.old (noted (Calling.put scope key.now (spelling value.now)) ModelReply.done) self.new) }
    {
        self.puts.push(Put {
            scope,
            key: key.copy()?,
            value: value.copy()?,
        })?;
        match self.cache.put(scope, key.copy()?, value.copy()?) {
            Ok(()) => Ok(true),
            Err(Refusal::NoMemory) => Err(AllocError),
            Err(_) => Ok(false),
        }
    }

    /// Adds the act as an event, with the puts since the previous one.
    fn tell(&mut self, act: Act, answer: &Result<Reply, Refusal>) -> Result<(), AllocError>
        ensures cache { self.new.cache ≡ self.old.cache }
        ensures puts { OnOk result (self.new.puts.items ≡ []) }
        ensures dues { OnOk result (map audited_due self.new.dues.items
            ≡ map audited_due self.old.dues.items ++ made_due (map audited_put self.old.puts.items) (act_of act) (reply_in reply_as answer.now) ∷ []) }
    {
        let answer = copy_of_answer(answer)?;
        self.dues.reserve(1)?;
        let puts = mem::replace(&mut self.puts, Vec::new(self.alloc));
        self.dues.push_back(Due { puts, act, answer })?;
        Ok(())
    }

    /// Adds a commit as an event, which seals the unsealed puts of the cache.
    fn commit(&mut self, proc: &Proc, answer: &Result<Reply, Refusal>) -> Result<(), AllocError>
        ensures { OnOk result (ReadsCall proc.now self.old (noted Calling.commit (reply_in reply_as answer.now)) self.new) }
    {
        if is_passed(answer) {
            return Ok(());
        }
        let batch = self.cache.unsealed()?;
        self.tell(Act::Commit(proc.copy()?, batch), answer)?;
        if let Ok(Reply::Committed(_)) = answer {
            self.cache.mark_sealed();
        }
        Ok(())
    }

    /// Adds a request as an event, unless it is a get of the process's own key.
    fn request(
        &mut self,
        request: &Request,
        answer: &Result<Reply, Refusal>,
    ) -> Result<(), AllocError>
        ensures { OnOk result ((p : ProcOf)
            → ReadsCall p self.old (noted (Calling.request (request_of request.now)) (reply_in reply_as answer.now)) self.new) }
    {
        if is_passed(answer) || is_own_ask(request) {
            return Ok(());
        }
        self.tell(Act::Request(request.copy()?), answer)
    }

    /// Reads the next call of the process, and returns whether its client's cache takes the claimed put.
    fn read(&mut self, proc: &Proc, called: &Called) -> Result<bool, AllocError>
        ensures takes { IfOk result (λ t. t ≡ takes_put self.old.cache (calling_of called.now.call) (reply_in reply_as called.now.answer)) }
        ensures reads { IfOk result (λ t. t ≡ true → ReadsCall proc.now self.old (noted_of called.now) self.new) }
    {
        match &called.call {
            Call::Put(scope, key, value) => match &called.answer {
                Ok(reply) => match reply {
                    Reply::Done => self.put(*scope, key, value),
                    _ => Ok(true),
                },
                Err(_) => Ok(true),
            },
            Call::Commit => {
                self.commit(proc, &called.answer)?;
                Ok(true)
            }
            Call::Request(request) => {
                self.request(request, &called.answer)?;
                Ok(true)
            }
        }
    }
}

impl Reading {
    /// Reads all calls of the process, and returns whether its client's cache takes the claimed puts.
    fn read_all(&mut self, proc: &Proc, calls: &[Called]) -> Result<bool, AllocError>
        ensures taken { IfOk result (λ t. t ≡ takes_all self.old.cache (map noted_of calls.now)) }
        ensures said { IfOk result (λ t. t ≡ true → map audited_due self.new.dues.items
            ≡ map audited_due self.old.dues.items ++ dues proc.now self.old.cache (map audited_put self.old.puts.items) (map noted_of calls.now)) }
        ensures left { IfOk result (λ t. t ≡ true → map audited_put self.new.puts.items
            ≡ puts_after proc.now self.old.cache (map audited_put self.old.puts.items) (map noted_of calls.now)) }
    {
        for called in calls {
            if !self.read(proc, called)? {
                return Ok(false);
            }
        }
        Ok(true)
    }

    /// Returns the claims of the process: the events, and the puts after the last one.
    fn into_saying(self, proc: Proc) -> Saying
        ensures proc { result.proc ≡ proc }
        ensures dues { result.dues ≡ self.dues }
        ensures last { result.last_puts ≡ self.puts }
    {
        let Reading {
            alloc: _,
            cache: _,
            puts,
            dues,
        } = self;
        Saying {
            proc,
            dues,
            last_puts: puts,
        }
    }
}

/// Returns the claims of the transcript, or `None` if the client's cache would refuse a claimed put.
fn saying_of(alloc: Global, transcript: &Transcript) -> Result<Option<Saying>, AllocError>
    ensures said { IfOk result (λ o. IfSome o (λ saying. IsSayingOf saying transcript.now)) }
    ensures taken { IfOk result (λ o. IfSome o (λ saying. takes_all no_puts (noted_in transcript.now) ≡ true)) }
    ensures none { IfOk result (λ o. IsNone o → takes_all no_puts (noted_in transcript.now) ≡ false) }
{
    let mut reading = Reading {
        alloc,
        cache: Cache::new(alloc),
        puts: Vec::new(alloc),
        dues: VecDeque::new(alloc),
    };
    if !reading.read_all(&transcript.proc, &transcript.calls)? {
        return Ok(None);
    }
    let proc = transcript.proc.copy()?;
    Ok(Some(reading.into_saying(proc)))
}

/// The claims of clients, each found by its process.
#[derive(Drop)]
pub(crate) struct Sayings {
    items: Vec<Saying>,
    places: BTreeMap<Proc, usize>,
}

impl Model for Sayings {
    ghost use Rattle.std.specs.Prelude.{List};
    ghost use Rattle.std.specs.Coded.{coded_list};
    ghost use Rattle.pmg_audit.specs.Taking.{ArePlaces, sayers};
    ghost use Rattle.pmg_audit.specs.contracts.moves.Saying.{the_row as saying_row};
    ghost use Rattle.pmg_audit.specs.declared.moves.Saying.{Saying};

    ghost Value = { List Saying };

    ghost coded = { coded_list saying_row.coded };

    ghost view = { λ a. a.items.items };

    ghost invariant = { λ a. ArePlaces (sayers a.items.items) a.places.entries };
}

/// Appends the saying, and adds its place.
fn add(
    items: &mut Vec<Saying>,
    places: &mut BTreeMap<Proc, usize>,
    saying: Saying,
) -> Result<(), AllocError>
    requires places { ArePlaces (sayers items.old.items) places.old.entries }
    requires none { NoneOf items.old.items saying.proc }
    ensures items { OnOk result (items.new.items ≡ items.old.items ++ saying ∷ []) }
    ensures places { OnOk result (ArePlaces (sayers items.new.items) places.new.entries) }
{
    places.insert(saying.proc.copy()?, items.len())?;
    items.push(saying)?;
    Ok(())
}

/// Returns the claims of each transcript. Errors: `Collision` if two are of one process, or if a client's cache would refuse a claimed
/// put; `NoMemory`.
pub(crate) fn sayings_of(alloc: Global, transcripts: &[Transcript]) -> Result<Sayings, Refusal>
    ensures said { IfOk result (λ sayings. AreSayings sayings transcripts.now) }
    ensures apart { IfOk result (λ sayings. AreOfOtherProcs transcripts.now) }
    ensures taken { IfOk result (λ sayings. Each (λ (t : TranscriptOf). takes_all no_puts (noted_in t) ≡ true) transcripts.now) }
    ensures refused { IfErr result (λ e. e ≢ refusals.NoMemory → (e ≡ refusals.Collision)
        × (AreOfOtherProcs transcripts.now → Each (λ (t : TranscriptOf). takes_all no_puts (noted_in t) ≡ true) transcripts.now → ⊥)) }
{
    let mut items = Vec::new(alloc);
    let mut places = BTreeMap::new(alloc);
    for transcript in transcripts {
        if places.contains_key(&transcript.proc) {
            return Err(Refusal::Collision);
        }
        let Some(saying) = saying_of(alloc, transcript)? else {
            return Err(Refusal::Collision);
        };
        add(&mut items, &mut places, saying)?;
    }
    Ok(Sayings { items, places })
}

impl Sayings {
    /// Takes the next event that the process claims.
    pub(crate) fn take_due(&mut self, proc: &Proc) -> Option<Due>
        ensures some { IfSome result (λ d. TakesSaying self.old proc.now (audited_due d) self.new) }
        ensures none { IsNone result → rest_of self.old proc.now ≡ [] }
    {
        match self.places.get(proc).copied() {
            Some(place) => self.items[place].dues.pop_front(),
            None => None,
        }
    }

    /// Returns the claims of each process.
    pub(crate) fn as_slice(&self) -> &[Saying]
        ensures { result.now ≡ self.now }
    {
        &self.items
    }

    /// Returns whether all claimed events are matched.
    pub(crate) fn are_told(&self) -> bool
        ensures told { result ≡ true → Each (λ (s : SayingOf). s.dues.items ≡ []) self.now }
        ensures left { result ≡ false → SomeLeft self.now }
    {
        for saying in &self.items {
            if !saying.dues.is_empty() {
                return false;
            }
        }
        true
    }
}
