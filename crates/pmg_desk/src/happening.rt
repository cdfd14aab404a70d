//! The performance of an act at a node, its note in the journal, and its publication.
ghost use Rattle.std.specs.Prelude.{◌≡◌, ◌⊎◌, ◌<◌, ◌++◌, ◌∷◌, [], true, drop, IfOk, IfErr, IfSome, IsNone, IsOkUnless, IsSome, OnErr, OnOk, None, Err, vec_capacity, vec_len};
ghost use Rattle.std.specs.Option.{option_to_list};
ghost use mathlib.Core.List.{IsPrefix};
ghost use Rattle.pmg_value.specs.declared.refusal.Refusal.TheVariants as refusals;
ghost use Rattle.pmg_node.specs.Acting.{act_of, joins_in, reply_as};
ghost use Rattle.pmg_node.specs.Joining.{joins};
ghost use Rattle.pmg_node.specs.Servers.{after, reply_in, reply_to, sent_by};
ghost use Rattle.pmg_journal.specs.Journals.{IsEvent, is_memory, happened, happened_in, happening_of};
ghost use Rattle.pmg_desk.specs.Publishing.{published_of};
ghost use Rattle.pmg_desk.specs.States.{StateGoesOn, StepsGoOn};

use pmg_commit::Piece;
use pmg_history::{Appender, History};
use pmg_journal::{AnswerCopies, Event, Journal, Step, copy_of_answer, is_free_at};
use pmg_node::{Act, Joined, Reply, Server};
use pmg_node_model::Sent;
use pmg_publish::Publisher;
use pmg_value::Refusal;
use std::alloc::{AllocError, Global};
use std::collections::VecDeque;
use std::sync::Wait;

/// The answer of a node to an act, and the pieces that it joined.
#[derive(Drop)]
struct Done {
    told: Result<Reply, Refusal>,
    joined: Joined,
}

/// Returns whether an allocation failed.
fn is_memory(refusal: Refusal) -> bool
    ensures { result ≡ is_memory refusal }
{
    matches!(refusal, Refusal::NoMemory)
}

/// Performs the act, and appends the sent frames to the outbox. Errors: only `NoMemory`, and then nothing happened.
fn done_by(node: &mut Server, act: &Act, outbox: &mut VecDeque<Sent>) -> Result<Done, Refusal>
    ensures reply { IfOk result (λ d. reply_to node.old (act_of act.now) ≡ reply_in reply_as d.told) }
    ensures kind { IfOk result (λ d. IsEvent d.told) }
    ensures joined { IfOk result (λ d. joins_in d.joined ≡ joins node.old.jobs node.old.id node.old.holding (act_of act.now)) }
    ensures done { OnOk result (node.new ≡ after node.old (act_of act.now)) }
    ensures sent { OnOk result (outbox.new.items ≡ outbox.old.items ++ sent_by node.old (act_of act.now)) }
    ensures err { OnErr result ((node.new ≡ node.old) × (outbox.new.items ≡ outbox.old.items)) }
    ensures memory { IsOkUnless result refusals.NoMemory }
{
    match node.act_into(act, outbox) {
        Ok(acted) => Ok(Done {
            told: Ok(acted.reply),
            joined: acted.joined,
        }),
        Err(refusal) if is_memory(refusal) => Err(Refusal::NoMemory),
        Err(refusal) => Ok(Done {
            told: Err(refusal),
            joined: Joined::nothing(),
        }),
    }
}

/// Returns the piece as a list, which is empty without a piece.
fn list_of(alloc: Global, piece: Option<Piece>) -> Result<Vec<Piece>, AllocError>
    ensures { IfOk result (λ list. list.items ≡ option_to_list piece) }
{
    match piece {
        Some(piece) => Ok(vec![in alloc; piece]?),
        None => Ok(Vec::new(alloc)),
    }
}

/// Publishes the joined pieces, if there are any.
fn publish<R: Wait>(
    publisher: &mut Publisher,
    rt: &R,
    alloc: Global,
    mut joined: Joined,
) -> Result<(), Refusal>
    ensures book { publisher.new.book ≡ publisher.old.book }
    ensures ok { OnOk result (publisher.new.log ≡ publisher.old.log ++ published_of (joins_in joined)) }
    ensures open { publisher.old.is_open ≡ true → OnOk result (publisher.new.is_open ≡ true) }
    ensures read { publisher.new.is_read ≡ publisher.old.is_read }
    ensures err { OnErr result (publisher.new.log ≡ publisher.old.log) }
{
    if joined.near.is_none() && joined.far.is_none() {
        return Ok(());
    }
    let near = list_of(alloc, joined.near.take())?;
    let far = list_of(alloc, joined.far.take())?;
    publisher.publish(rt, near, far)
}

/// Returns copies of the frames of the outbox from that place on.
fn frames_from(
    alloc: Global,
    outbox: &VecDeque<Sent>,
    first: usize,
) -> Result<VecDeque<Sent>, AllocError>
    ensures { IfOk result (λ frames. frames.items ≡ drop first outbox.now.items) }
{
    let mut frames = VecDeque::new(alloc);
    for index in first..outbox.len() {
        let sent = &outbox[index];
        let frame = sent.frame.copy()?;
        frames.push_back(Sent { to: sent.to, frame })?;
    }
    Ok(frames)
}

/// The results of an act for the journal: the event, the node's step, and the answer for the caller and for its transcript.
struct Written {
    event: Event,
    sent: VecDeque<Sent>,
    twice: AnswerCopies,
}

impl Drop for Written {
    fn drop(self) {
        let Self { event, sent, twice } = self;
    }
}

impl Written {
    /// Writes the event into the journal, and the node's step into the steps, which both have room. Returns the answer.
    fn write(self, journal: &mut Journal, steps: &mut Vec<Step>, is_free: bool) -> AnswerCopies
        requires place { vec_len journal.old.events < vec_capacity journal.old.events }
        requires step { vec_len steps.old < vec_capacity steps.old }
        ensures answer { result ≡ self.twice }
        ensures events { journal.new.events.items ≡ journal.old.events.items ++ self.event ∷ [] }
        ensures index { journal.new.node ≡ journal.old.node }
        ensures registry { journal.new.registry ≡ journal.old.registry }
        ensures steps { steps.new.items ≡ steps.old.items ++ record { is_free = is_free; sent = self.sent } ∷ [] }
    {
        let Written { event, sent, twice } = self;
        journal.note(event);
        steps.push_reserved(Step { is_free, sent });
        twice
    }
}

/// Copies the sent frames, which are the frames of the outbox from that place on, and the answer.
fn written_by(
    alloc: Global,
    outbox: &VecDeque<Sent>,
    first: usize,
    act: Act,
    told: Result<Reply, Refusal>,
) -> Result<Written, AllocError>
    ensures event { IfOk result (λ w. happening_of w.event ≡ happened act told) }
    ensures sent { IfOk result (λ w. w.sent.items ≡ drop first outbox.now.items) }
    ensures told { IfOk result (λ w. w.twice.told ≡ told) }
    ensures kept { IfOk result (λ w. reply_in reply_as w.twice.kept ≡ reply_in reply_as told) }
{
    let sent = frames_from(alloc, outbox, first)?;
    let answer = copy_of_answer(&told)?;
    let kept = copy_of_answer(&told)?;
    Ok(Written {
        event: Event { act, answer },
        sent,
        twice: AnswerCopies { told, kept },
    })
}

/// Adds the event to the list, and publishes the joined pieces. Returns `None` if an allocation fails: then the list may have the event,
/// and nothing is published.
fn publish_written<R: Wait>(
    list: &mut Appender<Event>,
    publisher: &mut Publisher,
    rt: &R,
    alloc: Global,
    known: &History<Event>,
    event: &Event,
    joined: Joined,
) -> Option<()>
    requires known { known.now.book ≡ list.old.book }
    ensures list { IsSome result → list.new.log ≡ list.old.log ++ event.now ∷ [] }
    ensures known { IsSome result → IsPrefix known.now.log list.old.log }
    ensures of_list { list.new.book ≡ list.old.book }
    ensures book { publisher.new.book ≡ publisher.old.book }
    ensures some { IsSome result → publisher.new.log ≡ publisher.old.log ++ published_of (joins_in joined) }
    ensures open { publisher.old.is_open ≡ true → IsSome result → publisher.new.is_open ≡ true }
    ensures read { publisher.new.is_read ≡ publisher.old.is_read }
    ensures none { IsNone result → publisher.new.log ≡ publisher.old.log }
{
    if list.append(known, event).is_err() {
        return None;
    }
    publish(publisher, rt, alloc, joined).ok()
}

/// Performs the act of the node, if there is one, writes it into the journal with its answer and into the steps, and publishes the joined
/// pieces. Each client's knowledge of the journal is a prefix of it. An allocation that fails before the act changes nothing. If one fails
/// after it, the node is given up, and journal, steps and published store stay.
pub(crate) fn happen_in<R: Wait>(
    node: &mut Option<Server>,
    journal: &mut Journal,
    list: &mut Appender<Event>,
    steps: &mut Vec<Step>,
    outbox: &mut VecDeque<Sent>,
    publisher: &mut Publisher,
    rt: &R,
    act: Act,
    known: &History<Event>,
) -> Result<AnswerCopies, Refusal>
    requires known { known.now.book ≡ list.old.book }
    ensures ok { IfOk result (λ t. StateGoesOn node.old act t.told (happened_in journal.old) outbox.old.items publisher.old.log
        node.new (happened_in journal.new) outbox.new.items publisher.new.log) }
    ensures step { IfOk result (λ t. StepsGoOn node.old act t.told steps.old.items steps.new.items) }
    ensures list { list.old.log ≡ journal.old.events.items → OnOk result (list.new.log ≡ journal.new.events.items) }
    ensures known { OnOk result (IsPrefix known.now.log list.old.log) }
    ensures of_list { list.new.book ≡ list.old.book }
    ensures open { publisher.old.is_open ≡ true → OnOk result (publisher.new.is_open ≡ true) }
    ensures read { publisher.new.is_read ≡ publisher.old.is_read }
    ensures kind { IfOk result (λ t. IsEvent t.told) }
    ensures copy { IfOk result (λ t. reply_in reply_as t.kept ≡ reply_in reply_as t.told) }
    ensures events { OnErr result (journal.new.events.items ≡ journal.old.events.items) }
    ensures steps { OnErr result (steps.new.items ≡ steps.old.items) }
    ensures log { OnErr result (publisher.new.log ≡ publisher.old.log) }
    ensures memory { result ≡ Err refusals.NoMemory → (node.new ≡ None) ⊎ ((node.new ≡ node.old) × (list.new ≡ list.old) × (outbox.new.items ≡ outbox.old.items) × (publisher.new ≡ publisher.old)) }
    ensures shut { node.old ≡ None → result ≡ Err refusals.Closed }
    ensures closed { result ≡ Err refusals.Closed → (node.old ≡ None) × (node.new ≡ node.old) × (list.new ≡ list.old) × (outbox.new.items ≡ outbox.old.items) × (publisher.new ≡ publisher.old) }
    ensures err { IfErr result (λ e. (e ≡ refusals.NoMemory) ⊎ (e ≡ refusals.Closed)) }
    ensures index { journal.new.node ≡ journal.old.node }
    ensures registry { journal.new.registry ≡ journal.old.registry }
    ensures book { publisher.new.book ≡ publisher.old.book }
{
    let Some(whole) = node else {
        return Err(Refusal::Closed);
    };
    journal.reserve()?;
    steps.reserve(1)?;
    let is_free = is_free_at(whole, &act);
    let first = outbox.len();
    let Done { told, joined } = done_by(whole, &act, outbox)?;
    let alloc = journal.registry.allocator();
    let Ok(written) = written_by(alloc, outbox, first, act, told) else {
        *node = None;
        return Err(Refusal::NoMemory);
    };
    if publish_written(list, publisher, rt, alloc, known, &written.event, joined).is_none() {
        *node = None;
        return Err(Refusal::NoMemory);
    }
    Ok(written.write(journal, steps, is_free))
}
