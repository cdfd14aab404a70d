//! The answers to waiting calls.
ghost use Rattle.std.specs.Prelude.{◌≡◌, ◌++◌, ◌==◌, ◌&&◌, false, Some, IfOk, OnOk};
ghost use Rattle.std.specs.FinMap as finite;
ghost use Rattle.std.specs.List.{flat_map};
ghost use Rattle.std.specs.Option.{option_map};
ghost use Rattle.pmg_commit.specs.Data.{level_at};
ghost use Rattle.pmg_fence.specs.Entering.{same_proc};
ghost use Rattle.pmg_fence.specs.Tables.{is_ready};
ghost use Rattle.pmg_get.specs.Views.{outcome_of};
ghost use Rattle.pmg_node_parts.specs.BoardPreview.{near_ahead, far_ahead};
ghost use Rattle.pmg_node_parts.specs.Answered.{ArePlain, ArePlainAnew, IsAsker, standings, outcome_with, outcome_then, replied_by, replied_to, answered_about, found_as, gets_answered, still_waits, home_ask, asked_for, released_all, released_in, released_with};
ghost use Rattle.pmg_node_parts.specs.Answering.{AreAnswers, AreAnswersThen, AreAskedAgain};
ghost use Rattle.pmg_node_parts.specs.Calls.{anew_of, get_of};
ghost use Rattle.pmg_node_model.specs.Kept.{is_about, is_in};

use crate::ahead::BoardPreview;
use crate::call::{Completion, Found};
use crate::calls::Calls;
use pmg_fence::Table;
use pmg_frame::{CommitAsk, FenceName, Frame};
use pmg_get::{Answer, Mode};
use pmg_jobinfo::Registry;
use pmg_node_model::{Sent, ToSend};
use pmg_value::{Key, NodeId, Proc, copy_all};
use std::alloc::AllocError;

/// Returns the answer to a get that waited, unless it still waits.
fn to_found(answer: Answer<'_>) -> Result<Option<Found>, AllocError>
    ensures { IfOk result (λ found. found_as found ≡ outcome_of answer.entry) }
{
    match answer {
        Answer::Found(value) => Ok(Some(Found::Value(value.copy()?))),
        Answer::NotFound => Ok(Some(Found::NotFound)),
        Answer::OutsideScope => Ok(Some(Found::OutsideScope)),
        Answer::Park => Ok(None),
    }
}

/// Returns the answer to a get of the target's key with these stores, unless it still waits.
fn find(
    registry: &Registry,
    id: NodeId,
    ahead: &BoardPreview<'_>,
    target: &Proc,
    key: &Key,
) -> Result<Option<Found>, AllocError>
    ensures { IfOk result (λ found. found_as found ≡ outcome_with registry.now id (near_ahead ahead.now) (far_ahead ahead.now) (get_of target.now key.now)) }
{
    to_found(ahead.answer(registry.is_home(id, target), target, key, Mode::Wait))
}

/// Returns the gets of the target's keys that have an answer, with their answers.
fn answer_gets(
    registry: &Registry,
    id: NodeId,
    ahead: &BoardPreview<'_>,
    target: &Proc,
    asks: Vec<(Proc, Key)>,
    answers: &mut Vec<(Proc, Completion)>,
) -> Result<(), AllocError>
    ensures { OnOk result (standings answers.new.items
        ≡ standings answers.old.items ++ gets_answered registry.now id (near_ahead ahead.now) (far_ahead ahead.now) target.now asks.items) }
{
    for (asker, key) in asks {
        let Some(found) = find(registry, id, ahead, target, &key)? else {
            continue;
        };
        answers.push((asker, Completion::Answered(target.copy()?, key, found)))?;
    }
    Ok(())
}

/// Returns the answer to a get that asks anew.
fn found_then(answer: Answer<'_>) -> Result<Found, AllocError>
    requires { still_waits (outcome_of answer) ≡ false }
    ensures { IfOk result (λ found. found_as (Some found) ≡ outcome_of answer.entry) }
{
    match answer {
        Answer::Found(value) => Ok(Found::Value(value.copy()?)),
        Answer::OutsideScope => Ok(Found::OutsideScope),
        Answer::NotFound | Answer::Park => Ok(Found::NotFound),
    }
}

/// Returns the answer to a get of the target's key that asks anew, with these stores.
fn find_then(
    registry: &Registry,
    id: NodeId,
    ahead: &BoardPreview<'_>,
    target: &Proc,
    key: &Key,
) -> Result<Found, AllocError>
    ensures { IfOk result (λ found. found_as (Some found)
        ≡ outcome_then registry.now id (near_ahead ahead.now) (far_ahead ahead.now) (get_of target.now key.now)) }
{
    found_then(ahead.answer(registry.is_home(id, target), target, key, Mode::Now))
}

/// Returns whether a get of a key of the target that waits for the reply to request `waits_for` gets the reply to request `number`, about
/// the process.
fn is_replied(number: u64, proc: &Proc, target: &Proc, waits_for: u64) -> bool
    ensures { result ≡ ((waits_for == number) && same_proc target.now proc.now) }
{
    waits_for == number && target == proc
}

/// Returns the answer to the asker's get by the reply to the request of that number, about the process, if the get waits for this reply.
fn answer_asker(
    registry: &Registry,
    id: NodeId,
    ahead: &BoardPreview<'_>,
    calls: &Calls,
    asker: &Proc,
    number: u64,
    proc: &Proc,
    answers: &mut Vec<(Proc, Completion)>,
) -> Result<(), AllocError>
    ensures { OnOk result (standings answers.new.items ≡ standings answers.old.items
        ++ replied_by registry.now id (near_ahead ahead.now) (far_ahead ahead.now) asker.now number proc.now
        (anew_of (finite.get calls.now asker.now))) }
{
    let Some((target, key, waits_for)) = calls.refreshing(asker) else {
        return Ok(());
    };
    if !is_replied(number, proc, target, waits_for) {
        return Ok(());
    }
    let (asker, target, key) = (asker.copy()?, target.copy()?, key.copy()?);
    let found = find_then(registry, id, ahead, &target, &key)?;
    answers.push((asker, Completion::Refreshed(target, key, found)))?;
    Ok(())
}

/// Returns the answer to the get of the asker, if there is one, by the reply to the request of that number, about the process.
fn answer_reply(
    registry: &Registry,
    id: NodeId,
    ahead: &BoardPreview<'_>,
    calls: &Calls,
    asker: Option<&Proc>,
    number: u64,
    proc: &Proc,
    answers: &mut Vec<(Proc, Completion)>,
) -> Result<(), AllocError>
    ensures { OnOk result (standings answers.new.items ≡ standings answers.old.items
        ++ replied_to registry.now id (near_ahead ahead.now) (far_ahead ahead.now) calls.now
        (option_map (λ p. p.now) asker.entry) number proc.now) }
{
    let Some(asker) = asker else {
        return Ok(());
    };
    answer_asker(registry, id, ahead, calls, asker, number, proc, answers)
}

/// Returns whether the fence is ready with these stores.
fn is_ready(table: &Table, ahead: &BoardPreview<'_>, name: &FenceName) -> bool
    ensures { result ≡ is_ready table.now.jobs table.now.node table.now.fences name.now (level_at (far_ahead ahead.now)) }
{
    table.ready(name, |proc| ahead.far_level(proc))
}

/// Returns the release of the processes from the fence, with the gone participants.
fn release_all(
    name: &FenceName,
    gone: &Vec<Proc>,
    procs: Vec<Proc>,
    answers: &mut Vec<(Proc, Completion)>,
) -> Result<(), AllocError>
    ensures { OnOk result (standings answers.new.items ≡ standings answers.old.items ++ released_all name.now gone.now.items procs.items) }
{
    for proc in procs {
        answers.push((proc, Completion::Released(name.copy()?, copy_all(gone)?)))?;
    }
    Ok(())
}

/// Returns the releases of the processes that wait in the fence, if it is ready.
fn release_in(
    table: &Table,
    ahead: &BoardPreview<'_>,
    calls: &Calls,
    name: &FenceName,
    answers: &mut Vec<(Proc, Completion)>,
) -> Result<(), AllocError>
    ensures { OnOk result (standings answers.new.items
        ≡ standings answers.old.items ++ released_in table.now.jobs table.now.node table.now.fences (far_ahead ahead.now) calls.now name.now) }
{
    if !is_ready(table, ahead, name) {
        return Ok(());
    }
    let gone = table.release(name)?;
    release_all(name, &gone, calls.waiting_in(name)?, answers)
}

/// Returns the releases of the processes that wait in ready fences with the process as a participant.
fn release_with(
    table: &Table,
    ahead: &BoardPreview<'_>,
    calls: &Calls,
    proc: &Proc,
    answers: &mut Vec<(Proc, Completion)>,
) -> Result<(), AllocError>
    ensures { OnOk result (standings answers.new.items
        ≡ standings answers.old.items ++ released_with table.now.jobs table.now.node table.now.fences (far_ahead ahead.now) calls.now proc.now) }
{
    for name in calls.waited_fences()? {
        if name.signature().contains(proc) {
            release_in(table, ahead, calls, name, answers)?;
        }
    }
    Ok(())
}

/// Returns the answers to gets of the process's keys, and the releases from ready fences in which it takes part.
fn answer_about(
    table: &Table,
    id: NodeId,
    ahead: &BoardPreview<'_>,
    calls: &Calls,
    proc: &Proc,
    answers: &mut Vec<(Proc, Completion)>,
) -> Result<(), AllocError>
    requires { table.now.node ≡ id }
    ensures { OnOk result (standings answers.new.items ≡ standings answers.old.items
        ++ answered_about table.now.jobs id table.now.fences (near_ahead ahead.now) (far_ahead ahead.now) calls.now proc.now) }
{
    let registry = table.registry();
    answer_gets(registry, id, ahead, proc, calls.parked_on(proc)?, answers)?;
    release_with(table, ahead, calls, proc, answers)?;
    Ok(())
}

/// Returns the answers to calls with these stores: to gets of the process's keys, and to calls in fences in which it takes part.
pub fn answers_about(
    table: &Table,
    id: NodeId,
    ahead: &BoardPreview<'_>,
    calls: &Calls,
    proc: &Proc,
) -> Result<Vec<(Proc, Completion)>, AllocError>
    requires node { table.now.node ≡ id }
    requires plain { ArePlain calls.now }
    ensures { IfOk result (λ answers. AreAnswers table.now.jobs id (is_about proc.now) table.now.fences (near_ahead ahead.now) (far_ahead ahead.now) calls.now answers.items) }
{
    let mut answers = Vec::new(table.registry().allocator());
    answer_about(table, id, ahead, calls, proc, &mut answers)?;
    Ok(answers)
}

/// Returns the answers to calls with these stores, after the reply to the request of that number, about the process: to the asker's get, if
/// it waits for this reply, to gets of the process's keys, and to calls in fences in which the process takes part.
pub fn answers_then(
    table: &Table,
    id: NodeId,
    ahead: &BoardPreview<'_>,
    calls: &Calls,
    asker: Option<&Proc>,
    number: u64,
    proc: &Proc,
) -> Result<Vec<(Proc, Completion)>, AllocError>
    requires node { table.now.node ≡ id }
    requires plain { ArePlain calls.now }
    requires anew { ArePlainAnew calls.now }
    requires asker { IsAsker calls.now (option_map (λ p. p.now) asker) number proc.now }
    ensures { IfOk result (λ answers. AreAnswersThen table.now.jobs id number proc.now table.now.fences (near_ahead ahead.now) (far_ahead ahead.now)
        calls.now answers.items) }
{
    let registry = table.registry();
    let mut answers = Vec::new(registry.allocator());
    answer_about(table, id, ahead, calls, proc, &mut answers)?;
    answer_reply(
        registry,
        id,
        ahead,
        calls,
        asker,
        number,
        proc,
        &mut answers,
    )?;
    Ok(answers)
}

/// Returns the answers to calls in the fence.
pub fn answers_in(
    table: &Table,
    id: NodeId,
    ahead: &BoardPreview<'_>,
    calls: &Calls,
    name: &FenceName,
) -> Result<Vec<(Proc, Completion)>, AllocError>
    requires { table.now.node ≡ id }
    ensures { IfOk result (λ answers. AreAnswers table.now.jobs id (is_in name.now) table.now.fences (near_ahead ahead.now) (far_ahead ahead.now) calls.now answers.items) }
{
    let mut answers = Vec::new(table.registry().allocator());
    release_in(table, ahead, calls, name, &mut answers)?;
    Ok(answers)
}

/// Returns whether a get of the target's key still waits with these stores.
fn still_waits(
    registry: &Registry,
    id: NodeId,
    ahead: &BoardPreview<'_>,
    target: &Proc,
    key: &Key,
) -> bool
    ensures { result ≡ still_waits (outcome_with registry.now id (near_ahead ahead.now) (far_ahead ahead.now) (get_of target.now key.now)) }
{
    matches!(
        ahead.answer(registry.is_home(id, target), target, key, Mode::Wait),
        Answer::Park
    )
}

/// Returns the request to the process's home for its commits above the known level with these stores.
fn home_ask(
    registry: &Registry,
    id: NodeId,
    ahead: &BoardPreview<'_>,
    proc: &Proc,
) -> Result<ToSend, AllocError>
    ensures { IfOk result (λ due. due ≡ home_ask registry.now id (far_ahead ahead.now) proc.now) }
{
    let Ok(ask) = CommitAsk::new(id, proc.copy()?, ahead.far_level(proc)) else {
        return Err(AllocError);
    };
    Ok(ToSend::Whole(Sent {
        to: registry.home_of(proc),
        frame: Frame::DirectAsk(ask),
    }))
}

/// Returns one request to the process's home for each of the gets of its keys that still waits.
fn ask_for(
    registry: &Registry,
    id: NodeId,
    ahead: &BoardPreview<'_>,
    proc: &Proc,
    asks: Vec<(Proc, Key)>,
) -> Result<Vec<ToSend>, AllocError>
    ensures { IfOk result (λ dues. dues.items ≡ asked_for registry.now id (near_ahead ahead.now) (far_ahead ahead.now) proc.now asks.items) }
{
    let mut dues = Vec::new(registry.allocator());
    for (_, key) in asks {
        if still_waits(registry, id, ahead, proc, &key) {
            dues.push(home_ask(registry, id, ahead, proc)?)?;
        }
    }
    Ok(dues)
}

/// Returns one request to the process's home for each get of the process's keys that still waits with these stores.
pub fn asks_again(
    table: &Table,
    id: NodeId,
    ahead: &BoardPreview<'_>,
    calls: &Calls,
    proc: &Proc,
) -> Result<Vec<ToSend>, AllocError>
    requires node { table.now.node ≡ id }
    requires plain { ArePlain calls.now }
    ensures { IfOk result (λ dues. AreAskedAgain table.now.jobs id proc.now table.now.fences (near_ahead ahead.now) (far_ahead ahead.now) calls.now dues.items) }
{
    let registry = table.registry();
    if registry.is_home(id, proc) {
        return Ok(Vec::new(registry.allocator()));
    }
    ask_for(registry, id, ahead, proc, calls.parked_on(proc)?)
}
