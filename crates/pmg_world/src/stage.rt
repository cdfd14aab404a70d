//! The execution of a script's lines, from the names of the nodes on; and of whole scripts.
ghost use Rattle.std.specs.Prelude.{◌≡◌, ◌≢◌, ◌≤◌, ◌+◌, ◌⊎◌, ℕ, false, List, Ok, Err, IfOk, IfErr, IfSome, IsSome, OnOk, OnErr};
ghost use Rattle.std.specs.Option.{option_map};
ghost use Rattle.pmg_store.specs.declared.failure.Failure.TheVariants as failures;
ghost use Rattle.pmg_store.specs.declared.input.TheConstants.{MOST_READS};
ghost use Rattle.pmg_value.specs.declared.refusal.Refusal.TheVariants as refusals;
ghost use Rattle.pmg_script.specs.Replays.{Replayed};
ghost use Rattle.pmg_world.specs.Asking.{is_get};
ghost use Rattle.pmg_world.specs.GroupStates.{GroupState};
ghost use Rattle.pmg_script.specs.Scripts.{Line as ScriptLine, line_of, texts};
ghost use Rattle.pmg_world.specs.Stages.{OpensAt, PlaysLine, RegistersAt, Runs, RunsAt, StopsLine, AsksNothing, is_over, jobs_at, ok_line, refused_line, sent_at};
ghost use Rattle.pmg_script.specs.declared.lines.LineFault.TheVariants as faults;
ghost use Rattle.pmg_world.specs.declared.phase.Phase.{Phase as AnyPhase};
ghost use Rattle.pmg_world.specs.declared.phase.Phase.TheVariants as phases;

use crate::asking::{ask, home_of, is_named_get, proc_of};
use crate::phase::Phase;
use crate::reply_lines::{refusal_line, reply_line};
use crate::scene::Scene;
use pmg_get::Mode;
use pmg_grouptext::register_space;
use pmg_jobinfo::Registry;
use pmg_node::Reply;
use pmg_node_model::Sent;
use pmg_script::{Ended, Line, LineFault, Named, Player, play_script, read_line};
use pmg_store::{Failure, WatchedReader};
use pmg_value::{Key, Refusal, WatchedWriter};
use std::alloc::{AllocError, Global};
use std::collections::VecDeque;
use std::io::{BufRead, Write};
use std::marker::Model;

/// The stage on which a script's lines are carried out: a group of nodes, once they are named.
#[derive(Drop)]
pub struct Stage {
    alloc: Global,
    phase: Phase,
}

impl Model for Stage {
    ghost use Rattle.pmg_world.specs.contracts.phase.Phase.{the_row as phase_row};
    ghost use Rattle.pmg_world.specs.declared.phase.Phase.{Phase};

    ghost Value = { Phase };

    ghost coded = { phase_row.coded };

    ghost view = { λ a. a.phase };
}

/// Writes the line of a done request.
fn ok_line(room: Vec<u8>) -> Result<Vec<u8>, AllocError>
    ensures { IfOk result (λ line. line.items ≡ ok_line) }
{
    reply_line(room, false, &Ok(Reply::Done))
}

/// Writes the line of a refusal. A failed allocation has no line.
fn line_of_refusal(room: Vec<u8>, refusal: Refusal) -> Result<Vec<u8>, LineFault>
    ensures line { IfOk result (λ line. line.items ≡ refused_line refusal) }
    ensures memory { IfOk result (λ _. refusal ≢ refusals.NoMemory) }
    ensures formed { result ≢ Err faults.Malformed }
{
    match refusal {
        Refusal::NoMemory => Err(LineFault::NoMemory),
        other => Ok(refusal_line(room, &other)?),
    }
}

/// Registers the namespace, and returns the line of the reply.
fn space_line(
    alloc: Global,
    room: Vec<u8>,
    registry: &mut Registry,
    nspace: &[u8],
    homes: &[u64],
) -> Result<Vec<u8>, LineFault>
    ensures ok { IfOk result (λ text. RegistersAt (phases.Registering registry.old) nspace.now homes.now text.items (phases.Registering registry.new)) }
    ensures formed { result ≢ Err faults.Malformed }
{
    match register_space(alloc, registry, nspace, homes) {
        Ok(()) => {}
        Err(refusal) => return Ok(line_of_refusal(room, refusal)?),
    }
    Ok(ok_line(room)?)
}

/// Answers `get NS RANK wait` or `now`, followed by `NS RANK KEY`. Most lines of a script are gets. Therefore the parts of a get have a
/// call of their own, which builds no whole request.
#[inline(never)]
fn run_get(
    alloc: Global,
    room: Vec<u8>,
    scene: &mut Scene,
    proc: &Named<'_>,
    mode: Mode,
    target: &Named<'_>,
    key: &[u8],
) -> Result<Vec<u8>, AllocError>
    ensures { IfOk result (λ text. Runs scene.old (ScriptLine.get proc.now mode target.now key.now) text.items scene.new) }
{
    if !is_named_get(proc, target, key) {
        return refusal_line(room, &Refusal::BadParam);
    }
    let proc = proc_of(alloc, proc)?;
    let target = proc_of(alloc, target)?;
    let key = Key::from_text(alloc, key)?;
    let home = home_of(scene.registry(), &proc);
    scene.get(room, home, &proc, &target, &key, mode)
}

/// Answers the request of the line, which is not a get, to the world.
fn run_other(
    alloc: Global,
    room: Vec<u8>,
    scene: &mut Scene,
    line: &Line<'_>,
) -> Result<Vec<u8>, LineFault>
    requires { is_get (line_of line.now) ≡ false }
    ensures ok { IfOk result (λ text. Runs scene.old (line_of line.now) text.items scene.new) }
    ensures malformed { result ≡ Err faults.Malformed → AsksNothing scene.old (line_of line.now) }
{
    let asked = ask(alloc, scene.registry(), line)?;
    let text = scene.perform(alloc, room, &asked)?;
    Ok(text)
}

/// Answers the request of the line to the world.
fn run_line(
    alloc: Global,
    room: Vec<u8>,
    scene: &mut Scene,
    line: &Line<'_>,
) -> Result<Vec<u8>, LineFault>
    ensures ok { IfOk result (λ text. Runs scene.old (line_of line.now) text.items scene.new) }
    ensures malformed { result ≡ Err faults.Malformed → AsksNothing scene.old (line_of line.now) }
{
    match line {
        Line::Get(proc, mode, target, key) => {
            Ok(run_get(alloc, room, scene, proc, *mode, target, key)?)
        }
        other => run_other(alloc, room, scene, other),
    }
}

impl Stage {
    /// Makes a stage on which no line was carried out.
    pub fn new(alloc: Global) -> Stage
        ensures { result ≡ phases.Fresh }
    {
        Stage {
            alloc,
            phase: Phase::Fresh,
        }
    }

    /// Returns the registry of the group, once its nodes are named.
    pub fn registry(&self) -> Option<&Registry>
        ensures { option_map (λ r. r.now) result ≡ jobs_at self.now }
    {
        match &self.phase {
            Phase::Registering(registry) => Some(registry),
            Phase::Running(scene) => Some(scene.registry()),
            Phase::Fresh | Phase::Over => None,
        }
    }

    /// Returns all frames ever sent, each with its receiver, in their order, once the world runs.
    pub fn sent(&self) -> Option<&VecDeque<Sent>>
        ensures { option_map (λ frames. frames.now.items) result ≡ sent_at self.now }
    {
        match &self.phase {
            Phase::Running(scene) => Some(scene.sent()),
            _ => None,
        }
    }

    /// Opens the group with nodes of these names.
    fn open(&mut self, names: &[&[u8]], room: Vec<u8>) -> Result<Vec<u8>, LineFault>
        ensures ok { IfOk result (λ text. OpensAt self.old (texts names.now) text.items self.new) }
        ensures malformed { result ≡ Err faults.Malformed → (text : List ℕ) (v : AnyPhase) → OpensAt self.old (texts names.now) text v → ⊥ }
    {
        let Phase::Fresh = &self.phase else {
            return Err(LineFault::Malformed);
        };
        match Registry::new(self.alloc, names) {
            Ok(registry) => {
                self.phase = Phase::Registering(registry);
                Ok(ok_line(room)?)
            }
            Err(refusal) => {
                let reply = line_of_refusal(room, refusal)?;
                self.phase = Phase::Over;
                Ok(reply)
            }
        }
    }

    /// Registers a namespace.
    fn register(
        &mut self,
        nspace: &[u8],
        homes: &[u64],
        room: Vec<u8>,
    ) -> Result<Vec<u8>, LineFault>
        ensures ok { IfOk result (λ text. RegistersAt self.old nspace.now homes.now text.items self.new) }
        ensures malformed { result ≡ Err faults.Malformed → (text : List ℕ) (v : AnyPhase) → RegistersAt self.old nspace.now homes.now text v → ⊥ }
    {
        match &mut self.phase {
            Phase::Registering(registry) => space_line(self.alloc, room, registry, nspace, homes),
            _ => Err(LineFault::Malformed),
        }
    }

    /// Starts the world, and carries out the first line with a request to it. It is a call of its own, since making a world takes room.
    #[inline(never)]
    fn start(&mut self, line: &Line<'_>, room: Vec<u8>) -> Result<Vec<u8>, LineFault>
        requires { (w : GroupState) → self.old ≡ phases.Running w → ⊥ }
        ensures ok { IfOk result (λ text. RunsAt self.old (line_of line.now) text.items self.new) }
        ensures malformed { result ≡ Err faults.Malformed → (text : List ℕ) (v : AnyPhase) → RunsAt self.old (line_of line.now) text v → ⊥ }
    {
        let Phase::Registering(registry) = &self.phase else {
            return Err(LineFault::Malformed);
        };
        let mut scene = Scene::new(self.alloc, registry)?;
        let text = run_line(self.alloc, room, &mut scene, line)?;
        self.phase = Phase::Running(scene);
        Ok(text)
    }

    /// Carries out a line with a request to the world, and starts the world if it does not run.
    fn run(&mut self, line: &Line<'_>, room: Vec<u8>) -> Result<Vec<u8>, LineFault>
        ensures ok { IfOk result (λ text. RunsAt self.old (line_of line.now) text.items self.new) }
        ensures malformed { result ≡ Err faults.Malformed → (text : List ℕ) (v : AnyPhase) → RunsAt self.old (line_of line.now) text v → ⊥ }
    {
        match &mut self.phase {
            Phase::Running(scene) => run_line(self.alloc, room, scene, line),
            _ => self.start(line, room),
        }
    }
}

impl Player for Stage {
    ghost plays = { PlaysLine };

    ghost stops = { StopsLine };

    ghost over = { is_over };

    fn play(&mut self, line: &[u8], room: Vec<u8>) -> Result<Vec<u8>, LineFault> {
        match read_line(self.alloc, line)? {
            Line::Nothing => Ok(Vec::new(self.alloc)),
            Line::Nodes(names) => self.open(&names, room),
            Line::Space(nspace, homes) => self.register(nspace, &homes, room),
            line => self.run(&line, room),
        }
    }

    fn is_over(&self) -> bool {
        match &self.phase {
            Phase::Over => true,
            _ => false,
        }
    }
}

/// Carries out the lines of a script on a new stage, and writes their replies, each before the next line is read. It returns how the
/// script ended.
///
/// The first line with content names the nodes; if they are refused, the script is over. Namespaces come next, and then the events.
/// Errors: `BadFrame` with cause Script for a line of no known form or out of its order, and with cause Input past `INPUT_LIMIT` bytes, as
/// in `play_script`; `NoMemory`; a read or write fault.
pub fn replay<R: BufRead, W: Write>(
    alloc: Global,
    stage: &mut Stage,
    reader: &mut WatchedReader<R>,
    writer: &mut WatchedWriter<W>,
) -> Result<Ended, Failure>
    requires new { stage.old ≡ phases.Fresh }
    ensures few { reader.new.reads ≤ reader.old.reads + MOST_READS }
    ensures replayed { IfSome (R.remaining reader.old.reader) (λ text.
        Replayed PlaysLine StopsLine is_over phases.Fresh text (R.remaining reader.new.reader) (W.contents writer.old.writer) (W.contents writer.new.writer) result) }
    ensures read_fault { IfErr result (λ e. e ≡ failures.Read → IsSome reader.new.failure) }
    ensures failed { IsSome reader.new.failure → IsSome reader.old.failure ⊎ (result
        ≡ Err failures.Read) }
    ensures write_fault { IfErr result (λ e. e ≡ failures.Write → IsSome writer.new.failure) }
{
    play_script(alloc, reader, stage, writer)
}
