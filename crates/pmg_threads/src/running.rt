//! The run of a job: its desks, the threads of its links and of its clients.
ghost use Rattle.std.specs.Prelude.{◌≡◌, length, map, IfErr, IfOk, vec_len};
ghost use Rattle.pmg_jobinfo.specs.Jobs.{AreJobs};
ghost use Rattle.pmg_desk.specs.Clients.{proc_of};
ghost use Rattle.pmg_threads.specs.Running.{IsCutShort, IsFull, IsRunRefusal, IsUnaudited, TellAll};

use crate::desks::{close_desks, end_desks, is_one_closed, open_desks};
use crate::links::{Ends, Links, deliver_frames, link_desks, nudge_desk, send_frames};
use crate::program::{Ended, Program, Report, Reported, Unaudited};
use crate::shortage::Shortage;
use pmg_desk::{Client, Desk, Unended};
use pmg_jobfile::Job;
use pmg_jobinfo::Registry;
use pmg_journal::Transcript;
use pmg_value::{Proc, Refusal};
use std::alloc::{AllocError, Global};
use std::sync::Wait;
use std::thread;
use std::thread::{JoinHandle, Threads};
use std::time::Clock;

/// The work of the thread of one client.
#[derive(Drop)]
struct Work<'d> {
    program: Box<dyn Program>,
    client: Client<'d>,
}

/// Runs the job over such links, with these programs for its processes, which rise by namespace and rank. It runs a thread for each client
/// and two for the links of each node. If the links have nudges, it runs another thread a node, which asks other nodes again. Once all
/// clients have ended, it returns their reports and the input of an audit: the journals of the nodes, with their evidence, and the
/// transcripts of the clients. Errors: `BadParam` if there is not one program for each process; `NoMemory` if an allocation failed that a
/// desk needs to continue, or a thread cannot be started; `Closed` if a desk was closed for another cause before all clients had ended.
pub fn run_unaudited<R: Threads + Wait + Clock + Sync>(
    rt: &R,
    job: Job,
    programs: Vec<Box<dyn Program>>,
    links: Links,
) -> Result<Unaudited, Refusal>
    ensures full { IfOk result (λ _. IsFull job (vec_len programs)) }
    ensures ok { IfOk result (IsUnaudited job) }
    ensures refused { IfErr result (IsRunRefusal job (vec_len programs)) }
{
    let procs = job.procs()?;
    if programs.len() != procs.len() {
        return Err(Refusal::BadParam);
    }
    let registry = job.registry();
    let alloc = registry.allocator();
    let desks = open_desks(rt, registry)?;
    let ended = run_group(rt, registry, &desks, &procs, programs, links);
    let records = end_desks(rt, alloc, desks);
    let Reported {
        reports,
        transcripts,
        is_cut: _,
    } = ended?;
    Ok(Unaudited {
        reports,
        records: records?,
        transcripts,
    })
}

/// Runs the job on its desks.
fn run_group<R: Threads + Wait + Clock + Sync>(
    rt: &R,
    registry: &Registry,
    desks: &[Desk],
    procs: &[Proc],
    programs: Vec<Box<dyn Program>>,
    links: Links,
) -> Result<Reported, Refusal>
    requires jobs { AreJobs registry.now }
    requires desks { length desks.now ≡ length registry.now.nodes }
    requires programs { vec_len programs ≡ length procs.now }
    ensures told { IfOk result (λ r. TellAll procs.now r.reports.items r.transcripts.items) }
    ensures refused { IfErr result IsCutShort }
{
    let alloc = registry.allocator();
    let work = share_out(rt, registry, desks, procs, programs)?;
    let ends = link_desks(alloc, desks, links)?;
    run_threads(rt, alloc, desks, procs, ends, links.nudges, work)
}

/// Makes the work of each client, by process.
fn share_out<'d, R: Wait>(
    rt: &R,
    registry: &Registry,
    desks: &'d [Desk],
    procs: &[Proc],
    programs: Vec<Box<dyn Program>>,
) -> Result<Vec<Work<'d>>, AllocError>
    requires jobs { AreJobs registry.now }
    requires desks { length desks.now ≡ length registry.now.nodes }
    requires programs { vec_len programs ≡ length procs.now }
    ensures { IfOk result (λ work. map (λ one. proc_of one.client) work.items ≡ procs.now) }
{
    let mut work = Vec::with_capacity(registry.allocator(), procs.len())?;
    for program in programs {
        let proc = &procs[work.len()];
        work.push(work_of(rt, registry, desks, proc, program)?)?;
    }
    Ok(work)
}

/// Makes the work of the process's client, which runs the program. No desk is closed yet, and the process is at home at its desk and has
/// no other client. Therefore its desk refuses it only for lack of memory.
fn work_of<'d, R: Wait>(
    rt: &R,
    registry: &Registry,
    desks: &'d [Desk],
    proc: &Proc,
    program: Box<dyn Program>,
) -> Result<Work<'d>, AllocError>
    requires jobs { AreJobs registry.now }
    requires desks { length desks.now ≡ length registry.now.nodes }
    ensures { IfOk result (λ one. proc_of one.client ≡ proc.now) }
{
    let home = registry.home_of(proc).index() as usize;
    match desks[home].client(rt, proc) {
        Ok(client) => Ok(Work { program, client }),
        Err(_) => Err(AllocError),
    }
}

/// Starts the threads of the links, runs the clients, and closes the desks, so that the links end.
fn run_threads<R: Threads + Wait + Clock + Sync>(
    rt: &R,
    alloc: Global,
    desks: &[Desk],
    procs: &[Proc],
    ends: Vec<Ends<'_>>,
    nudges: u32,
    work: Vec<Work<'_>>,
) -> Result<Reported, Refusal>
    requires { vec_len work ≡ length procs.now }
    ensures told { IfOk result (λ r. TellAll procs.now r.reports.items r.transcripts.items) }
    ensures refused { IfErr result IsCutShort }
{
    let shortage = Shortage::new();
    let noted = &shortage;
    let reported = thread::scope(
        thread::scope_env(),
        rt,
        move |scope| -> Result<Reported, AllocError>
            requires { vec_len work ≡ length procs.now }
            ensures { IfOk result (λ r. TellAll procs.entry.now r.reports.items r.transcripts.items) }
        {
            let mut all_started = true;
            for one in ends {
                let Ends {
                    desk,
                    to,
                    from,
                    traffic,
                } = one;
                let sends = scope
                    .spawn(move || send_frames(rt, desks, noted, desk, to))
                    .is_ok();
                let delivers = scope
                    .spawn(move || deliver_frames(rt, desks, noted, desk, &from))
                    .is_ok();
                let asks = nudges == 0
                    || scope
                        .spawn(move || nudge_desk(rt, desks, noted, desk, &traffic, nudges))
                        .is_ok();
                all_started = all_started && sends && delivers && asks;
            }
            let reported = if all_started {
                tell_clients(rt, alloc, desks, procs, work)
            } else {
                Err(AllocError)
            };
            close_desks(rt, desks);
            reported
        },
    )?;
    judge(reported, shortage.is_noted(rt))
}

/// Returns the reports, if no desk was closed before all clients had ended. Errors: `NoMemory` if an allocation failed in a call of a
/// client or in a link, which is known once these have ended; `Closed` if a desk was closed for another cause.
fn judge(reported: Reported, is_noted: bool) -> Result<Reported, Refusal>
    ensures same { IfOk result (λ r. r ≡ reported) }
    ensures refused { IfErr result IsCutShort }
{
    if !reported.is_cut {
        return Ok(reported);
    }
    if is_noted || is_short(&reported.reports) {
        return Err(Refusal::NoMemory);
    }
    Err(Refusal::Closed)
}

/// Runs the clients, a thread each. Once all have ended, it returns their reports and calls, and whether a desk was closed before. If a
/// thread cannot be started, it closes every desk.
fn tell_clients<R: Threads + Wait + Sync>(
    rt: &R,
    alloc: Global,
    desks: &[Desk],
    procs: &[Proc],
    work: Vec<Work<'_>>,
) -> Result<Reported, AllocError>
    requires { vec_len work ≡ length procs.now }
    ensures { IfOk result (λ r. TellAll procs.now r.reports.items r.transcripts.items) }
{
    thread::scope(
        thread::scope_env(),
        rt,
        move |scope| -> Result<Reported, AllocError>
            requires { vec_len work ≡ length procs.now }
            ensures { IfOk result (λ r. TellAll procs.entry.now r.reports.items r.transcripts.items) }
        {
            let mut threads = Vec::new(alloc);
            for one in work {
                let Work { program, client } = one;
                let started = scope.spawn(move || run_client(
                    rt, alloc, desks, procs, program, client,
                ));
                let Ok(thread) = started else {
                    return Err(give_up(rt, desks));
                };
                if threads.push(thread).is_err() {
                    return Err(give_up(rt, desks));
                }
            }
            join_clients(rt, alloc, procs, threads)
        },
    )
}

/// Closes the desks if not all clients of a job can be started, so that the started clients end.
fn give_up<R: Wait>(rt: &R, desks: &[Desk]) -> AllocError {
    close_desks(rt, desks);
    AllocError
}

/// Joins the threads of the clients, by process.
fn join_clients<R: Threads>(
    rt: &R,
    alloc: Global,
    procs: &[Proc],
    threads: Vec<JoinHandle<Ended>>,
) -> Result<Reported, AllocError>
    requires { vec_len threads ≡ length procs.now }
    ensures { IfOk result (λ r. TellAll procs.now r.reports.items r.transcripts.items) }
{
    let mut reported = Reported::new(alloc);
    for thread in threads {
        let proc = &procs[reported.reports.len()];
        reported.push(proc, thread.join(rt))?;
    }
    Ok(reported)
}

/// Returns whether an allocation failed in a call of a client.
fn is_short(reports: &[Report]) -> bool {
    reports
        .iter()
        .any(|report| report.answer == Err(Refusal::NoMemory))
}

/// Runs the program of one client, and terminates the client if the program returns a refusal. As its last act, each client looks at the
/// desks. A desk that is closed later was closed after all clients had ended.
fn run_client<R: Wait>(
    rt: &R,
    alloc: Global,
    desks: &[Desk],
    procs: &[Proc],
    mut program: Box<dyn Program>,
    mut client: Client<'_>,
) -> Ended {
    let mut text = Vec::new(alloc);
    let mut answer = program.run(&mut client, procs, &mut text);
    let transcript = if answer.is_err() {
        terminate(rt, desks, client, &mut answer)
    } else {
        client.into_transcript()
    };
    let is_cut = is_one_closed(rt, desks);
    Ended {
        text,
        answer,
        transcript,
        is_cut,
    }
}

/// Terminates the client. If the termination is refused, it closes every desk. If an allocation failed in it, the answer becomes NoMemory.
fn terminate<R: Wait>(
    rt: &R,
    desks: &[Desk],
    client: Client<'_>,
    answer: &mut Result<(), Refusal>,
) -> Transcript {
    match client.terminate(rt) {
        Ok(transcript) => transcript,
        Err(unended) => {
            close_desks(rt, desks);
            let Unended { refusal, client } = unended;
            if refusal == Refusal::NoMemory {
                *answer = Err(refusal);
            }
            client.into_transcript()
        }
    }
}
