//! The run of a job, followed by its audit.
ghost use Rattle.std.specs.Prelude.{IfErr, IfOk, vec_len};
ghost use Rattle.pmg_threads.specs.Running.{IsFull};
ghost use Rattle.pmg_launch.specs.Audited.{IsLaunchRefusal, IsOutcome};

use pmg_audit::{Run, audit};
use pmg_jobfile::Job;
use pmg_threads::{Links, Program, Report, Unaudited, run_unaudited};
use pmg_value::Refusal;
use std::sync::Wait;
use std::thread::Threads;
use std::time::Clock;

/// The outcome of a job.
#[derive(Drop)]
pub struct Outcome {
    /// The reports of the clients, rising by namespace and rank.
    pub reports: Vec<Report>,
    /// The history of the nodes, as one run of the model.
    pub run: Run,
}

/// Runs the job over links that lose, repeat and hold back no frame, with these programs for its processes, which rise by namespace and
/// rank. Errors, as from `run_linked`: `BadParam`, `Collision`, `Unordered`, `Closed` and `NoMemory`.
pub fn run<R: Threads + Wait + Clock + Sync>(
    rt: &R,
    job: Job,
    programs: Vec<Box<dyn Program>>,
) -> Result<Outcome, Refusal>
    ensures full { IfOk result (λ _. IsFull job (vec_len programs)) }
    ensures audited { IfOk result (IsOutcome job) }
    ensures refused { IfErr result (IsLaunchRefusal job (vec_len programs)) }
{
    run_linked(rt, job, programs, Links::default())
}

/// Runs the job over such links, with these programs for its processes, as `pmg_threads::run_unaudited` does. Once all clients have ended,
/// it audits the desks' records of the nodes and the transcripts of the clients. Errors: `BadParam` if there is not one program for each
/// process; `Closed` if a desk was closed before all clients had ended; `Collision` and `Unordered` if the audit finds a fault;
/// `NoMemory`.
pub fn run_linked<R: Threads + Wait + Clock + Sync>(
    rt: &R,
    job: Job,
    programs: Vec<Box<dyn Program>>,
    links: Links,
) -> Result<Outcome, Refusal>
    ensures full { IfOk result (λ _. IsFull job (vec_len programs)) }
    ensures audited { IfOk result (IsOutcome job) }
    ensures refused { IfErr result (IsLaunchRefusal job (vec_len programs)) }
{
    let alloc = job.registry().allocator();
    let Unaudited {
        reports,
        records,
        transcripts,
    } = run_unaudited(rt, job, programs, links)?;
    let run = audit(alloc, records, &transcripts)?;
    Ok(Outcome { reports, run })
}
