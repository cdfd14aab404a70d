//! The command `run`.
ghost use Rattle.std.specs.Prelude.{◌≡◌, ◌≤◌, ◌+◌, ◌⊎◌, Err, IfErr, IfOk, IsNone, IsSome, IsTrue, Ok, OnErr, Some, vec_len};
ghost use Rattle.std.specs.List.{list_all};
ghost use Rattle.pmg_value.specs.Written.{Writes};
ghost use Rattle.pmg_store.specs.declared.failure.Failure.TheVariants as failures;
ghost use Rattle.pmg_value.specs.declared.refusal.Refusal.TheVariants as refusals;
ghost use Rattle.pmg_app.specs.Job.{FailsJob, IsJobStatus, IsOutcomeOf, PrintsJob, audit_output, audited_text, client_name, far_text, is_audit_fault, is_done, is_unreported, job_failure, job_output, outcome_status, outcome_text, report_text, reports_text, unreported_line};
ghost use Rattle.pmg_commands.specs.Output.{IsStatus, Prints, TellsReadFault};

use pmg_audit::Run;
use pmg_commands::{AUDIT_FAULT, DONE, FAILED, conclude, finish, write_refusal};
use pmg_jobfile::Job;
use pmg_launch::{Outcome, Program, Report, run};
use pmg_store::{Failure, MOST_READS, WatchedReader, read_input};
use pmg_value::{NodeId, Proc, Refusal, WatchedWriter, WriteFault};
use std::alloc::Global;
use std::io::{Read, Write};
use std::mem;
use std::sync::Wait;
use std::thread::Threads;
use std::time::Clock;

/// The outcome of a job, with the text that is printed of its run.
#[derive(Drop)]
struct Ran {
    outcome: Outcome,
    audited: Vec<u8>,
}

/// Reads a job as JSON to its end, and runs these programs as its processes, by namespace and rank. Prints their reports, the far dump of
/// node 0 and `audit ok`, and returns the status. Programs past the number of the processes are dropped.
///
/// The function prints nothing before the job has ended and was audited. A client whose program had no memory for its report has the line
/// `client NS RANK refused 0 NoMemory`. The status is 1 for a refused job, a read fault and a write fault, and if a client's program
/// returned a refusal. It is 3 if an allocation failed, and 4 if the audit found a fault. A refusal of the job, a read fault and an
/// audit's fault print a line. A failure of the reader is always reported as a read fault. If the writer fails, nothing more is printed.
/// The outcome of the job is leaked on purpose: the program ends after it is printed.
pub fn run_job<T: Threads + Wait + Clock + Sync, R: Read, W: Write>(
    rt: &T,
    alloc: Global,
    programs: Vec<Box<dyn Program>>,
    reader: &mut WatchedReader<R>,
    writer: &mut WatchedWriter<W>,
) -> u8
    ensures printed { PrintsJob (R.remaining reader.old.reader) (vec_len programs) (W.contents writer.old.writer)
        (W.contents writer.new.writer) writer.new.failure result }
    ensures read_fault { TellsReadFault (W.contents writer.old.writer) (W.contents writer.new.writer)
        reader.old.failure reader.new.failure writer.new.failure result }
    ensures flushed { IsNone writer.new.failure → IsTrue writer.new.is_flushed }
    ensures few { reader.new.reads ≤ reader.old.reads + MOST_READS }
    ensures status { IsJobStatus result }
{
    match read_and_run(rt, alloc, programs, reader) {
        Ok(ran) => {
            let status = print_outcome(writer, &ran.outcome, &ran.audited);
            // The program ends now and frees its memory as a whole: taking the run apart would only cost time.
            mem::forget(ran);
            status
        }
        Err(failure) => print_failure(writer, failure),
    }
}

/// Reads the job and runs it.
fn read_and_run<T: Threads + Wait + Clock + Sync, R: Read>(
    rt: &T,
    alloc: Global,
    programs: Vec<Box<dyn Program>>,
    reader: &mut WatchedReader<R>,
) -> Result<Ran, Failure>
    ensures outcome { IfOk result (λ ran. IsOutcomeOf (R.remaining reader.old.reader) ran.outcome) }
    ensures refused { IfErr result (FailsJob (R.remaining reader.old.reader) (vec_len programs)) }
    ensures audited { IfOk result (λ ran. ran.audited.items ≡ audited_text ran.outcome.run) }
    ensures failed { IsSome reader.new.failure → IsSome reader.old.failure ⊎ (result
        ≡ Err failures.Read) }
    ensures few { reader.new.reads ≤ reader.old.reads + MOST_READS }
{
    let text = read_input(alloc, reader)?;
    let outcome = run_text(rt, alloc, programs, text)?;
    let audited = audited_text(alloc, &outcome.run)?;
    Ok(Ran { outcome, audited })
}

/// Runs the job that the text describes.
fn run_text<T: Threads + Wait + Clock + Sync>(
    rt: &T,
    alloc: Global,
    mut programs: Vec<Box<dyn Program>>,
    text: Vec<u8>,
) -> Result<Outcome, Refusal>
    ensures outcome { IfOk result (IsOutcomeOf (Some text.items)) }
    ensures refused { IfErr result (λ e. FailsJob (Some text.items) (vec_len programs) (failures.Refused e)) }
{
    let job = Job::read(alloc, &text)?;
    drop(text);
    programs.truncate(job.procs()?.len());
    run(rt, job, programs)
}

/// Returns the far dump of the first node at the end of the run; an empty text if the group has no nodes.
fn far_dump(alloc: Global, run: &Run) -> Result<Vec<u8>, Refusal>
    ensures ok { IfOk result (λ text. text.items ≡ far_text run.now) }
    ensures err { IfErr result (λ e. e ≡ refusals.NoMemory) }
{
    let mut writer = WatchedWriter::new(Vec::new(alloc));
    match run.dump(NodeId::new(0)?, &mut writer) {
        Ok(()) | Err(Failure::Refused(Refusal::BadParam)) => Ok(writer.into_inner()),
        Err(_) => Err(Refusal::NoMemory),
    }
}

/// Returns the far dump of the first node, and the line `audit ok`.
#[tactic(auto, unfolding(crate::specs::Job::audited_text))]
fn audited_text(alloc: Global, run: &Run) -> Result<Vec<u8>, Refusal>
    ensures ok { IfOk result (λ text. text.items ≡ audited_text run.now) }
    ensures err { IfErr result (λ e. e ≡ refusals.NoMemory) }
{
    let mut text = far_dump(alloc, run)?;
    text.extend_from_slice(b"audit ok\n")?;
    Ok(text)
}

/// Prints why a job has no outcome, and returns the status.
fn print_failure<W: Write>(writer: &mut WatchedWriter<W>, failure: Failure) -> u8
    ensures printed { Prints (W.contents writer.old.writer) (W.contents writer.new.writer) writer.new.failure
        result (job_failure failure) }
    ensures flushed { IsNone writer.new.failure → IsTrue writer.new.is_flushed }
    ensures status { IsJobStatus result }
{
    match failure {
        Failure::Refused(refusal) if is_audit_fault(refusal) => print_audit_fault(writer, refusal),
        other => conclude(writer, Err(other)),
    }
}

/// Returns whether an audit finds such a fault.
fn is_audit_fault(refusal: Refusal) -> bool
    ensures { result ≡ is_audit_fault refusal }
{
    matches!(
        refusal,
        Refusal::Collision | Refusal::Stale | Refusal::Unordered
    )
}

/// Prints the fault that the audit found, and returns the status.
fn print_audit_fault<W: Write>(writer: &mut WatchedWriter<W>, refusal: Refusal) -> u8
    ensures printed { Prints (W.contents writer.old.writer) (W.contents writer.new.writer) writer.new.failure
        result (audit_output refusal) }
    ensures flushed { IsNone writer.new.failure → IsTrue writer.new.is_flushed }
    ensures status { IsJobStatus result }
{
    let _ = write_refusal(writer, b"audit fault ", &refusal);
    finish(writer, AUDIT_FAULT)
}

/// Prints the reports and then the text about the run, and returns the status.
fn print_outcome<W: Write>(writer: &mut WatchedWriter<W>, outcome: &Outcome, audited: &[u8]) -> u8
    requires { audited.now ≡ audited_text outcome.now.run }
    ensures printed { Prints (W.contents writer.old.writer) (W.contents writer.new.writer) writer.new.failure
        result (job_output (Ok outcome.now)) }
    ensures flushed { IsNone writer.new.failure → IsTrue writer.new.is_flushed }
    ensures status { IsJobStatus result }
{
    let _ = write_outcome(writer, outcome, audited);
    finish(writer, status_of(outcome))
}

/// Writes the reports, and then the text about the run.
#[tactic(auto, using(pmg_value::proofs::WrittenLemmas::written_in_parts), unfolding(crate::specs::Job::outcome_text))]
fn write_outcome<W: Write>(
    writer: &mut WatchedWriter<W>,
    outcome: &Outcome,
    audited: &[u8],
) -> Result<(), WriteFault>
    requires { audited.now ≡ audited_text outcome.now.run }
    ensures text { Writes (W.contents writer.old.writer) (W.contents writer.new.writer) result (outcome_text outcome.now) }
    ensures failed { OnErr result (IsSome writer.new.failure) }
{
    write_reports(writer, &outcome.reports)?;
    writer.put_text(audited)
}

/// Writes the reports, in their order.
fn write_reports<W: Write>(
    writer: &mut WatchedWriter<W>,
    reports: &[Report],
) -> Result<(), WriteFault>
    ensures text { Writes (W.contents writer.old.writer) (W.contents writer.new.writer) result (reports_text reports.now) }
    ensures failed { OnErr result (IsSome writer.new.failure) }
{
    for report in reports {
        write_report(writer, report)?;
    }
    Ok(())
}

/// Writes the text that the client's program wrote, or the line of a client without memory for its report.
#[tactic(auto, unfolding(crate::specs::Job::report_text))]
fn write_report<W: Write>(writer: &mut WatchedWriter<W>, report: &Report) -> Result<(), WriteFault>
    ensures text { Writes (W.contents writer.old.writer) (W.contents writer.new.writer) result (report_text report.now) }
    ensures failed { OnErr result (IsSome writer.new.failure) }
{
    if is_unreported(report) {
        write_unreported(writer, &report.proc)
    } else {
        writer.put_text(&report.text)
    }
}

/// Returns whether the client's program had no memory for its report: it wrote nothing, and returned NoMemory.
fn is_unreported(report: &Report) -> bool
    ensures { result ≡ is_unreported report.now }
{
    report.text.is_empty() && matches!(report.answer, Err(Refusal::NoMemory))
}

/// Writes the line of a client without memory for its report.
#[tactic(auto, using(pmg_value::proofs::WrittenLemmas::written_in_parts), unfolding(crate::specs::Job::unreported_line, crate::specs::Job::client_refusal))]
fn write_unreported<W: Write>(writer: &mut WatchedWriter<W>, proc: &Proc) -> Result<(), WriteFault>
    ensures text { Writes (W.contents writer.old.writer) (W.contents writer.new.writer) result (unreported_line proc.now) }
    ensures failed { OnErr result (IsSome writer.new.failure) }
{
    write_client_name(writer, proc)?;
    write_refusal(writer, b" refused ", &Refusal::NoMemory)
}

/// Writes `client`, the namespace and the rank.
#[tactic(auto, using(pmg_value::proofs::WrittenLemmas::written_in_parts), unfolding(crate::specs::Job::client_name))]
fn write_client_name<W: Write>(writer: &mut WatchedWriter<W>, proc: &Proc) -> Result<(), WriteFault>
    ensures text { Writes (W.contents writer.old.writer) (W.contents writer.new.writer) result (client_name proc.now) }
    ensures failed { OnErr result (IsSome writer.new.failure) }
{
    writer.put_texts(b"client ", proc.nspace.as_bytes(), b" ")?;
    writer.put_number(u64::from(proc.rank.number()))
}

/// Returns the status of the outcome after everything was printed.
#[tactic(auto, unfolding(crate::specs::Job::outcome_status))]
fn status_of(outcome: &Outcome) -> u8
    ensures value { result ≡ outcome_status outcome.now }
    ensures status { IsStatus result }
{
    if are_done(&outcome.reports) {
        DONE
    } else {
        FAILED
    }
}

/// Returns whether no client's program returned a refusal.
fn are_done(reports: &[Report]) -> bool
    ensures { result ≡ list_all is_done reports.now }
{
    for report in reports {
        if report.answer.is_err() {
            return false;
        }
    }
    true
}
