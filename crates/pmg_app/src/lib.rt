//! The library of `pmixgroup`, which shows the servers of a PMIx group as text: the content of their frames, and their actions in a script
//! or a job. Each command of the program is a function over a reader and a writer, which returns the status.
#![tactic(auto)]

ghost use Rattle.std.specs.Prelude.{◌≡◌, ◌≤◌, ◌+◌, ◌⊎◌, ℕ, IfOk, IfSome, IsNone, IsTrue, vec_len};
ghost use Rattle.pmg_commands.specs.CommandLine.{HasStatus};
ghost use Rattle.pmg_commands.specs.Dump.{dump_output};
ghost use Rattle.pmg_app.specs.Job.{PrintsJob};
ghost use Rattle.pmg_commands.specs.Merge.{merge_output};
ghost use Rattle.pmg_commands.specs.Output.{PrintsFor, TellsReadFault};
ghost use Rattle.pmg_app.specs.Replay.{PrintsReplies};

mod job;
mod replay;

pub use job::run_job;
use pmg_commands::{Chosen, read_command_line, run_dump, run_merge, tell_failures};
use pmg_launch::Program;
use pmg_store::{MOST_READS, WatchedReader};
use pmg_value::WatchedWriter;
pub use replay::run_replay;
use std::io;
use std::io::{BufRead, BufReader, BufWriter, Write};
use std::rt::Env;
use std::sync::Wait;
use std::thread::Threads;
use std::time::Clock;

/// Carries out the request of the command line, from standard input to standard output. It reports on standard error why one of them
/// failed. The processes of a job run these programs.
pub fn run(
    rt: &(impl Env + Input + Print + Eprint + AllocGlobal + Threads + Wait + Clock + Sync),
    programs: Vec<Box<dyn Program>>,
) -> io::Result<u8>
    ensures { IfOk result (λ status. status ≤ 4) }
{
    let chosen = read_command_line(rt)?;
    let mut reader = WatchedReader::new(BufReader::new(rt.alloc(), rt.reader())?);
    let mut writer = WatchedWriter::new(BufWriter::new(rt.alloc(), io::writer(rt))?);
    let status = carry_out(rt, chosen, programs, &mut reader, &mut writer);
    tell_failures(rt, &reader, &writer);
    Ok(status)
}

/// Carries out the chosen command, and returns the status. A job's processes run these programs.
pub fn carry_out<T: AllocGlobal + Threads + Wait + Clock + Sync, R: BufRead, W: Write>(
    rt: &T,
    chosen: Chosen,
    programs: Vec<Box<dyn Program>>,
    reader: &mut WatchedReader<R>,
    writer: &mut WatchedWriter<W>,
) -> u8
    ensures dump { chosen ≡ Chosen.Dump → PrintsFor (R.remaining reader.old.reader) (W.contents writer.old.writer)
        (W.contents writer.new.writer) reader.new.failure writer.new.failure result dump_output }
    ensures merge { chosen ≡ Chosen.Merge → PrintsFor (R.remaining reader.old.reader) (W.contents writer.old.writer)
        (W.contents writer.new.writer) reader.new.failure writer.new.failure result merge_output }
    ensures read_fault { (chosen ≡ Chosen.Dump) ⊎ ((chosen ≡ Chosen.Merge) ⊎ (chosen ≡ Chosen.Run))
        → TellsReadFault (W.contents writer.old.writer) (W.contents writer.new.writer) reader.old.failure reader.new.failure
        writer.new.failure result }
    ensures replay { chosen ≡ Chosen.Replay → IfSome (R.remaining reader.old.reader) (λ text.
        PrintsReplies text (R.remaining reader.new.reader) (W.contents writer.old.writer) (W.contents writer.new.writer)
        reader.old.failure reader.new.failure writer.new.failure result) }
    ensures run { chosen ≡ Chosen.Run → PrintsJob (R.remaining reader.old.reader) (vec_len programs)
        (W.contents writer.old.writer) (W.contents writer.new.writer) writer.new.failure result }
    ensures shown { (status : ℕ) → chosen ≡ Chosen.Shown status
        → (result ≡ status) × (reader.new ≡ reader.old) × (writer.new ≡ writer.old) }
    ensures flushed { IsTrue writer.old.is_flushed → IsNone writer.new.failure
        → IsTrue writer.new.is_flushed }
    ensures few { reader.new.reads ≤ reader.old.reads + MOST_READS }
    ensures status { HasStatus chosen → result ≤ 4 }
{
    let alloc = rt.alloc();
    match chosen {
        Chosen::Dump => run_dump(alloc, reader, writer),
        Chosen::Merge => run_merge(alloc, reader, writer),
        Chosen::Replay => run_replay(alloc, reader, writer),
        Chosen::Run => run_job(rt, alloc, programs, reader, writer),
        Chosen::Shown(status) => status,
    }
}
