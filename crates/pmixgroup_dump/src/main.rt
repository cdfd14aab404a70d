//! Only `pmixgroup dump` and `pmixgroup merge`: they need stores and streams, and no nodes, groups and threads.
#![tactic(auto)]

use pmg_commands::{
    Chosen, USAGE_FAULT, end_with, read_command_line, run_dump, run_merge, tell_failures,
};
use pmg_store::WatchedReader;
use pmg_value::WatchedWriter;
use std::io;
use std::io::{BufReader, BufWriter, Read, Write};
use std::process::ExitCode;
use std::rt::Env;

fn main(rt: HostRuntime) -> ExitCode {
    let status = match run(&rt) {
        Ok(status) => status,
        Err(error) => end_with(&rt, &mut WatchedWriter::new(io::writer(&rt)), &error),
    };
    ExitCode::from(status)
}

/// Carries out the request of the command line, from standard input to standard output. It reports on standard error why one of them
/// failed.
fn run(rt: &(impl Env + Input + Print + Eprint + AllocGlobal)) -> io::Result<u8> {
    let chosen = read_command_line(rt)?;
    let mut reader = WatchedReader::new(BufReader::new(rt.alloc(), rt.reader())?);
    let mut writer = WatchedWriter::new(BufWriter::new(rt.alloc(), io::writer(rt))?);
    let status = carry_out(rt, chosen, &mut reader, &mut writer);
    tell_failures(rt, &reader, &writer);
    Ok(status)
}

/// Carries out the chosen command, and returns the status.
fn carry_out<T: Eprint + AllocGlobal, R: Read, W: Write>(
    rt: &T,
    chosen: Chosen,
    reader: &mut WatchedReader<R>,
    writer: &mut WatchedWriter<W>,
) -> u8 {
    let alloc = rt.alloc();
    match chosen {
        Chosen::Dump => run_dump(alloc, reader, writer),
        Chosen::Merge => run_merge(alloc, reader, writer),
        Chosen::Replay | Chosen::Run => {
            let _ = eprintln!(rt; "pmixgroup: this program dumps and merges alone");
            USAGE_FAULT
        }
        Chosen::Shown(status) => status,
    }
}
