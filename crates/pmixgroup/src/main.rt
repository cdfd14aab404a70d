//! `pmixgroup`: the servers of a PMIx group, as text: the content of their frames, and their actions in a script or a job.
#![tactic(auto)]

use pmg_app::run;
use pmg_commands::end_with;
use pmg_jobfile::MAX_JOB_PROCS;
use pmg_launch::{Exchange, Program};
use pmg_value::WatchedWriter;
use std::io;
use std::io::ErrorKind;
use std::process::ExitCode;

fn main(rt: HostRuntime) -> ExitCode {
    let alloc = rt.alloc();
    let mut programs: Vec<Box<dyn Program>> = Vec::new(alloc);
    let mut is_short = false;
    for _ in 0..MAX_JOB_PROCS {
        let Ok(program) = Box::new(alloc, Exchange::new(rt, alloc)) else {
            is_short = true;
            break;
        };
        is_short = is_short || programs.push(program).is_err();
    }
    let ended = if is_short {
        Err(io::Error::from(ErrorKind::OutOfMemory))
    } else {
        run(&rt, programs)
    };
    let status = match ended {
        Ok(status) => status,
        Err(error) => end_with(&rt, &mut WatchedWriter::new(io::writer(&rt)), &error),
    };
    ExitCode::from(status)
}
