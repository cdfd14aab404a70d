//! What a job prints, and what it ends with, where a client is refused.
use crate::programs::{Lacking, Refused};
use crate::words::{MEMORY, give_up_where};
use pmg_app::run_job;
use pmg_launch::{Exchange, Program};
use pmg_store::WatchedReader;
use pmg_value::WatchedWriter;
use std::alloc::Global;
use std::process::Abort;
use std::str;
use std::sync::Wait;
use std::thread::Threads;
use std::time::Clock;

const JOB: &[u8] = br#"{"nodes":["n0"],"spaces":[{"name":"j","homes":[0,0]}]}"#;

const PRINTED: &str = "noclient j 1 found 0 own 1\n\
    proc j 0 level 1\n  bool:true pmix.term\nproc j 1 level 1\n  string:6a2f31 addr\naudit ok\n";

const WITH_LINE: &str = "client j 0 refused 0 NoMemory\nclient j 1 found 0 own 1\n\
    proc j 0 level 1\n  bool:true pmix.term\nproc j 1 level 1\n  string:6a2f31 addr\naudit ok\n";

const WITH_TEXT: &str = "half client j 1 found 0 own 1\n\
    proc j 0 level 1\n  bool:true pmix.term\nproc j 1 level 1\n  string:6a2f31 addr\naudit ok\n";

// Whether an allocation failed in the job, or in a client: a line says so, where none is wanted.
fn lacks_memory(printed: &str, wanted: &str) -> bool {
    let is_told = |line: &str| line.ends_with("refused 0 NoMemory");
    printed != wanted && printed.lines().any(is_told)
}

// The status that the job ends with, with these programs, and what it prints.
fn run_with<R: Threads + Wait + Clock + Sync + Abort>(
    rt: &R,
    alloc: Global,
    programs: Vec<Box<dyn Program>>,
) -> (u8, Vec<u8>) {
    let mut reader = WatchedReader::new(JOB);
    let mut writer = WatchedWriter::new(Vec::new(alloc));
    let status = run_job(rt, alloc, programs, &mut reader, &mut writer);
    give_up_where(rt, writer.has_failed());
    (status, writer.into_inner())
}

// Requires that the job of two processes with these programs ends with 1 and prints that.
fn assert_printed<R: Threads + Wait + Clock + Sync + Abort>(
    rt: &R,
    alloc: Global,
    first: Box<dyn Program>,
    second: Box<dyn Program>,
    wanted: &str,
) {
    let mut programs: Vec<Box<dyn Program>> = Vec::new(alloc);
    programs.push(first).expect(rt, MEMORY);
    programs.push(second).expect(rt, MEMORY);
    let (status, printed) = run_with(rt, alloc, programs);
    let printed = str::from_utf8(&printed).unwrap_or("no text");
    give_up_where(rt, lacks_memory(printed, wanted));
    assert!(rt; printed == wanted);
    assert!(rt; status == 1);
}

#[test]
fn a_refused_client_ends_the_job_with_1(rt: HostRuntime) {
    let alloc = rt.alloc();
    let refused = Box::new(alloc, Refused).expect(&rt, MEMORY);
    let exchange = Box::new(alloc, Exchange::new(rt, alloc)).expect(&rt, MEMORY);
    assert_printed(&rt, alloc, refused, exchange, PRINTED);
}

// A line stands for the report of a client whose program had no memory even for that, and for no other report.
#[test]
fn a_client_without_memory_for_its_report_has_a_line(rt: HostRuntime) {
    let alloc = rt.alloc();
    let reports: [(&[u8], &str); 2] = [(b"", WITH_LINE), (b"half ", WITH_TEXT)];
    for (text, wanted) in reports {
        let lacking = Box::new(alloc, Lacking { text }).expect(&rt, MEMORY);
        let exchange = Box::new(alloc, Exchange::new(rt, alloc)).expect(&rt, MEMORY);
        assert_printed(&rt, alloc, lacking, exchange, wanted);
    }
}
