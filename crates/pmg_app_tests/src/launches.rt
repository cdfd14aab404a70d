//! Jobs that are run, with reports found by hand.
use crate::programs::{
    Asking, Fencing, Meeting, Refreshing, Refused, Reporting, number_in, push_line,
};
use crate::words::{MEMORY, give_up_where};
use pmg_audit::Run;
use pmg_jobfile::Job;
use pmg_launch::{Exchange, Links, Outcome, Program, Report, run, run_linked};
use pmg_node::{Reply, Request};
use pmg_value::{NodeId, Proc, Refusal, WatchedWriter};
use pmg_world::{Event, LoggedEvent};
use std::alloc::Global;
use std::process::Abort;
use std::sync::Wait;
use std::thread::Threads;
use std::time::Clock;

/// The runs of one job that are compared.
const RUNS: u32 = 200;

/// The runs of a job whose desks are closed while frames are on their way.
const CUT_RUNS: u32 = 500;

/// The runs of a job whose nodes ask again all the time.
const ASKING_RUNS: u32 = 20;

const TWO_NODES: &[u8] = br#"{"nodes":["n0","n1"],"spaces":[{"name":"j","homes":[0,0,1,1]}]}"#;

const TWO_CLIENTS: &[u8] = br#"{"nodes":["n0"],"spaces":[{"name":"j","homes":[0,0]}]}"#;

const ACROSS: &[u8] = br#"{"nodes":["n0","n1"],"spaces":[{"name":"j","homes":[0,1]}]}"#;

const FOUR_NODES: &[u8] =
    br#"{"nodes":["a","b","c","d"],"spaces":[{"name":"j","homes":[0,0,1,1,2,2,3,3]}]}"#;

const ASKED: &[u8] =
    b"c1\ne1\nl1\nf1\nf1\nf1\nf1\nf1\nf1\nf1\ne2\nl2\nc2\ne3\nl3\nf2\nf2\nf2\nf2\nf2\nf2\nf2\ne4\nl4\n";

const FOUR_ADDRESSES: &str =
    "client j 0 found 3 own 1\nclient j 1 found 3 own 1\nclient j 2 found 3 own 1\nclient j 3 found 3 own 1\n\
    proc j 0 level 1\n  string:6a2f30 addr\nproc j 1 level 1\n  string:6a2f31 addr\n\
    proc j 2 level 1\n  string:6a2f32 addr\nproc j 3 level 1\n  string:6a2f33 addr\n";

const MOST: &[u8] = br#"{"nodes":["a","b","c","d","e","f","g","h"],"spaces":[
    {"name":"k","homes":[0,1,2,3,4,5,6,7,0,1,2,3,4,5,6,7]},{"name":"j","homes":[7,7,7,6,5,4,3,2,1,0,0,0,1,2,3,4]}]}"#;

// Gives up as NoMemory where a client was refused so.
fn check_memory(rt: &impl Abort, reports: &[Report]) {
    for report in reports {
        give_up_where(rt, report.answer == Err(Refusal::NoMemory));
    }
}

// All that the clients reported.
fn report_lines(rt: &impl Abort, alloc: Global, reports: &[Report]) -> Vec<u8> {
    let mut text = Vec::new(alloc);
    for report in reports {
        text.extend_from_slice(&report.text).expect(rt, MEMORY);
    }
    text
}

// The text, and behind it the far dump of node 0.
fn with_dump(rt: &impl Abort, text: Vec<u8>, run: &Run) -> Vec<u8> {
    let mut writer = WatchedWriter::new(text);
    if let Some(node) = run.node(NodeId::new(0).expect(rt, MEMORY)) {
        let is_whole = node.board().far().dump(&mut writer).is_ok();
        give_up_where(rt, !is_whole);
    }
    writer.into_inner()
}

// All that the clients reported, and behind it the far dump of node 0.
fn text_of(rt: &impl Abort, alloc: Global, outcome: &Outcome) -> Vec<u8> {
    check_memory(rt, &outcome.reports);
    let text = report_lines(rt, alloc, &outcome.reports);
    with_dump(rt, text, &outcome.run)
}

// Runs the job over such links with these programs, and gives the text of its outcome.
fn text_by<R: Threads + Wait + Clock + Sync + Abort>(
    rt: &R,
    alloc: Global,
    job: &[u8],
    programs: Vec<Box<dyn Program>>,
    links: Links,
) -> Vec<u8> {
    let job = Job::read(alloc, job).expect(rt, MEMORY);
    let outcome = run_linked(rt, job, programs, links).expect(rt, MEMORY);
    text_of(rt, alloc, &outcome)
}

// Links over which frames are lost, sent twice and held back as often, and nodes ask again for 20 seconds.
fn links_of(lose: u32, repeat: u32, hold: u32) -> Links {
    Links {
        lose,
        repeat,
        hold,
        nudges: 20_000,
    }
}

// Requires that four clients of two nodes with these programs report their addresses, over such links.
fn assert_addresses<R: Threads + Wait + Clock + Sync + Abort>(
    rt: &R,
    alloc: Global,
    programs: Vec<Box<dyn Program>>,
    links: Links,
) {
    let text = text_by(rt, alloc, TWO_NODES, programs, links);
    assert!(rt; text.as_slice() == FOUR_ADDRESSES.as_bytes());
}

#[test]
fn addresses_of_two_nodes(rt: HostRuntime) {
    let alloc = rt.alloc();
    for links in [Links::default(), links_of(3, 4, 2)] {
        let mut programs: Vec<Box<dyn Program>> = Vec::new(alloc);
        for _ in 0..4 {
            let exchange = Box::new(alloc, Exchange::new(rt, alloc)).expect(&rt, MEMORY);
            programs.push(exchange).expect(&rt, MEMORY);
        }
        assert_addresses(&rt, alloc, programs, links);
    }
}

// The links of that turn, which lose no frame, or one in three, four or five: of links that lose each second frame, each answer may be
// the one that is lost.
fn links_at(turn: u32) -> Links {
    let lose = [0, 3, 4, 5][turn as usize % 4];
    links_of(lose, turn / 4 % 6, turn / 24 % 6)
}

// Whatever links lose, repeat and hold back, the clients report the same.
#[test]
fn bad_links_change_no_report(rt: HostRuntime) {
    let alloc = rt.alloc();
    for turn in 0..RUNS {
        let mut programs: Vec<Box<dyn Program>> = Vec::new(alloc);
        for _ in 0..4 {
            let exchange = Box::new(alloc, Exchange::new(rt, alloc)).expect(&rt, MEMORY);
            programs.push(exchange).expect(&rt, MEMORY);
        }
        assert_addresses(&rt, alloc, programs, links_at(turn));
    }
}

// Requires that the job of eight processes ends, or is closed, with these programs over links that lose each third frame and whose nodes
// ask again twice only.
fn assert_closed<R: Threads + Wait + Clock + Sync + Abort>(
    rt: &R,
    alloc: Global,
    programs: Vec<Box<dyn Program>>,
) {
    let links = Links {
        lose: 3,
        repeat: 0,
        hold: 0,
        nudges: 2,
    };
    let job = Job::read(alloc, FOUR_NODES).expect(rt, MEMORY);
    let refusal = run_linked(rt, job, programs, links).err();
    give_up_where(rt, refusal == Some(Refusal::NoMemory));
    assert!(rt; matches!(refusal, None | Some(Refusal::Closed)));
}

// A frame that comes to a desk that is closed is no lack of memory.
#[test]
fn a_job_that_is_cut_short_lacks_no_memory(rt: HostRuntime) {
    let alloc = rt.alloc();
    for _ in 0..CUT_RUNS {
        let mut programs: Vec<Box<dyn Program>> = Vec::new(alloc);
        for _ in 0..8 {
            let exchange = Box::new(alloc, Exchange::new(rt, alloc)).expect(&rt, MEMORY);
            programs.push(exchange).expect(&rt, MEMORY);
        }
        assert_closed(&rt, alloc, programs);
    }
}

// Requires that each of the eight processes with these programs is told each number, while nodes ask again for 20 seconds.
fn assert_asked<R: Threads + Wait + Clock + Sync + Abort>(
    rt: &R,
    alloc: Global,
    programs: Vec<Box<dyn Program>>,
) {
    let job = Job::read(alloc, FOUR_NODES).expect(rt, MEMORY);
    let outcome = run_linked(rt, job, programs, links_of(0, 0, 0)).expect(rt, MEMORY);
    check_memory(rt, &outcome.reports);
    for report in &outcome.reports {
        assert_report(rt, report, Ok(()), ASKED);
    }
}

// Gets that ask anew are answered however often nodes ask again beside them.
#[test]
fn nudges_starve_no_get(rt: HostRuntime) {
    let alloc = rt.alloc();
    for _ in 0..ASKING_RUNS {
        let mut programs: Vec<Box<dyn Program>> = Vec::new(alloc);
        for _ in 0..8 {
            let asking = Box::new(alloc, Asking { rt, alloc }).expect(&rt, MEMORY);
            programs.push(asking).expect(&rt, MEMORY);
        }
        assert_asked(&rt, alloc, programs);
    }
}

// Requires that a job of four processes is refused as BadParam with these programs.
fn assert_bad_count<R: Threads + Wait + Clock + Sync + Abort>(
    rt: &R,
    alloc: Global,
    programs: Vec<Box<dyn Program>>,
) {
    let job = Job::read(alloc, TWO_NODES).expect(rt, MEMORY);
    let refusal = run_linked(rt, job, programs, Links::default()).err();
    give_up_where(rt, refusal == Some(Refusal::NoMemory));
    assert!(rt; refusal == Some(Refusal::BadParam));
}

#[test]
fn a_job_has_a_program_for_each_process(rt: HostRuntime) {
    let alloc = rt.alloc();
    for count in [0, 3, 5] {
        let mut programs: Vec<Box<dyn Program>> = Vec::new(alloc);
        for _ in 0..count {
            let refused = Box::new(alloc, Refused).expect(&rt, MEMORY);
            programs.push(refused).expect(&rt, MEMORY);
        }
        assert_bad_count(&rt, alloc, programs);
    }
}

// The bytes behind the text.
fn push(rt: &impl Abort, text: &mut Vec<u8>, bytes: &[u8]) {
    text.extend_from_slice(bytes).expect(rt, MEMORY);
}

// A rank below 16 as decimal digits, each behind these bytes.
fn push_rank(rt: &impl Abort, text: &mut Vec<u8>, rank: u8, before: &[u8]) {
    if rank >= 10 {
        push(rt, text, before);
        push(rt, text, b"1");
    }
    push(rt, text, before);
    push(rt, text, &[b'0' + rank % 10]);
}

// What 16 clients of a namespace report where there are 32.
fn push_reports(rt: &impl Abort, text: &mut Vec<u8>, name: &[u8]) {
    for rank in 0..16 {
        push(rt, text, b"client ");
        push(rt, text, name);
        push(rt, text, b" ");
        push_rank(rt, text, rank, b"");
        push(rt, text, b" found 31 own 1\n");
    }
}

// The dump of the addresses of the 16 processes of a namespace, whose name is spelt so.
fn push_addresses(rt: &impl Abort, text: &mut Vec<u8>, name: &[u8], spelt: &[u8]) {
    for rank in 0..16 {
        push(rt, text, b"proc ");
        push(rt, text, name);
        push(rt, text, b" ");
        push_rank(rt, text, rank, b"");
        push(rt, text, b" level 1\n  string:");
        push(rt, text, spelt);
        push(rt, text, b"2f");
        push_rank(rt, text, rank, b"3");
        push(rt, text, b" addr\n");
    }
}

// What the largest job says.
fn text_of_most(rt: &impl Abort, alloc: Global) -> Vec<u8> {
    let mut text = Vec::new(alloc);
    push_reports(rt, &mut text, b"j");
    push_reports(rt, &mut text, b"k");
    push_addresses(rt, &mut text, b"j", b"6a");
    push_addresses(rt, &mut text, b"k", b"6b");
    text
}

// Requires that the largest job with these programs says that.
fn assert_most<R: Threads + Wait + Clock + Sync + Abort>(
    rt: &R,
    alloc: Global,
    programs: Vec<Box<dyn Program>>,
    wanted: &[u8],
) {
    let text = text_by(rt, alloc, MOST, programs, Links::default());
    assert!(rt; text.as_slice() == wanted);
}

#[test]
fn runs_of_the_largest_job_say_the_same(rt: HostRuntime) {
    let alloc = rt.alloc();
    let wanted = text_of_most(&rt, alloc);
    for _ in 0..RUNS {
        let mut programs: Vec<Box<dyn Program>> = Vec::new(alloc);
        for _ in 0..32 {
            let exchange = Box::new(alloc, Exchange::new(rt, alloc)).expect(&rt, MEMORY);
            programs.push(exchange).expect(&rt, MEMORY);
        }
        assert_most(&rt, alloc, programs, &wanted);
    }
}

// Runs the job of two clients with these programs, and gives what each reported and answered.
fn run_two<R: Threads + Wait + Clock + Sync + Abort>(
    rt: &R,
    alloc: Global,
    job: &[u8],
    first: Box<dyn Program>,
    second: Box<dyn Program>,
) -> Outcome {
    let mut programs = Vec::new(alloc);
    programs.push(first).expect(rt, MEMORY);
    programs.push(second).expect(rt, MEMORY);
    let job = Job::read(alloc, job).expect(rt, MEMORY);
    let outcome = run(rt, job, programs).expect(rt, MEMORY);
    check_memory(rt, &outcome.reports);
    outcome
}

// Requires that two clients of a node with these programs are not refused.
fn assert_done<R: Threads + Wait + Clock + Sync + Abort>(
    rt: &R,
    alloc: Global,
    first: Box<dyn Program>,
    second: Box<dyn Program>,
) {
    let outcome = run_two(rt, alloc, TWO_CLIENTS, first, second);
    for report in &outcome.reports {
        assert!(rt; report.answer == Ok(()));
    }
}

#[test]
fn two_clients_meet(rt: HostRuntime) {
    let alloc = rt.alloc();
    let first = Meeting {
        rt,
        alloc,
        is_first: true,
    };
    let second = Meeting {
        rt,
        alloc,
        is_first: false,
    };
    let first = Box::new(alloc, first).expect(&rt, MEMORY);
    let second = Box::new(alloc, second).expect(&rt, MEMORY);
    assert_done(&rt, alloc, first, second);
}

// Requires that the program of a client answered that, and wrote that.
fn assert_report(rt: &impl Abort, report: &Report, answer: Result<(), Refusal>, text: &[u8]) {
    assert!(rt; report.answer == answer);
    assert!(rt; report.text.as_slice() == text);
}

// Requires that of two clients of a node with these programs the first is refused as Stale, and the second learns that it is gone.
fn assert_gone<R: Threads + Wait + Clock + Sync + Abort>(
    rt: &R,
    alloc: Global,
    first: Box<dyn Program>,
    second: Box<dyn Program>,
) {
    let outcome = run_two(rt, alloc, TWO_CLIENTS, first, second);
    let [first, second] = outcome.reports.as_slice() else {
        panic!(rt; "two clients report");
    };
    assert_report(rt, first, Err(Refusal::Stale), b"no");
    assert_report(rt, second, Ok(()), b"0");
}

#[test]
fn who_refused_is_gone_from_the_fence(rt: HostRuntime) {
    let alloc = rt.alloc();
    let refused = Box::new(alloc, Refused).expect(&rt, MEMORY);
    let fencing = Box::new(alloc, Fencing { rt }).expect(&rt, MEMORY);
    assert_gone(&rt, alloc, refused, fencing);
}

// The letter of a call that `Reporting` reports, and the process that made it.
fn letter_of(event: &Event) -> Option<(u8, &Proc)> {
    match event {
        Event::Commit(_, by) => Some((b'c', by)),
        Event::Request(_, Request::Enter(by, ..)) => Some((b'e', by)),
        Event::Request(_, Request::Leave(by)) => Some((b'l', by)),
        Event::Request(_, Request::Ask(_, by, ..) | Request::Take(by)) => Some((b'f', by)),
        _ => None,
    }
}

// The number that the call of that letter is answered with.
fn number_of(letter: u8, reply: &Reply) -> Option<u64> {
    match reply {
        Reply::Committed(number) if letter == b'c' => Some(*number),
        Reply::Entered(instance) if letter == b'e' => Some(*instance),
        Reply::Released(instance, _) if letter == b'l' => Some(*instance),
        Reply::Found(value) if letter == b'f' => Some(number_in(value)),
        _ => None,
    }
}

// What a client reports of an event that it made, as `Reporting` does; none of other events.
fn told_line(told: &LoggedEvent, proc: &Proc) -> Option<(u8, u64)> {
    let (letter, by) = letter_of(&told.event)?;
    match &told.answer {
        Ok(reply) if by == proc => Some((letter, number_of(letter, reply)?)),
        _ => None,
    }
}

// What the run tells of the process, as `Reporting` reports it.
fn told_of(rt: &impl Abort, alloc: Global, run: &Run, proc: &Proc) -> Vec<u8> {
    let mut text = Vec::new(alloc);
    for told in run.events() {
        if let Some((letter, number)) = told_line(told, proc) {
            push_line(&mut text, letter, number).expect(rt, MEMORY);
        }
    }
    text
}

// Requires that the client reports that text, and the run that is audited tells the same of it: its answers are those that the client
// reported, in its order.
fn assert_told(rt: &impl Abort, alloc: Global, run: &Run, report: &Report, wanted: &[u8]) {
    let told = told_of(rt, alloc, run, &report.proc);
    assert!(rt; report.text.as_slice() == wanted);
    assert!(rt; told.as_slice() == wanted);
}

// Requires it of two clients of two nodes with these programs.
fn assert_seen<R: Threads + Wait + Clock + Sync + Abort>(
    rt: &R,
    alloc: Global,
    first: Box<dyn Program>,
    second: Box<dyn Program>,
    wanted: [&[u8]; 2],
) {
    let outcome = run_two(rt, alloc, ACROSS, first, second);
    let [first, second] = outcome.reports.as_slice() else {
        panic!(rt; "two clients report");
    };
    assert_told(rt, alloc, &outcome.run, first, wanted[0]);
    assert_told(rt, alloc, &outcome.run, second, wanted[1]);
}

#[test]
fn the_run_is_what_the_clients_saw(rt: HostRuntime) {
    let alloc = rt.alloc();
    let one = Reporting {
        rt,
        alloc,
        is_first: true,
    };
    let two = Reporting {
        rt,
        alloc,
        is_first: false,
    };
    let wanted: [&[u8]; 2] = [
        b"c1\ne1\nl1\nf20\nc2\ne2\nl2\nf21\n",
        b"c1\ne1\nl1\nf10\nc2\ne2\nl2\nf11\n",
    ];
    let one = Box::new(alloc, one).expect(&rt, MEMORY);
    let two = Box::new(alloc, two).expect(&rt, MEMORY);
    assert_seen(&rt, alloc, one, two, wanted);
}

#[test]
fn a_get_that_asks_anew_finds_the_last_commit(rt: HostRuntime) {
    let alloc = rt.alloc();
    let one = Refreshing {
        rt,
        alloc,
        is_first: true,
    };
    let two = Refreshing {
        rt,
        alloc,
        is_first: false,
    };
    let wanted: [&[u8]; 2] = [
        b"c1\ne1\nl1\ne2\nl2\nc2\ne3\nl3\n",
        b"e1\nl1\nf10\ne2\nl2\ne3\nl3\nf10\nf11\n",
    ];
    let one = Box::new(alloc, one).expect(&rt, MEMORY);
    let two = Box::new(alloc, two).expect(&rt, MEMORY);
    assert_seen(&rt, alloc, one, two, wanted);
}
