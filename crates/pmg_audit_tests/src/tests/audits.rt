//! What audits answer of accounts as they were made, and of those in which an account as a whole is another.
use crate::tests::accounts::{Account, Accounts, Change, MEMORY, NO_CHANGE, called_of, registry};
use crate::tests::words::process;
use crate::tests::{exchange, fences, gets, refreshing};
use pmg_journal::Transcript;
use pmg_value::{NodeId, Refusal};
use std::alloc::Global;
use std::process::Abort;

// The accounts of the exchange.
fn exchange_of(rt: &impl Abort, alloc: Global) -> Accounts {
    Accounts::new(alloc, [exchange::AT_ZERO, exchange::AT_ONE], &NO_CHANGE).expect(rt, MEMORY)
}

// The accounts of the exchange, of whose journals the first is of that node and group.
fn journal_answer(
    rt: &impl Abort,
    alloc: Global,
    node: u32,
    first: &[u8],
    nspace: &[u8],
    homes: [u32; 2],
) -> Result<usize, Refusal> {
    let mut accounts = exchange_of(rt, alloc);
    if let Some(journal) = accounts.journals.first_mut() {
        journal.node = NodeId::new(node).expect(rt, MEMORY);
        journal.registry = registry(alloc, first, nspace, homes).expect(rt, MEMORY);
    }
    accounts.answer(rt)
}

// The accounts of the exchange, of whose transcripts the first is of that process.
fn transcript_answer(rt: &impl Abort, alloc: Global, proc: &str) -> Result<usize, Refusal> {
    let mut accounts = exchange_of(rt, alloc);
    if let Some(transcript) = accounts.transcripts.first_mut() {
        transcript.proc = process(alloc, proc).expect(rt, MEMORY);
    }
    accounts.answer(rt)
}

// The accounts of the exchange, and a transcript of that process with the calls of these lines.
fn further_answer(
    rt: &impl Abort,
    alloc: Global,
    proc: &str,
    lines: &[&str],
) -> Result<usize, Refusal> {
    let mut accounts = exchange_of(rt, alloc);
    let mut calls = Vec::new(alloc);
    for line in lines {
        let called = called_of(alloc, line).expect(rt, MEMORY);
        calls.push(called).expect(rt, MEMORY);
    }
    let proc = process(alloc, proc).expect(rt, MEMORY);
    let transcript = Transcript { proc, calls };
    accounts.transcripts.push(transcript).expect(rt, MEMORY);
    accounts.answer(rt)
}

// The accounts of these texts with the change, in which that client's transcript has one call more.
fn last_call_answer(
    rt: &impl Abort,
    alloc: Global,
    texts: [&str; 2],
    change: &Change<'_>,
    client: usize,
    line: &str,
) -> Result<usize, Refusal> {
    let mut accounts = Accounts::new(alloc, texts, change).expect(rt, MEMORY);
    if let Some(transcript) = accounts.transcripts.get_mut(client) {
        let called = called_of(alloc, line).expect(rt, MEMORY);
        transcript.calls.push(called).expect(rt, MEMORY);
    }
    accounts.answer(rt)
}

#[test]
fn accounts_as_they_were_made_are_one_run(rt: HostRuntime) {
    let alloc = rt.alloc();
    assert!(rt; exchange_of(&rt, alloc).answer(&rt) == Ok(exchange::EVENTS));
    let texts = [fences::AT_ZERO, fences::AT_ONE];
    let fences = Accounts::new(alloc, texts, &NO_CHANGE).expect(&rt, MEMORY);
    assert!(rt; fences.answer(&rt) == Ok(fences::EVENTS));
    let texts = [refreshing::AT_ZERO, refreshing::AT_ONE];
    let anew = Accounts::new(alloc, texts, &NO_CHANGE).expect(&rt, MEMORY);
    assert!(rt; anew.answer(&rt) == Ok(refreshing::EVENTS));
}

#[test]
fn accounts_may_stand_in_any_order(rt: HostRuntime) {
    let mut accounts = exchange_of(&rt, rt.alloc());
    accounts.journals.reverse();
    accounts.transcripts.reverse();
    assert!(rt; accounts.answer(&rt) == Ok(exchange::EVENTS));
}

#[test]
fn each_node_of_a_group_has_one_journal(rt: HostRuntime) {
    let alloc = rt.alloc();
    let bad = Err(Refusal::BadParam);
    let made = Ok(exchange::EVENTS);
    assert!(rt; journal_answer(&rt, alloc, 0, b"n0", b"j", [0, 1]) == made);
    assert!(rt; journal_answer(&rt, alloc, 1, b"n0", b"j", [0, 1]) == bad);
    assert!(rt; journal_answer(&rt, alloc, 0, b"m0", b"j", [0, 1]) == bad);
    assert!(rt; journal_answer(&rt, alloc, 0, b"n0", b"k", [0, 1]) == bad);
    assert!(rt; journal_answer(&rt, alloc, 0, b"n0", b"j", [0, 0]) == bad);
}

#[test]
fn journals_are_as_many_as_nodes(rt: HostRuntime) {
    let alloc = rt.alloc();
    let bad = Err(Refusal::BadParam);
    let mut accounts = exchange_of(&rt, alloc);
    let mut others = exchange_of(&rt, alloc);
    let journals = &mut others.journals;
    accounts.journals.append(journals).expect(&rt, MEMORY);
    assert!(rt; accounts.answer(&rt) == bad);
    accounts.journals.truncate(1);
    assert!(rt; accounts.answer(&rt) == bad);
    accounts.journals.clear();
    assert!(rt; accounts.answer(&rt) == bad);
}

#[test]
fn each_process_has_its_transcript(rt: HostRuntime) {
    let alloc = rt.alloc();
    let differs = Err(Refusal::Collision);
    let made = Ok(exchange::EVENTS);
    assert!(rt; transcript_answer(&rt, alloc, "j0") == made);
    // two of one process, and none of one that made an event
    assert!(rt; transcript_answer(&rt, alloc, "j1") == differs);
    assert!(rt; transcript_answer(&rt, alloc, "j2") == differs);
    assert!(rt; further_answer(&rt, alloc, "j0", &[]) == differs);
    // of processes that made none
    assert!(rt; further_answer(&rt, alloc, "j2", &[]) == made);
    assert!(rt; further_answer(&rt, alloc, "pmix.host0", &[]) == made);
}

#[test]
fn transcripts_given_twice_are_a_collision(rt: HostRuntime) {
    let mut accounts = exchange_of(&rt, rt.alloc());
    let others = exchange_of(&rt, rt.alloc());
    for transcript in &others.transcripts {
        let copy = transcript.copy().expect(&rt, MEMORY);
        accounts.transcripts.push(copy).expect(&rt, MEMORY);
    }
    assert!(rt; accounts.answer(&rt) == Err(Refusal::Collision));
}

#[test]
fn a_missing_transcript_is_a_collision(rt: HostRuntime) {
    let mut accounts = exchange_of(&rt, rt.alloc());
    let _last = accounts.transcripts.pop();
    assert!(rt; accounts.answer(&rt) == Err(Refusal::Collision));
}

#[test]
fn a_put_after_the_last_event_is_no_event(rt: HostRuntime) {
    let alloc = rt.alloc();
    let texts = [gets::AT_ZERO, gets::AT_ONE];
    let answer = last_call_answer(&rt, alloc, texts, &NO_CHANGE, 1, "put j1 global b 5: ok");
    assert!(rt; answer == Ok(gets::EVENTS));
}

#[test]
fn a_process_of_no_client_puts_nothing(rt: HostRuntime) {
    let alloc = rt.alloc();
    let differs = Err(Refusal::Collision);
    let lines = ["put j2 global b 5: Busy"];
    assert!(rt; further_answer(&rt, alloc, "j2", &lines) == Ok(exchange::EVENTS));
    let lines = ["put j2 global b 5: ok"];
    assert!(rt; further_answer(&rt, alloc, "j2", &lines) == differs);
    assert!(rt; further_answer(&rt, alloc, "pmix.host0", &lines) == differs);
}

// The first reply is another.
const STALE: Change<'static> = Change {
    node: 0,
    account: Account::Both,
    line: 0,
    text: "leave j0: waiting",
};

#[test]
fn a_put_of_an_ended_client_is_told_before_a_stale_reply(rt: HostRuntime) {
    let alloc = rt.alloc();
    let texts = [exchange::AT_ZERO, exchange::AT_ONE];
    let stale = Accounts::new(alloc, texts, &STALE).expect(&rt, MEMORY);
    assert!(rt; stale.answer(&rt) == Err(Refusal::Stale));
    let put = "put j0 global d 1: ok";
    let differs = Err(Refusal::Collision);
    assert!(rt; last_call_answer(&rt, alloc, texts, &STALE, 0, put) == differs);
    assert!(rt; last_call_answer(&rt, alloc, texts, &NO_CHANGE, 0, put) == differs);
}
