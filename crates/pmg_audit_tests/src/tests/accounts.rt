//! Journals and transcripts of two nodes with a process each, from texts.
//!
//! A text tells what happened at a node and with its client, line after line: what was asked, and after a colon what was answered.
//! A put and a get of the client's own key stand in the transcript alone; the delivery of a frame, a change of the sets and a nudge
//! stand in the journal alone; any other line stands in both. Lines that begin with a blank tell of changes.
use crate::tests::words::{act, answer, key, process, request, scope_of, value, word, words_of};
use pmg_audit::{Run, audit};
use pmg_jobinfo::Registry;
use pmg_journal::{Call, Called, Event, Journal, Record, Transcript};
use pmg_value::{NodeId, Nspace, Refusal};
use std::alloc::{AllocError, Global};
use std::process::Abort;

/// A test gives up where a call of it fails, and says this word and the error.
pub(crate) const MEMORY: &str = "memory";

/// The journals and transcripts of a group.
#[derive(Drop)]
pub(crate) struct Accounts {
    pub(crate) alloc: Global,
    pub(crate) journals: Vec<Journal>,
    pub(crate) transcripts: Vec<Transcript>,
}

/// A node's journal, its client's transcript, or both.
#[derive(Clone, Copy, PartialEq)]
pub(crate) enum Account {
    Neither,
    Journal,
    Transcript,
    Both,
}

/// One change: at a node, of one line of its text, in the journal, in the transcript, or in both.
///
/// In its place stands another line, nothing (`out`), the line twice (`twice`), the next line of the account before it (`swap`), or
/// another line after it (`also` and that line).
#[derive(Clone, Copy)]
pub(crate) struct Change<'a> {
    pub(crate) node: u32,
    pub(crate) account: Account,
    pub(crate) line: usize,
    pub(crate) text: &'a str,
}

impl Change<'_> {
    // Whether it is a change of that account.
    fn is_in(&self, node: u32, account: Account) -> bool {
        self.node == node && (self.account == Account::Both || self.account == account)
    }
}

/// No change: the first line as it is.
pub(crate) const NO_CHANGE: Change<'static> = Change {
    node: 0,
    account: Account::Neither,
    line: 0,
    text: "",
};

// Whether the line tells a get of the client's own key.
fn is_own_get(line: &str) -> bool {
    line.starts_with("now j0 j0 ")
        || line.starts_with("now j1 j1 ")
        || line.starts_with("refresh j0 j0 ")
}

// Whether the line stands in the journal.
fn is_event(line: &str) -> bool {
    !line.starts_with("put ") && !is_own_get(line)
}

// Whether the line stands in the transcript.
fn is_call(line: &str) -> bool {
    let is_by_nobody = line.starts_with("deliver ")
        || line.starts_with("define ")
        || line.starts_with("delete ")
        || line.starts_with("nudge");
    !is_by_nobody
}

// Whether the line stands in that account.
fn stands_in(account: Account, line: &str) -> bool {
    match account {
        Account::Journal => !line.starts_with(' ') && is_event(line),
        Account::Transcript => !line.starts_with(' ') && is_call(line),
        _ => false,
    }
}

// What stands in the account in place of the line.
fn put_instead<'a>(
    lines: &mut Vec<&'a str>,
    line: &'a str,
    text: &'a str,
) -> Result<(), AllocError> {
    if let Some(next) = text.strip_prefix("also ") {
        lines.push(line)?;
        lines.push(next)?;
        return Ok(());
    }
    match text {
        "out" => {}
        "swap" => lines.push(line)?,
        "twice" => {
            lines.push(line)?;
            lines.push(line)?;
        }
        other => lines.push(other)?,
    }
    Ok(())
}

// The line at that place and the next one change places.
fn swap_at(lines: &mut [&str], place: usize) {
    let next = place.wrapping_add(1);
    if place < lines.len() && next < lines.len() {
        lines.swap(place, next);
    }
}

// The lines of the account, with the change.
fn lines_of<'a>(
    alloc: Global,
    node: u32,
    account: Account,
    text: &'a str,
    change: &Change<'a>,
) -> Result<Vec<&'a str>, AllocError> {
    let is_here = change.is_in(node, account);
    let mut lines = Vec::new(alloc);
    let mut place = usize::MAX;
    for (number, line) in text.lines().enumerate() {
        if !stands_in(account, line) {
            continue;
        }
        if !is_here || number != change.line {
            lines.push(line)?;
            continue;
        }
        place = lines.len();
        put_instead(&mut lines, line, change.text)?;
    }
    if change.text == "swap" {
        swap_at(&mut lines, place);
    }
    Ok(lines)
}

// The two parts of a line: what was asked, and what was answered.
fn parts_of(line: &str) -> Result<(&str, &str), Refusal> {
    match line.split_once(": ") {
        Some(parts) => Ok(parts),
        None => Err(Refusal::BadParam),
    }
}

// The event of a line.
fn event_of(alloc: Global, line: &str) -> Result<Event, Refusal> {
    let (asked, told) = parts_of(line)?;
    let act = act(alloc, &words_of(alloc, asked)?)?;
    let answer = answer(alloc, &words_of(alloc, told)?)?;
    Ok(Event { act, answer })
}

// What is called in a line.
fn call_of(alloc: Global, words: &[&str]) -> Result<Call, Refusal> {
    match word(words, 0) {
        "put" => {
            let key = key(alloc, word(words, 3))?;
            let value = value(alloc, word(words, 4))?;
            Ok(Call::Put(scope_of(word(words, 2)), key, value))
        }
        "commit" => Ok(Call::Commit),
        _ => Ok(Call::Request(request(alloc, words)?)),
    }
}

/// The call of a line.
pub(crate) fn called_of(alloc: Global, line: &str) -> Result<Called, Refusal> {
    let (asked, told) = parts_of(line)?;
    let call = call_of(alloc, &words_of(alloc, asked)?)?;
    let answer = answer(alloc, &words_of(alloc, told)?)?;
    Ok(Called { call, answer })
}

/// Nodes n0 and n1, and a namespace, of whose processes 0 is at home at one of them, and 1 at the other.
pub(crate) fn registry(
    alloc: Global,
    first: &[u8],
    nspace: &[u8],
    homes: [u32; 2],
) -> Result<Registry, Refusal> {
    let names: [&[u8]; 2] = [first, b"n1"];
    let mut registry = Registry::new(alloc, &names)?;
    let mut nodes = Vec::new(alloc);
    for home in homes {
        nodes.push(NodeId::new(home)?)?;
    }
    registry.register(Nspace::read(alloc, nspace)?, &nodes)?;
    Ok(registry)
}

// The journal of the node, of these lines.
fn journal_of(alloc: Global, node: NodeId, lines: &[&str]) -> Result<Journal, Refusal> {
    let mut events = Vec::new(alloc);
    for line in lines {
        events.push(event_of(alloc, line)?)?;
    }
    let registry = registry(alloc, b"n0", b"j", [0, 1])?;
    Ok(Journal {
        node,
        registry,
        events,
    })
}

// The transcript of the process, of these lines.
fn transcript_of(alloc: Global, proc: &str, lines: &[&str]) -> Result<Transcript, Refusal> {
    let mut calls = Vec::new(alloc);
    for line in lines {
        calls.push(called_of(alloc, line)?)?;
    }
    Ok(Transcript {
        proc: process(alloc, proc)?,
        calls,
    })
}

impl Accounts {
    /// The accounts that the texts of both nodes tell, with the change.
    pub(crate) fn new(
        alloc: Global,
        texts: [&str; 2],
        change: &Change<'_>,
    ) -> Result<Accounts, Refusal> {
        let mut accounts = Accounts {
            alloc,
            journals: Vec::new(alloc),
            transcripts: Vec::new(alloc),
        };
        let [zero, one] = texts;
        accounts.add(0, "j0", zero, change)?;
        accounts.add(1, "j1", one, change)?;
        Ok(accounts)
    }

    // The journal of that node, and the transcript of its client.
    fn add(
        &mut self,
        node: u32,
        client: &str,
        text: &str,
        change: &Change<'_>,
    ) -> Result<(), Refusal> {
        let events = lines_of(self.alloc, node, Account::Journal, text, change)?;
        let journal = journal_of(self.alloc, NodeId::new(node)?, &events)?;
        self.journals.push(journal)?;
        let calls = lines_of(self.alloc, node, Account::Transcript, text, change)?;
        let transcript = transcript_of(self.alloc, client, &calls)?;
        self.transcripts.push(transcript)?;
        Ok(())
    }

    /// The one run that they tell.
    pub(crate) fn run(&self) -> Result<Run, Refusal> {
        let mut records = Vec::new(self.alloc);
        for journal in &self.journals {
            records.push(Record::new(journal.copy()?))?;
        }
        audit(self.alloc, records, &self.transcripts)
    }

    /// How many events the run has, or why there is none. Where an allocation fails that is no answer.
    pub(crate) fn answer(&self, rt: &impl Abort) -> Result<usize, Refusal> {
        let known = match self.run() {
            Ok(run) => Ok(Ok(run.events().len())),
            Err(Refusal::NoMemory) => Err(Refusal::NoMemory),
            Err(refusal) => Ok(Err(refusal)),
        };
        known.expect(rt, MEMORY)
    }
}
