//! The programs that the clients of a job run, and their results.
ghost use Rattle.std.specs.Prelude.{◌++◌, ◌∷◌, [], List, OnOk};
ghost use Rattle.pmg_value.specs.declared.process.Proc.{Proc as AnyProc};
ghost use Rattle.pmg_threads.specs.Running.{TellAll};

use pmg_desk::Client;
use pmg_journal::{Record, Transcript};
use pmg_value::{Proc, Refusal};
use std::alloc::{AllocError, Global};
use std::marker::Send;

/// The program of one client of a job.
pub trait Program: Send + Drop {
    /// Runs as the client, among these processes of the job, rising by namespace and rank. The bytes that it appends to `out` are its
    /// report. A client is terminated if its program returns a refusal. A client whose program returns Ok is not terminated: a process
    /// that waits for it in a fence continues to wait.
    fn run(
        &mut self,
        client: &mut Client<'_>,
        procs: &[Proc],
        out: &mut Vec<u8>,
    ) -> Result<(), Refusal>;
}

/// The result of one client.
#[derive(Drop)]
pub struct Report {
    /// The client's process.
    pub proc: Proc,
    /// The text that its program wrote.
    pub text: Vec<u8>,
    /// The answer of its program.
    pub answer: Result<(), Refusal>,
}

/// The result of one client: its program's text and answer, and the client's calls. The launcher knows the client.
#[derive(Drop)]
pub(crate) struct Ended {
    pub(crate) text: Vec<u8>,
    pub(crate) answer: Result<(), Refusal>,
    pub(crate) transcript: Transcript,
    /// Whether a desk was closed before it had ended.
    pub(crate) is_cut: bool,
}

/// The reports and the calls of a job's clients.
#[derive(Drop)]
pub(crate) struct Reported {
    pub(crate) reports: Vec<Report>,
    pub(crate) transcripts: Vec<Transcript>,
    /// Whether a desk was closed before all of them had ended.
    pub(crate) is_cut: bool,
}

impl Reported {
    /// Makes an empty list of reports.
    pub(crate) fn new(alloc: Global) -> Reported
        ensures { TellAll [] result.reports.items result.transcripts.items }
    {
        Reported {
            reports: Vec::new(alloc),
            transcripts: Vec::new(alloc),
            is_cut: false,
        }
    }

    /// Adds the result of the process's client.
    pub(crate) fn push(&mut self, proc: &Proc, ended: Ended) -> Result<(), AllocError>
        ensures { (procs : List AnyProc) → TellAll procs self.old.reports.items self.old.transcripts.items
            → OnOk result (TellAll (procs ++ proc.now ∷ []) self.new.reports.items self.new.transcripts.items) }
    {
        let Ended {
            text,
            answer,
            transcript,
            is_cut,
        } = ended;
        let Transcript { proc: _, calls } = transcript;
        self.is_cut = self.is_cut || is_cut;
        self.reports.push(Report {
            proc: proc.copy()?,
            text,
            answer,
        })?;
        self.transcripts.push(Transcript {
            proc: proc.copy()?,
            calls,
        })?;
        Ok(())
    }
}

/// The result of a job before its audit.
#[derive(Drop)]
pub struct Unaudited {
    /// The reports of the clients, rising by namespace and rank.
    pub reports: Vec<Report>,
    /// The record of each node, by index, with its evidence.
    pub records: Vec<Record>,
    /// The calls of each client, in the order of the reports.
    pub transcripts: Vec<Transcript>,
}
