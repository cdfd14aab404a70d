//! The command line.
ghost use Rattle.std.specs.Prelude.{◌≡◌, ◌≢◌, ℕ, List, [], ◌∷◌, codes, map, IfOk, IfErr};
ghost use Rattle.std.specs.IoError.{error_kind};
ghost use Rattle.clap.specs.Words.{app_of, fault_of, kind_of, subcommand_name_of};
ghost use Rattle.pmg_commands.specs.CommandLine.{program, bare_program, with_command, chosen_of, shown_status, IsChosen, HasStatus};

use crate::status::USAGE_FAULT;
use clap::error::ErrorKind as Kind;
use clap::{ArgMatches, Command, Error};
use std::alloc::Global;
use std::convert::AsStr;
use std::io::ErrorKind;
use std::rt::Env;
use std::{env, io};

/// The request of the command line.
#[derive(Clone, Copy, Debug, PartialEq, Eq)]
pub enum Chosen {
    /// The command `dump`.
    Dump,
    /// The command `merge`.
    Merge,
    /// The command `replay`.
    Replay,
    /// The command `run`.
    Run,
    /// Nothing more: help, the version or a usage fault was printed. Holds the status to end with.
    Shown(u8),
}

const PROGRAM_HELP: &str = "\
Exit status: 0 done, 1 refused input, a refused client, or a read or write fault, 2 usage, 3 no memory, 4 a fault that
the audit of a job found.

Example:
  $ echo 010100000027016a00000000000000000000000000000000000000010000000100016100000000000000010101 | pmixgroup dump
  proc j 0 level 1
    bool:true a";

const DUMP_ABOUT: &str = "Decodes hex-encoded frames from standard input and prints what they tell";

const DUMP_HELP: &str = "\
Example:
  $ echo 010100000027016a00000000000000000000000000000000000000010000000100016100000000000000010101 | pmixgroup dump
  proc j 0 level 1
    bool:true a";

const MERGE_ABOUT: &str =
    "Merges several streams of hex-encoded frames, separated by lines --, and prints their dump";

const MERGE_HELP: &str = "\
A line -- ends a stream.

Example:
  $ pmixgroup merge < examples/merge/two-servers.hex
  proc j 0 level 2
    u8:2 a
  proc j 1 level 1
    u8:7 b";

const REPLAY_ABOUT: &str =
    "Does what a script says to a group of servers and their processes, and prints the replies";

const REPLAY_HELP: &str = "\
A line is one event: what a process calls, or a frame that arrives. docs/SCRIPTS.md lists the lines and their replies.

Exit status: 0 at the script's end; 1 where its nodes are refused, for a line of no such form, more than 67,108,864
bytes, and a read or write fault; 3 no memory. A refusal of any other line is its reply.

Example:
  $ printf 'nodes n0\\nspace j 0 0\\nput j 0 local 0907 a\\ncommit j 0\\nget j 1 now j 0 a\\n' | pmixgroup replay
  ok
  ok
  ok
  commit 1
  found u8:7";

const RUN_ABOUT: &str =
    "Runs a job of several nodes, whose processes exchange their addresses, and prints what each found";

const RUN_HELP: &str = "\
The job is JSON: its nodes' names, and its namespaces, each with its name and the nodes of its processes by rank. At
most 8 nodes and 32 processes. Each process puts its address, commits it, meets the others in a fence, and looks for
their addresses. Then it is audited that all replies are those of one run of the model.

Exit status: 0 where each client was done; 1 for a refused job, where a client was refused, and a read or write fault;
3 no memory; 4 where the audit found a fault.

Example:
  $ echo '{\"nodes\":[\"n0\",\"n1\"],\"spaces\":[{\"name\":\"j\",\"homes\":[0,1]}]}' | pmixgroup run
  client j 0 found 1 own 1
  client j 1 found 1 own 1
  proc j 0 level 1
    string:6a2f30 addr
  proc j 1 level 1
    string:6a2f31 addr
  audit ok";

/// Reads the command line. Help and the version go to standard output, a usage fault to standard error.
///
/// Errors: `InvalidData` if an argument is not UTF-8.
pub fn read_command_line<R: Env + Print + Eprint + AllocGlobal>(rt: &R) -> io::Result<Chosen>
    ensures { IfOk result HasStatus }
{
    let words: Vec<String> = env::args(rt)?.collect(rt.alloc())?;
    choose(rt, words.as_slice())
}

/// Returns the request of these words, which begin with the program's name. Help, the version and a usage fault are shown.
pub fn choose<R: Print + Eprint + AllocGlobal, S: AsStr>(rt: &R, words: &[S]) -> io::Result<Chosen>
    ensures chosen { IfOk result (IsChosen (map S.text words.now)) }
    ensures dump { (name : List ℕ) → map S.text words.now ≡ name ∷ codes "dump" ∷ [] → IfOk result (λ chosen. chosen ≡ Chosen.Dump) }
    ensures merge { (name : List ℕ) → map S.text words.now ≡ name ∷ codes "merge" ∷ [] → IfOk result (λ chosen. chosen ≡ Chosen.Merge) }
    ensures replay { (name : List ℕ) → map S.text words.now ≡ name ∷ codes "replay" ∷ [] → IfOk result (λ chosen. chosen ≡ Chosen.Replay) }
    ensures run { (name : List ℕ) → map S.text words.now ≡ name ∷ codes "run" ∷ [] → IfOk result (λ chosen. chosen ≡ Chosen.Run) }
    ensures help { (name : List ℕ) → map S.text words.now ≡ name ∷ codes "--help" ∷ [] → IfOk result (λ chosen. chosen ≡ Chosen.Shown 0) }
    ensures version { (name : List ℕ) → map S.text words.now ≡ name ∷ codes "--version" ∷ [] → IfOk result (λ chosen. chosen ≡ Chosen.Shown 0) }
    ensures nothing { (name : List ℕ) → map S.text words.now ≡ name ∷ [] → IfOk result (λ chosen. chosen ≡ Chosen.Shown 2) }
    ensures status { IfOk result HasStatus }
    ensures err { IfErr result (λ e. fault_of program (map S.text words.now) ≡ [] → error_kind e ≡ ErrorKind.OutOfMemory) }
{
    let command = command_line(rt.alloc())?;
    match command.try_get_matches_from(words) {
        Ok(matches) => Ok(chosen_by(&matches)),
        Err(error) => show(rt, &error),
    }
}

/// Returns the command that the words named. `clap` refuses words that name no command.
fn chosen_by(matches: &ArgMatches) -> Chosen
    ensures { result ≡ chosen_of (subcommand_name_of matches.now) }
{
    match matches.subcommand_name() {
        Some("dump") => Chosen::Dump,
        Some("merge") => Chosen::Merge,
        Some("replay") => Chosen::Replay,
        Some("run") => Chosen::Run,
        _ => Chosen::Shown(USAGE_FAULT),
    }
}

/// Prints the answer of `clap` to the words, unless it is a failed allocation.
fn show(rt: &(impl Print + Eprint), error: &Error) -> io::Result<Chosen>
    ensures shown { IfOk result (λ chosen. chosen ≡ Chosen.Shown (shown_status (kind_of error.now))) }
    ensures kind { IfOk result (λ _. kind_of error.now ≢ Kind.OutOfMemory) }
    ensures memory { kind_of error.now ≡ Kind.OutOfMemory → IfErr result (λ e. error_kind e ≡ ErrorKind.OutOfMemory) }
{
    if error.kind() == Kind::OutOfMemory {
        return Err(io::Error::from(ErrorKind::OutOfMemory));
    }
    error.print(rt)?;
    Ok(Chosen::Shown(status_of(error.kind())))
}

fn status_of(kind: Kind) -> u8
    ensures { result ≡ shown_status kind }
{
    match kind {
        Kind::DisplayHelp | Kind::DisplayVersion => 0,
        _ => USAGE_FAULT,
    }
}

/// Returns the command line: the program with its commands.
fn command_line<'a>(alloc: Global) -> io::Result<Command<'a>>
    ensures ok { IfOk result (λ command. app_of command ≡ program) }
    ensures err { IfErr result (λ e. error_kind e ≡ ErrorKind.OutOfMemory) }
{
    let command = bare_command(alloc)?;
    let command = with_command(alloc, command, "dump", DUMP_ABOUT, DUMP_HELP)?;
    let command = with_command(alloc, command, "merge", MERGE_ABOUT, MERGE_HELP)?;
    let command = with_command(alloc, command, "replay", REPLAY_ABOUT, REPLAY_HELP)?;
    let command = with_command(alloc, command, "run", RUN_ABOUT, RUN_HELP)?;
    Ok(command)
}

/// Returns the program before its commands.
fn bare_command<'a>(alloc: Global) -> io::Result<Command<'a>>
    ensures ok { IfOk result (λ command. app_of command ≡ bare_program) }
    ensures err { IfErr result (λ e. error_kind e ≡ ErrorKind.OutOfMemory) }
{
    let command = Command::new(alloc, "pmixgroup")
        .bin_name("pmixgroup")?
        .version("0.1.0")
        .about("The server side of PMIx: what a group of servers does and knows, as text")
        .after_help(PROGRAM_HELP)
        .subcommand_required(true);
    Ok(command)
}

/// Adds another command, with its help.
fn with_command<'a>(
    alloc: Global,
    command: Command<'a>,
    name: &'a str,
    about: &'a str,
    help: &'a str,
) -> io::Result<Command<'a>>
    ensures ok { IfOk result (λ more. app_of more ≡ with_command (app_of command.entry) name.now) }
    ensures err { IfErr result (λ e. error_kind e ≡ ErrorKind.OutOfMemory) }
{
    let added = Command::new(alloc, name).about(about).after_help(help);
    Ok(command.subcommand(added)?)
}
