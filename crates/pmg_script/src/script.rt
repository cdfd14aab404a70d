//! The meaning of the lines of a script.
ghost use Rattle.std.specs.Prelude.{◌≡◌};
ghost use Rattle.pmg_script.specs.Lines.{ReadsAllWords};
ghost use Rattle.pmg_script.specs.Scripts.{line_of, nodes_in, space_in, put_in, enter_in, get_in, define_in, delete_in, members_in, proc_in, number_alone, alone, said_with, said};
ghost use Rattle.pmg_script.specs.Scripts.{Line as ScriptLine};

use crate::fields::Named;
use crate::lines::{LineFault, Words};
use pmg_get::Mode;
use pmg_scope::Scope;
use pmg_value::Value;
use std::alloc::Global;

/// A line of a script. The names of a namespace, a key and a set are the bytes in the line, which may be any bytes.
#[derive(Drop)]
pub enum Line<'a> {
    /// An empty line.
    Nothing,
    /// The group's nodes have these names.
    Nodes(Vec<&'a [u8]>),
    /// The namespace is registered, with the home of each rank.
    Space(&'a [u8], Vec<u64>),
    /// The process puts the value under the key.
    Put(Named<'a>, Scope, Value, &'a [u8]),
    /// The process commits.
    Commit(Named<'a>),
    /// The process enters its next fence of these participants; the flag says whether the fence collects data.
    Enter(Named<'a>, bool, Vec<Named<'a>>),
    /// The process leaves the fence that released it.
    Leave(Named<'a>),
    /// The process asks for a key of the target.
    Get(Named<'a>, Mode, Named<'a>, &'a [u8]),
    /// The process takes the answer of the get that it waited for.
    Take(Named<'a>),
    /// The process ends.
    End(Named<'a>),
    /// The host defines a set of these processes.
    Define(Vec<Named<'a>>, &'a [u8]),
    /// The host deletes the set.
    Delete(&'a [u8]),
    /// A node receives the frame of that number.
    Deliver(u64),
    /// Each frame that was never delivered is delivered.
    Flow,
    /// The node asks other nodes again for missing headers and commits.
    Nudge(u64),
    /// The node shows the members of a set, by its knowledge.
    Members(u64, &'a [u8]),
    /// The node shows its dump.
    Dump(u64),
}

/// Reads the content of a line. A line without the form of a script's line is malformed.
#[tactic(auto, unfolding(crate::specs::Scripts::said))]
pub fn read_line<'a>(alloc: Global, text: &'a [u8]) -> Result<Line<'a>, LineFault>
    ensures { ReadsAllWords line_of result (said text.now) }
{
    if text.is_empty() {
        return Ok(Line::Nothing);
    }
    let mut words = Words::of(text);
    let word = words.word()?;
    read_rest(alloc, word, &mut words)
}

/// Reads the rest of a line that begins with the word.
#[tactic(auto, unfolding(crate::specs::Scripts::said_with))]
fn read_rest<'a>(alloc: Global, word: &[u8], words: &mut Words<'a>) -> Result<Line<'a>, LineFault>
    ensures { ReadsAllWords line_of result (said_with word.now words.old) }
{
    match word {
        b"get" => read_get(words),
        _ if word == b"put".as_slice() => read_put(alloc, words),
        _ if word == b"commit".as_slice() => read_commit(words),
        _ if word == b"enter".as_slice() => read_enter(alloc, words),
        _ if word == b"leave".as_slice() => read_leave(words),
        _ if word == b"take".as_slice() => read_take(words),
        _ if word == b"end".as_slice() => read_end(words),
        _ if word == b"deliver".as_slice() => read_deliver(words),
        _ if word == b"flow".as_slice() => read_flow(words),
        _ if word == b"nudge".as_slice() => read_nudge(words),
        _ if word == b"define".as_slice() => read_define(alloc, words),
        _ if word == b"delete".as_slice() => read_delete(words),
        _ if word == b"members".as_slice() => read_members(words),
        _ if word == b"dump".as_slice() => read_dump(words),
        _ if word == b"nodes".as_slice() => read_nodes(alloc, words),
        _ if word == b"space".as_slice() => read_space(alloc, words),
        _ => Err(LineFault::Malformed),
    }
}

/// `nodes NAME ..`
#[tactic(auto, unfolding(crate::specs::Scripts::nodes_in))]
fn read_nodes<'a>(alloc: Global, words: &mut Words<'a>) -> Result<Line<'a>, LineFault>
    ensures { ReadsAllWords line_of result (nodes_in words.old) }
{
    let names = words.all_words(alloc)?;
    Ok(Line::Nodes(names))
}

/// `space NS NODE ..`
#[tactic(auto, unfolding(crate::specs::Scripts::space_in))]
fn read_space<'a>(alloc: Global, words: &mut Words<'a>) -> Result<Line<'a>, LineFault>
    ensures { ReadsAllWords line_of result (space_in words.old) }
{
    let nspace = words.word()?;
    let homes = words.all_numbers(alloc)?;
    Ok(Line::Space(nspace, homes))
}

/// `put NS RANK SCOPE HEX KEY`
#[tactic(auto, unfolding(crate::specs::Scripts::put_in))]
fn read_put<'a>(alloc: Global, words: &mut Words<'a>) -> Result<Line<'a>, LineFault>
    ensures { ReadsAllWords line_of result (put_in words.old) }
{
    let proc = words.proc()?;
    let scope = words.scope()?;
    let value = words.value(alloc)?;
    let key = words.rest()?;
    Ok(Line::Put(proc, scope, value, key))
}

/// `enter NS RANK plain` or `collect`, then pairs `NS RANK`
#[tactic(auto, unfolding(crate::specs::Scripts::enter_in))]
fn read_enter<'a>(alloc: Global, words: &mut Words<'a>) -> Result<Line<'a>, LineFault>
    ensures { ReadsAllWords line_of result (enter_in words.old) }
{
    let proc = words.proc()?;
    let collect = words.collect()?;
    let list = words.all_procs(alloc)?;
    Ok(Line::Enter(proc, collect, list))
}

/// `get NS RANK wait`, `now` or `refresh`, then `NS RANK KEY`
#[tactic(auto, unfolding(crate::specs::Scripts::get_in))]
fn read_get<'a>(words: &mut Words<'a>) -> Result<Line<'a>, LineFault>
    ensures { ReadsAllWords line_of result (get_in words.old) }
{
    let proc = words.proc()?;
    let mode = words.mode()?;
    let target = words.proc()?;
    let key = words.rest()?;
    Ok(Line::Get(proc, mode, target, key))
}

/// `define M`, so many pairs `NS RANK`, `NAME`
#[tactic(auto, unfolding(crate::specs::Scripts::define_in))]
fn read_define<'a>(alloc: Global, words: &mut Words<'a>) -> Result<Line<'a>, LineFault>
    ensures { ReadsAllWords line_of result (define_in words.old) }
{
    let count = words.number()?;
    let list = words.procs(alloc, count)?;
    let name = words.rest()?;
    Ok(Line::Define(list, name))
}

/// `delete NAME`
#[tactic(auto, unfolding(crate::specs::Scripts::delete_in))]
fn read_delete<'a>(words: &mut Words<'a>) -> Result<Line<'a>, LineFault>
    ensures { ReadsAllWords line_of result (delete_in words.old) }
{
    let name = words.rest()?;
    Ok(Line::Delete(name))
}

/// `members NODE NAME`
#[tactic(auto, unfolding(crate::specs::Scripts::members_in))]
fn read_members<'a>(words: &mut Words<'a>) -> Result<Line<'a>, LineFault>
    ensures { ReadsAllWords line_of result (members_in words.old) }
{
    let node = words.number()?;
    let name = words.rest()?;
    Ok(Line::Members(node, name))
}

/// `flow`
#[tactic(auto, unfolding(crate::specs::Scripts::alone))]
fn read_flow<'a>(words: &mut Words<'a>) -> Result<Line<'a>, LineFault>
    ensures { ReadsAllWords line_of result (alone ScriptLine.flow words.old) }
{
    words.end()?;
    Ok(Line::Flow)
}

/// `commit NS RANK`
#[tactic(auto, unfolding(crate::specs::Scripts::proc_in))]
fn read_commit<'a>(words: &mut Words<'a>) -> Result<Line<'a>, LineFault>
    ensures { ReadsAllWords line_of result (proc_in ScriptLine.commit words.old) }
{
    let proc = words.proc()?;
    words.end()?;
    Ok(Line::Commit(proc))
}

/// `leave NS RANK`
#[tactic(auto, unfolding(crate::specs::Scripts::proc_in))]
fn read_leave<'a>(words: &mut Words<'a>) -> Result<Line<'a>, LineFault>
    ensures { ReadsAllWords line_of result (proc_in ScriptLine.leave words.old) }
{
    let proc = words.proc()?;
    words.end()?;
    Ok(Line::Leave(proc))
}

/// `take NS RANK`
#[tactic(auto, unfolding(crate::specs::Scripts::proc_in))]
fn read_take<'a>(words: &mut Words<'a>) -> Result<Line<'a>, LineFault>
    ensures { ReadsAllWords line_of result (proc_in ScriptLine.take words.old) }
{
    let proc = words.proc()?;
    words.end()?;
    Ok(Line::Take(proc))
}

/// `end NS RANK`
#[tactic(auto, unfolding(crate::specs::Scripts::proc_in))]
fn read_end<'a>(words: &mut Words<'a>) -> Result<Line<'a>, LineFault>
    ensures { ReadsAllWords line_of result (proc_in ScriptLine.end words.old) }
{
    let proc = words.proc()?;
    words.end()?;
    Ok(Line::End(proc))
}

/// `deliver I`
#[tactic(auto, unfolding(crate::specs::Scripts::number_alone))]
fn read_deliver<'a>(words: &mut Words<'a>) -> Result<Line<'a>, LineFault>
    ensures { ReadsAllWords line_of result (number_alone ScriptLine.deliver words.old) }
{
    let frame = words.number()?;
    words.end()?;
    Ok(Line::Deliver(frame))
}

/// `nudge NODE`
#[tactic(auto, unfolding(crate::specs::Scripts::number_alone))]
fn read_nudge<'a>(words: &mut Words<'a>) -> Result<Line<'a>, LineFault>
    ensures { ReadsAllWords line_of result (number_alone ScriptLine.nudge words.old) }
{
    let node = words.number()?;
    words.end()?;
    Ok(Line::Nudge(node))
}

/// `dump NODE`
#[tactic(auto, unfolding(crate::specs::Scripts::number_alone))]
fn read_dump<'a>(words: &mut Words<'a>) -> Result<Line<'a>, LineFault>
    ensures { ReadsAllWords line_of result (number_alone ScriptLine.dump words.old) }
{
    let node = words.number()?;
    words.end()?;
    Ok(Line::Dump(node))
}
