//! The reply lines of a script, in memory: each is written into the room of an earlier line, and replaces it.
ghost use Rattle.std.specs.Prelude.{◌≡◌, ◌++◌, Bool, codes, decimal, IfOk, OnOk};
ghost use Rattle.std.specs.List.{flat_map};
ghost use Rattle.pmg_value.specs.RefusalText.{refusal_text};
ghost use Rattle.pmg_value.specs.Spelling.{spelling, IsValue};
ghost use Rattle.pmg_value.specs.Text.{text_of};
ghost use Rattle.pmg_wire.specs.Fields.{whole_value};
ghost use Rattle.pmg_node.specs.Acting.{reply_as};
ghost use Rattle.pmg_node_model.specs.Acts.{Reply as ModelReply};
ghost use Rattle.pmg_node.specs.Servers.{reply_in};
ghost use Rattle.pmg_world.specs.ReplyLines.{proc_text, list_text, found_text, change_text, reply_line, flow_line, members_line};

use pmg_node::Reply;
use pmg_value::{Proc, Refusal, Value, WatchedWriter, WriteFault, push_number};
use std::alloc::AllocError;

/// Writes the line of a reply. The flag says whether the request was the deletion of a set.
pub fn reply_line(
    room: Vec<u8>,
    deletes: bool,
    reply: &Result<Reply, Refusal>,
) -> Result<Vec<u8>, AllocError>
    ensures { IfOk result (λ line. line.items ≡ reply_line deletes (reply_in reply_as reply.now)) }
{
    match reply {
        Ok(answer) => answer_line(room, deletes, answer),
        Err(refusal) => refusal_line(room, refusal),
    }
}

/// Writes the line of a refusal.
#[tactic(auto, unfolding(crate::specs::ReplyLines::reply_line))]
pub fn refusal_line(room: Vec<u8>, refusal: &Refusal) -> Result<Vec<u8>, AllocError>
    ensures { IfOk result (λ line. (deletes : Bool) → line.items ≡ reply_line deletes (ModelReply.refused refusal.now)) }
{
    let words = line_of(room, b"refused ")?;
    let mut line = with_refusal(words, refusal)?;
    end_line(&mut line)?;
    Ok(line)
}

/// Appends the text of a refusal to a line.
fn with_refusal(line: Vec<u8>, refusal: &Refusal) -> Result<Vec<u8>, AllocError>
    ensures { IfOk result (λ text. text.items ≡ line.items ++ refusal_text refusal.now) }
{
    let mut writer = WatchedWriter::new(line);
    match refusal.write_text(&mut writer) {
        Ok(()) => Ok(writer.into_inner()),
        Err(WriteFault) => Err(AllocError),
    }
}

/// Writes the line of a reply that is not a refusal.
#[tactic(auto, unfolding(crate::specs::ReplyLines::reply_line))]
fn answer_line(room: Vec<u8>, deletes: bool, reply: &Reply) -> Result<Vec<u8>, AllocError>
    ensures { IfOk result (λ line. line.items ≡ reply_line deletes (reply_as reply.now)) }
{
    match reply {
        Reply::Done => line_of(room, b"ok\n"),
        Reply::Committed(number) => number_line(room, b"commit ", *number),
        Reply::Entered(instance) => number_line(room, b"entered ", *instance),
        Reply::Idle => line_of(room, b"idle\n"),
        Reply::Waiting => line_of(room, b"waiting\n"),
        Reply::Released(instance, gone) => released_line(room, *instance, gone),
        Reply::Found(value) => found_line(room, value),
        Reply::Parked => line_of(room, b"parked\n"),
        Reply::Taken => line_of(room, b"delivered 1\n"),
        Reply::Ignored => line_of(room, b"delivered 1\n"),
        Reply::Ended(number) => number_line(room, b"ended ", *number),
        Reply::Defined(number) => number_line(room, change_text(deletes), *number),
    }
}

/// Returns the words for the change of a set.
fn change_text(deletes: bool) -> &'static [u8]
    ensures { result.now ≡ change_text deletes }
{
    if deletes { b"deleted " } else { b"defined " }
}

/// Begins a line with the text.
fn line_of(room: Vec<u8>, text: &[u8]) -> Result<Vec<u8>, AllocError>
    ensures { IfOk result (λ line. line.items ≡ text.now) }
{
    let mut line = room;
    line.clear();
    line.extend_from_slice(text)?;
    Ok(line)
}

/// Ends a line.
fn end_line(line: &mut Vec<u8>) -> Result<(), AllocError>
    ensures { OnOk result (line.new.items ≡ line.old.items ++ codes "\n") }
{
    line.extend_from_slice(b"\n")
}

/// Writes the line of a number, after these words.
fn number_line(room: Vec<u8>, words: &[u8], number: u64) -> Result<Vec<u8>, AllocError>
    ensures { IfOk result (λ line. line.items ≡ words.now ++ (decimal number ++ codes "\n")) }
{
    let mut line = line_of(room, words)?;
    push_number(&mut line, number)?;
    end_line(&mut line)?;
    Ok(line)
}

/// Writes the line of a release.
fn released_line(room: Vec<u8>, instance: u64, gone: &[Proc]) -> Result<Vec<u8>, AllocError>
    ensures { IfOk result (λ line. line.items ≡ codes "released " ++ (decimal instance ++ (codes " gone " ++ (list_text gone.now ++ codes "\n")))) }
{
    let mut line = line_of(room, b"released ")?;
    push_number(&mut line, instance)?;
    line.extend_from_slice(b" gone ")?;
    push_list(&mut line, gone)?;
    end_line(&mut line)?;
    Ok(line)
}

/// Writes the line of a value.
fn found_line(room: Vec<u8>, value: &Value) -> Result<Vec<u8>, AllocError>
    ensures { IfOk result (λ line. line.items ≡ codes "found " ++ (found_text (whole_value (spelling value.now)) ++ codes "\n")) }
{
    let words = line_of(room, b"found ")?;
    let mut line = with_value(words, value)?;
    end_line(&mut line)?;
    Ok(line)
}

/// Appends the text of a value to a line.
fn with_value(line: Vec<u8>, value: &Value) -> Result<Vec<u8>, AllocError>
    ensures text { IfOk result (λ text. text.items ≡ line.items ++ text_of value.now) }
    ensures is { OnOk result (IsValue value.now) }
{
    let mut writer = WatchedWriter::new(line);
    match value.write_text(&mut writer) {
        Ok(()) => Ok(writer.into_inner()),
        Err(WriteFault) => Err(AllocError),
    }
}

/// Writes the line with the number of delivered frames.
#[tactic(auto, unfolding(crate::specs::ReplyLines::flow_line))]
pub fn flow_line(room: Vec<u8>, count: u64) -> Result<Vec<u8>, AllocError>
    ensures { IfOk result (λ line. line.items ≡ flow_line count) }
{
    number_line(room, b"delivered ", count)
}

/// Writes the line with the members of a set.
#[tactic(auto, unfolding(crate::specs::ReplyLines::members_line))]
pub fn members_line(room: Vec<u8>, members: &[Proc]) -> Result<Vec<u8>, AllocError>
    ensures { IfOk result (λ line. line.items ≡ members_line members.now) }
{
    let mut line = line_of(room, b"members ")?;
    push_list(&mut line, members)?;
    end_line(&mut line)?;
    Ok(line)
}

/// Appends a process to a text.
#[tactic(auto, unfolding(crate::specs::ReplyLines::proc_text))]
fn push_proc(text: &mut Vec<u8>, proc: &Proc) -> Result<(), AllocError>
    ensures { OnOk result (text.new.items ≡ text.old.items ++ proc_text proc.now) }
{
    text.extend_from_slice(proc.nspace.as_bytes())?;
    text.extend_from_slice(b"/")?;
    push_number(text, u64::from(proc.rank.number()))
}

/// Appends processes to a text, with commas between them, or `-` for an empty list.
#[tactic(auto, unfolding(crate::specs::ReplyLines::list_text))]
fn push_list(text: &mut Vec<u8>, procs: &[Proc]) -> Result<(), AllocError>
    ensures { OnOk result (text.new.items ≡ text.old.items ++ list_text procs.now) }
{
    let Some((first, others)) = procs.split_first() else {
        return text.extend_from_slice(b"-");
    };
    push_proc(text, first)?;
    push_others(text, others)
}

/// Appends processes to a text, with a comma before each.
fn push_others(text: &mut Vec<u8>, procs: &[Proc]) -> Result<(), AllocError>
    ensures { OnOk result (text.new.items ≡ text.old.items ++ flat_map (λ p. codes "," ++ proc_text p) procs.now) }
{
    for proc in procs {
        text.extend_from_slice(b",")?;
        push_proc(text, proc)?;
    }
    Ok(())
}
