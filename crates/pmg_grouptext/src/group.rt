//! The reader of a group's text.
ghost use Rattle.std.specs.Prelude.{◌≡◌, ◌≢◌, ◌<◌, length, Some, Ok, Err, IfErr, IfSome, OnOk};
ghost use Rattle.std.specs.List.{position};
ghost use Rattle.pmg_value.specs.declared.refusal.Refusal.TheVariants as refusals;
ghost use Rattle.pmg_script.specs.Reading.{is_end};
ghost use Rattle.pmg_script.specs.Scripts.{Line as ModelLine, said, texts};
ghost use Rattle.pmg_grouptext.specs.Groups.{IsCutFrom, ReadsGroup, group_in, after_line};

use crate::registering::register_space;
use pmg_jobinfo::Registry;
use pmg_script::{Line, LineFault, content, read_line};
use pmg_value::Refusal;
use std::alloc::Global;

const LF: u8 = b'\n';

/// Reads a group from its text. A line `nodes NAME ..` comes first; then each namespace has a line `space NS NODE ..` with the home of each
/// rank; an empty line has no effect. The first refused line counts. Errors: `BadParam` if the text has another line or names no nodes; the
/// errors of `Registry::new` and `Registry::register`; `NoMemory`.
pub fn read_group(alloc: Global, text: &[u8]) -> Result<Registry, Refusal>
    ensures { ReadsGroup (λ r. r) result (group_in text.now) }
{
    let mut group = None;
    let mut left = text;
    while !left.is_empty() {
        let (line, rest) = cut_line(left);
        take_line(alloc, &mut group, content(line))?;
        left = rest;
    }
    match group {
        Some(registry) => Ok(registry),
        None => Err(Refusal::BadParam),
    }
}

/// Returns the position of the first LF.
fn first_end(text: &[u8]) -> Option<usize>
    ensures value { result ≡ position is_end text.now }
    ensures bound { IfSome result (λ at. at < length text.now) }
{
    text.iter().position(|byte| *byte == LF)
}

/// Returns the first line, with the LF that ends it, and the text after it.
fn cut_line(text: &[u8]) -> (&[u8], &[u8])
    requires { 0 < length text.now }
    ensures { IsCutFrom text.now result.0.now result.1.now }
{
    match first_end(text) {
        Some(at) => text.split_at(at + 1),
        None => text.split_at(text.len()),
    }
}

/// Names the nodes, if they have no names yet.
#[tactic(auto, unfolding(crate::specs::Groups::after_line))]
fn name_nodes(alloc: Global, group: &mut Option<Registry>, names: &[&[u8]]) -> Result<(), Refusal>
    ensures ok { OnOk result (after_line group.old (Some (ModelLine.nodes (texts names.now))) ≡ Ok group.new) }
    ensures refused { IfErr result (λ e. e ≢ refusals.NoMemory → after_line group.old (Some (ModelLine.nodes (texts names.now))) ≡ Err e) }
{
    if group.is_some() {
        return Err(Refusal::BadParam);
    }
    *group = Some(Registry::new(alloc, names)?);
    Ok(())
}

/// Registers a namespace, if the nodes have names.
#[tactic(auto, unfolding(crate::specs::Groups::after_line))]
fn add_space(
    alloc: Global,
    group: &mut Option<Registry>,
    nspace: &[u8],
    homes: &[u64],
) -> Result<(), Refusal>
    ensures ok { OnOk result (after_line group.old (Some (ModelLine.space nspace.now homes.now)) ≡ Ok group.new) }
    ensures refused { IfErr result (λ e. e ≢ refusals.NoMemory → after_line group.old (Some (ModelLine.space nspace.now homes.now)) ≡ Err e) }
{
    match group {
        Some(registry) => register_space(alloc, registry, nspace, homes),
        None => Err(Refusal::BadParam),
    }
}

/// Applies the line to the group.
#[tactic(auto, unfolding(crate::specs::Groups::after_line))]
fn take_line(alloc: Global, group: &mut Option<Registry>, line: &[u8]) -> Result<(), Refusal>
    ensures ok { OnOk result (after_line group.old (said line.now) ≡ Ok group.new) }
    ensures refused { IfErr result (λ e. e ≢ refusals.NoMemory → after_line group.old (said line.now) ≡ Err e) }
{
    match read_line(alloc, line) {
        Ok(Line::Nothing) => Ok(()),
        Ok(Line::Nodes(names)) => name_nodes(alloc, group, &names),
        Ok(Line::Space(nspace, homes)) => add_space(alloc, group, nspace, &homes),
        Err(LineFault::NoMemory) => Err(Refusal::NoMemory),
        _ => Err(Refusal::BadParam),
    }
}
