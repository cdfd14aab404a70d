//! The parts of a job in JSON: the names of nodes, the homes of processes, and namespaces.
ghost use Rattle.std.specs.Prelude.{◌≡◌, map};
ghost use Rattle.serde_json.specs.Find.{as_str};
ghost use Rattle.serde_json.specs.View.{view, items_view};
ghost use Rattle.pmg_jobfile.specs.Reading.{all_in, array_in, name_in, home_in, homes_in, json_space, json_nodes, spaces_in, or_bad, ReadsJson};

use pmg_value::{NodeId, Nspace, Refusal};
use serde_json::Value;
use std::alloc::Global;
use std::marker::Model;

/// A namespace of a job: its name, and the node of each of its processes, by rank.
#[derive(Drop)]
pub struct Space {
    /// Its name.
    pub name: Nspace,
    /// The homes of its processes, by rank.
    pub homes: Vec<NodeId>,
}

impl Model for Space {
    ghost use Rattle.pmg_jobfile.specs.Described.{Space, coded_space};

    ghost Value = { Space };

    ghost coded = { coded_space };

    ghost view = { λ s. record { name = s.name; homes = s.homes.items } };
}

/// The string. Refused as BadParam where the value is none.
fn string_in(value: &Value) -> Result<&[u8], Refusal>
    ensures { ReadsJson (λ s. s.now) result (or_bad (as_str (view value.now))) }
{
    match value.as_str() {
        Some(text) => Ok(text.as_bytes()),
        None => Err(Refusal::BadParam),
    }
}

/// The strings of an array's items.
fn strings_of<'v>(alloc: Global, items: &'v [Value]) -> Result<Vec<&'v [u8]>, Refusal>
    ensures { ReadsJson (λ v. map (λ s. s.now) v.items) result (or_bad (all_in as_str (items_view items.now))) }
{
    let mut strings = Vec::new(alloc);
    for item in items {
        strings.push(string_in(item)?)?;
    }
    Ok(strings)
}

/// The home of a process of a job of so many nodes. Refused as BadParam where the value is no such number.
fn home_in(nodes: usize, value: &Value) -> Result<NodeId, Refusal>
    ensures { ReadsJson (λ home. home) result (or_bad (home_in nodes (view value.now))) }
{
    match value.as_u64() {
        Some(home) if home < nodes as u64 && home <= 63 => NodeId::new(home as u32),
        _ => Err(Refusal::BadParam),
    }
}

/// The homes that an array's items are.
fn homes_of(alloc: Global, nodes: usize, items: &[Value]) -> Result<Vec<NodeId>, Refusal>
    ensures { ReadsJson (λ v. v.items) result (or_bad (all_in (home_in nodes) (items_view items.now))) }
{
    let mut homes = Vec::new(alloc);
    for item in items {
        homes.push(home_in(nodes, item)?)?;
    }
    Ok(homes)
}

/// The name of a namespace.
fn name_in(alloc: Global, value: &Value) -> Result<Nspace, Refusal>
    ensures { ReadsJson (λ name. name) result (or_bad (name_in (view value.now))) }
{
    Nspace::read(alloc, string_in(value)?)
}

/// The homes of a namespace's processes, one at least.
fn homes_in(alloc: Global, nodes: usize, value: &Value) -> Result<Vec<NodeId>, Refusal>
    ensures { ReadsJson (λ v. v.items) result (or_bad (homes_in nodes (view value.now))) }
{
    let Some(items) = value.as_array() else {
        return Err(Refusal::BadParam);
    };
    let homes = homes_of(alloc, nodes, items)?;
    if homes.is_empty() {
        return Err(Refusal::BadParam);
    }
    Ok(homes)
}

/// A namespace of a job of so many nodes.
fn space_in(alloc: Global, nodes: usize, value: &Value) -> Result<Space, Refusal>
    ensures { ReadsJson (λ s. s) result (or_bad (json_space nodes (view value.now))) }
{
    let (Some(name), Some(homes)) = (value.get("name"), value.get("homes")) else {
        return Err(Refusal::BadParam);
    };
    let name = name_in(alloc, name)?;
    let homes = homes_in(alloc, nodes, homes)?;
    Ok(Space { name, homes })
}

/// The namespaces that an array's items are.
fn spaces_of(alloc: Global, nodes: usize, items: &[Value]) -> Result<Vec<Space>, Refusal>
    ensures { ReadsJson (λ v. v.items) result (or_bad (all_in (json_space nodes) (items_view items.now))) }
{
    let mut spaces = Vec::new(alloc);
    for item in items {
        spaces.push(space_in(alloc, nodes, item)?)?;
    }
    Ok(spaces)
}

/// The names of a job's nodes. Refused as BadParam where they are no array of strings.
pub fn nodes_in<'v>(alloc: Global, value: &'v Value) -> Result<Vec<&'v [u8]>, Refusal>
    ensures { ReadsJson (λ v. map (λ s. s.now) v.items) result (or_bad (json_nodes (view value.now))) }
{
    match value.get("nodes").and_then(Value::as_array) {
        Some(items) => strings_of(alloc, items),
        None => Err(Refusal::BadParam),
    }
}

/// The namespaces of a job of so many nodes. Refused as BadParam where they are no array of namespaces.
pub fn spaces_in(alloc: Global, nodes: usize, value: &Value) -> Result<Vec<Space>, Refusal>
    ensures { ReadsJson (λ v. v.items) result (or_bad (spaces_in nodes (view value.now))) }
{
    match value.get("spaces").and_then(Value::as_array) {
        Some(items) => spaces_of(alloc, nodes, items),
        None => Err(Refusal::BadParam),
    }
}
