ghost use Rattle.std.specs.Prelude.{◌≡◌, Some, is_some, IsTrue, IfOk, OnOk, OnErr};
ghost use Rattle.std.specs.FinMap as finite;
ghost use Rattle.pmg_fence.specs.Changes.{first_locals};
ghost use Rattle.pmg_fence.specs.TakenBack.{headers_back};
ghost use Rattle.pmg_fence.specs.Tables.{entry_in};
ghost use Rattle.pmg_value.specs.Lists.{is_chain};
ghost use Rattle.pmg_frame.specs.Fences.{is_local_rising};

use crate::entry::Entry;
use pmg_frame::{Header, Local};
use pmg_value::{Proc, copy_rows};
use std::alloc::{AllocError, Global};
use std::collections::BTreeMap;
use std::marker::Model;

/// The headers of one fence, by the index of their node.
#[derive(Drop)]
pub struct Headers {
    alloc: Global,
    rows: BTreeMap<u64, Header>,
}

impl Model for Headers {
    ghost use Rattle.pmg_fence.specs.Codes.{Headers, coded_headers, headers_in};

    ghost Value = { Headers };

    ghost coded = { coded_headers };

    ghost view = { λ a. headers_in a.rows.entries };
}

impl Headers {
    /// Makes an empty map. It keeps the allocator.
    pub fn new(alloc: Global) -> Headers
        ensures { result ≡ finite.empty }
    {
        Headers {
            alloc,
            rows: BTreeMap::new(alloc),
        }
    }

    /// Keeps the header, unless there is already one of its node; returns its node if the header is kept.
    pub fn put(&mut self, header: Header) -> Result<Option<u64>, AllocError>
        ensures before { IfOk result (λ node. headers_back self.new node ≡ self.old) }
        ensures ok { OnOk result (self.new ≡ finite.insert self.old header.node (first_locals (finite.get self.old header.node) header.locals)) }
        ensures err { OnErr result (self.new ≡ self.old) }
    {
        let node = header.node().index() as u64;
        if self.rows.get(&node).is_some() {
            return Ok(None);
        }
        self.rows.insert(node, header)?;
        Ok(Some(node))
    }

    /// Takes the node's header out.
    fn remove(&mut self, node: u64)
        ensures { self.new ≡ finite.remove self.old node }
    {
        let _ = self.rows.remove(&node);
    }

    /// Removes the node's header again, if one was kept. It takes no memory.
    pub fn rollback(&mut self, node: Option<u64>)
        ensures { self.new ≡ headers_back self.old node }
    {
        if let Some(node) = node {
            self.remove(node);
        }
    }

    /// Returns whether the node's header is known.
    pub fn contains(&self, node: u32) -> bool
        ensures { result ≡ is_some (finite.get self.now node) }
    {
        self.rows.get(&(node as u64)).is_some()
    }

    /// Returns the entry of the process in the header of the node.
    pub fn entry(&self, node: u32, proc: &Proc) -> Option<Entry>
        ensures { result ≡ entry_in proc.now (finite.get self.now node) }
    {
        match self.rows.get(&(node as u64)) {
            Some(header) => told_entry(header.locals(), proc),
            None => None,
        }
    }

    /// Returns an equal copy, with this allocator.
    pub fn copy(&self) -> Result<Headers, AllocError>
        ensures { IfOk result (λ copy. copy ≡ self.now) }
    {
        Ok(Headers {
            alloc: self.alloc,
            rows: copy_rows(self.alloc, &self.rows)?,
        })
    }
}

/// Returns the entry of the process in these lines of a header.
fn told_entry(locals: &[Local], proc: &Proc) -> Option<Entry>
    requires { IsTrue (is_chain is_local_rising locals.now) }
    ensures { result ≡ entry_in proc.now (Some locals.now) }
{
    match locals.binary_search_by(|local| local.proc.cmp(proc)) {
        Ok(index) => {
            let local = &locals[index];
            Some(Entry {
                state: local.state,
                level: local.level,
            })
        }
        Err(_) => None,
    }
}
