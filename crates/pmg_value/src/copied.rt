//! Values that can be copied if memory allows, and copies of lists and trees of them.
ghost use Rattle.std.specs.Prelude.{◌≡◌, IfOk};
ghost use Rattle.std.specs.BTreeMap.{get};

use crate::blobs::Text;
use crate::names::{Key, Nspace};
use crate::process::{NodeId, Proc};
use crate::value::Value;
use std::alloc::{AllocError, Global};
use std::collections::{BTreeMap, VecDeque};

/// Values that can be copied if memory allows.
pub trait Copied: Drop {
    /// Returns another object of the same value.
    fn copy(&self) -> Result<Self, AllocError>
        ensures { IfOk result (λ copy. copy ≡ self.now) };
}

impl Copied for u64 {
    fn copy(&self) -> Result<u64, AllocError> {
        Ok(*self)
    }
}

impl Copied for NodeId {
    fn copy(&self) -> Result<NodeId, AllocError> {
        Ok(*self)
    }
}

impl Copied for Nspace {
    fn copy(&self) -> Result<Nspace, AllocError> {
        Nspace::copy(self)
    }
}

impl Copied for Proc {
    fn copy(&self) -> Result<Proc, AllocError> {
        Proc::copy(self)
    }
}

impl Copied for Key {
    fn copy(&self) -> Result<Key, AllocError> {
        Key::copy(self)
    }
}

impl Copied for Text {
    fn copy(&self) -> Result<Text, AllocError> {
        Text::copy(self)
    }
}

impl Copied for Value {
    fn copy(&self) -> Result<Value, AllocError> {
        Value::copy(self)
    }
}

impl<A: Copied, B: Copied> Copied for (A, B) {
    fn copy(&self) -> Result<(A, B), AllocError> {
        Ok((self.0.copy()?, self.1.copy()?))
    }
}

impl<A: Copied> Copied for Option<A> {
    fn copy(&self) -> Result<Option<A>, AllocError> {
        match self {
            Some(value) => Ok(Some(value.copy()?)),
            None => Ok(None),
        }
    }
}

/// Copies all the items, in their order.
pub fn copy_all<T: Copied>(items: &Vec<T>) -> Result<Vec<T>, AllocError>
    ensures { IfOk result (λ copies. copies.items ≡ items.now.items) }
{
    let mut copies = Vec::with_capacity(*items.allocator(), items.len())?;
    for item in items {
        copies.push(item.copy()?)?;
    }
    Ok(copies)
}

/// Copies all items of a queue, in their order.
pub fn copy_queue<T: Copied>(items: &VecDeque<T>) -> Result<VecDeque<T>, AllocError>
    ensures { IfOk result (λ copies. copies.items ≡ items.now.items) }
{
    let mut copies = VecDeque::with_capacity(*items.allocator(), items.len())?;
    for item in items.iter() {
        copies.push_back(item.copy()?)?;
    }
    Ok(copies)
}

/// Copies a tree with its keys and values.
pub fn copy_rows<K: Ord + Copied, V: Copied>(
    alloc: Global,
    rows: &BTreeMap<K, V>,
) -> Result<BTreeMap<K, V>, AllocError>
    ensures { IfOk result (λ copies. (q : K) → get K.cmp copies q ≡ get K.cmp rows.now q) }
{
    let mut copies = BTreeMap::new(alloc);
    for (key, value) in rows.iter() {
        let _ = copies.insert(key.copy()?, value.copy()?)?;
    }
    Ok(copies)
}
