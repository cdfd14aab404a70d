ghost use Rattle.std.specs.Prelude.{◌≡◌, OnOk, OnErr, IfErr};
ghost use Rattle.std.specs.FinSet as set;
ghost use Rattle.pmg_join.specs.Sets.{set_in};

use crate::element::Element;
use crate::join::Join;
use std::alloc::{AllocError, AllocFailed, Global};
use std::collections::BTreeSet;

/// A set that only grows.
#[derive(Drop)]
pub struct GrowSet<T: Element> {
    alloc: Global,
    elements: BTreeSet<T, Global>,
}

impl<T: Element> GrowSet<T> {
    /// Makes an empty set. It keeps the allocator.
    pub fn new(alloc: Global) -> GrowSet<T>
        ensures { set_in T.cmp result.elements ≡ set.empty }
    {
        GrowSet {
            alloc,
            elements: BTreeSet::new(alloc),
        }
    }

    /// Puts the element into the set. If an allocation fails, the set stays as it is, and the element is handed back.
    pub fn insert(&mut self, element: T) -> Result<(), AllocFailed<T>>
        ensures ok { OnOk result (set_in T.cmp self.new.elements ≡ set.insert (set_in T.cmp self.old.elements) element) }
        ensures err { OnErr result (set_in T.cmp self.new.elements ≡ set_in T.cmp self.old.elements) }
        ensures handed_back { IfErr result (λ e. e.value ≡ element) }
    {
        self.elements.insert(element)?;
        Ok(())
    }

    /// Returns whether the element is in the set.
    pub fn contains(&self, element: &T) -> bool
        ensures { result ≡ set.contains (set_in T.cmp self.now.elements) element.now }
    {
        self.elements.contains(element)
    }
}

/// Puts copies of the other set's elements into this one. If an allocation fails, some of them are there.
fn insert_copies<T: Element>(all: &mut GrowSet<T>, other: &GrowSet<T>) -> Result<(), AllocError>
    ensures { OnOk result (set_in T.cmp all.new.elements ≡ set.union (set_in T.cmp all.old.elements) (set_in T.cmp other.now.elements)) }
{
    for element in other.elements.iter() {
        if let Err(_) = all.insert(element.copy()?) {
            return Err(AllocError);
        }
    }
    Ok(())
}

impl<T: Element> Join for GrowSet<T> {
    ghost use Rattle.std.specs.FinSet as set;
    ghost use Rattle.pmg_join.specs.Sets.{set_in, SetWithin, sets_joined, sets_ordered};

    ghost Meaning = { set.FinSet T.Ord.cmp };

    ghost meaning = { λ s. set_in T.Ord.cmp s.elements };

    ghost joined = { set.union };

    ghost Within = { SetWithin };

    ghost laws = { sets_joined T.Ord.total T.exact };

    ghost order = { sets_ordered T.Ord.total T.exact };

    fn copy(&self) -> Result<GrowSet<T>, AllocError> {
        let mut copy = GrowSet::new(self.alloc);
        insert_copies(&mut copy, self)?;
        Ok(copy)
    }

    fn join(&mut self, other: GrowSet<T>) -> Result<(), AllocFailed<GrowSet<T>>> {
        let Ok(mut all) = self.copy() else {
            return Err(AllocFailed { value: other });
        };
        if let Err(_) = insert_copies(&mut all, &other) {
            return Err(AllocFailed { value: other });
        }
        *self = all;
        Ok(())
    }
}
