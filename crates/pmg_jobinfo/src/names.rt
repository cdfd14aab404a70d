//! The names of nodes.
ghost use Rattle.std.specs.Prelude.{◌≡◌, map, IfOk, IsTrue};
ghost use Rattle.std.specs.List.{list_all, list_any};
ghost use Rattle.std.specs.Ordering.{nat_cmp, eq_by_cmp};
ghost use Rattle.std.specs.Cmp.Lexicographic.{slice_cmp};
ghost use Rattle.std.specs.BTreeSet.{IsFromIterResult};
ghost use Rattle.pmg_value.specs.Names.{is_nspace};
ghost use Rattle.pmg_jobinfo.specs.Refusing.{are_distinct, are_names};

use crate::registry::MAX_NODES;
use pmg_value::{Text, is_nspace_name};
use std::alloc::{AllocError, Global};
use std::collections::BTreeSet;

/// Whether each is a name that a node may have: 1 to 255 bytes of 0x21 to 0x7E.
fn are_graphic(names: &[&[u8]]) -> bool
    ensures { result ≡ list_all is_nspace (map (λ n. n.now) names.now) }
{
    for name in names {
        if !is_nspace_name(name) {
            return false;
        }
    }
    true
}

/// The set of the names.
fn set_of<'a>(alloc: Global, names: &[&'a [u8]]) -> Result<BTreeSet<&'a [u8]>, AllocError>
    ensures { IfOk result (IsFromIterResult (λ x y. slice_cmp nat_cmp x.now y.now) names.now) }
{
    names.iter().copied().collect(alloc)
}

/// Whether the name is one of the names.
fn is_among(name: &[u8], names: &[&[u8]]) -> bool
    ensures { result ≡ list_any (eq_by_cmp (slice_cmp nat_cmp) name.now) (map (λ n. n.now) names.now) }
{
    for other in names {
        if name == *other {
            return true;
        }
    }
    false
}

/// Whether each is none of those after it. It takes no memory.
fn are_all_different(names: &[&[u8]]) -> bool
    ensures { result ≡ are_distinct (map (λ n. n.now) names.now) }
{
    for (i, name) in names.iter().enumerate() {
        if is_among(name, &names[i + 1..]) {
            return false;
        }
    }
    true
}

/// Whether no two are equal. Of more names than a group may have a set is made, so that it takes no time to speak of;
/// where there is no memory for it, they are compared one by one.
fn are_distinct(alloc: Global, names: &[&[u8]]) -> bool
    ensures { result ≡ are_distinct (map (λ n. n.now) names.now) }
{
    if names.len() <= MAX_NODES {
        return are_all_different(names);
    }
    match set_of(alloc, names) {
        Ok(different) => different.len() == names.len(),
        Err(_) => are_all_different(names),
    }
}

/// Whether nodes may have these names: each is one, and no two are equal.
pub fn are_node_names(alloc: Global, names: &[&[u8]]) -> bool
    ensures { result ≡ are_names (map (λ n. n.now) names.now) }
{
    are_graphic(names) && are_distinct(alloc, names)
}

/// The names, as texts.
pub fn texts_of(alloc: Global, names: &[&[u8]]) -> Result<Vec<Text>, AllocError>
    requires { IsTrue (list_all is_nspace (map (λ n. n.now) names.now)) }
    ensures { IfOk result (λ texts. texts.items ≡ map (λ n. n.now) names.now) }
{
    let mut texts = Vec::with_capacity(alloc, names.len())?;
    for name in names {
        texts.push(Text::from_text(alloc, name)?)?;
    }
    Ok(texts)
}
