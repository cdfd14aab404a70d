//! Places in a tree, which are made before they are filled. To make a place takes memory, and to fill it takes none.
ghost use Rattle.std.specs.Prelude.{◌≡◌, ◌<◌, is_some, Some, None, cond, IsTrue, OnOk, IfSome, IfNone};
ghost use Rattle.std.specs.BTreeMap.{get, is_at, btree_map_len, IsUnchanged};
ghost use Rattle.pmg_join.specs.Places.{there_at, HasPlace};

use crate::element::Element;
use std::alloc::{AllocError, Global};
use std::collections::BTreeMap;

/// Returns whether the key is past all others, by a look at the last one. Keys mostly come rising, and then none has to be looked up.
pub fn is_past_all<K: Element, V: Drop>(tree: &BTreeMap<K, Option<V>, Global>, key: &K) -> bool
    ensures { IsTrue result → get K.cmp tree.now key.now ≡ None }
{
    match tree.last_key_value() {
        Some((last, _)) => last.cmp(key).is_lt(),
        None => true,
    }
}

/// Returns whether there is a place for the key.
#[inline(always)]
fn has_place<K: Element, V: Drop>(tree: &BTreeMap<K, Option<V>, Global>, key: &K) -> bool
    ensures { result ≡ is_some (get K.cmp tree.now key.now) }
{
    !is_past_all(tree, key) && tree.contains_key(key)
}

/// Makes the first place for the key, an empty one. It is not inlined, because mostly a place is there.
#[inline(never)]
fn add_place<K: Element, V: Drop>(
    tree: &mut BTreeMap<K, Option<V>, Global>,
    key: &K,
) -> Result<(), AllocError>
    requires { get K.cmp tree.old key.now ≡ None }
    ensures same { (q : K) → there_at K.cmp tree.new q ≡ there_at K.cmp tree.old q }
    ensures place { OnOk result (HasPlace K.cmp tree.new key.now) }
    ensures stay { (q : K) → HasPlace K.cmp tree.old q → HasPlace K.cmp tree.new q }
{
    tree.insert(key.copy()?, None)?;
    Ok(())
}

/// Makes an empty place for the key, if there is none.
#[inline(always)]
pub fn make_place<K: Element, V: Drop>(
    tree: &mut BTreeMap<K, Option<V>, Global>,
    key: &K,
) -> Result<(), AllocError>
    ensures same { (q : K) → there_at K.cmp tree.new q ≡ there_at K.cmp tree.old q }
    ensures place { OnOk result (HasPlace K.cmp tree.new key.now) }
    ensures stay { (q : K) → HasPlace K.cmp tree.old q → HasPlace K.cmp tree.new q }
{
    if has_place(tree, key) {
        return Ok(());
    }
    add_place(tree, key)
}

/// Makes an empty place under the key, if there is none.
pub fn put_place<K: Element, V: Drop>(
    tree: &mut BTreeMap<K, Option<V>, Global>,
    key: K,
) -> Result<(), AllocError>
    ensures same { (q : K) → there_at K.cmp tree.new q ≡ there_at K.cmp tree.old q }
    ensures place { OnOk result (HasPlace K.cmp tree.new key) }
    ensures stay { (q : K) → HasPlace K.cmp tree.old q → HasPlace K.cmp tree.new q }
{
    tree.entry(key)?.or_insert(None);
    Ok(())
}

/// Takes the first place out of the tree, with its content.
pub fn pop_place<K: Element, V: Drop>(
    tree: &mut BTreeMap<K, Option<V>, Global>,
) -> Option<(K, Option<V>)>
    ensures there { IfSome result (λ p. get K.cmp tree.old p.0 ≡ Some p.1) }
    ensures taken { IfSome result (λ p. (q : K) → get K.cmp tree.new q ≡ cond (is_at (K.cmp p.0) q) None (get K.cmp tree.old q)) }
    ensures fewer { IfSome result (λ _. btree_map_len tree.new < btree_map_len tree.old) }
    ensures none { IfNone result ((q : K) → get K.cmp tree.old q ≡ None) }
    ensures unchanged { IfNone result (IsUnchanged tree.old tree.new) }
{
    tree.pop_first()
}
