//! Rows of keys and values that change, and changes that are taken back.
ghost use Rattle.std.specs.Prelude.{◌≡◌, OnOk, OnErr};
ghost use Rattle.std.specs.BTreeMap.{get};
ghost use Rattle.std.specs.Option.{unwrap_or};
ghost use Rattle.pmg_value.specs.Rows.{back_at, grown_at};

use crate::copied::Copied;
use std::alloc::AllocError;
use std::collections::BTreeMap;
use std::mem;

/// Objects that take in one part after another, if memory allows. `MayFail` says when a part may need memory.
pub trait Growable: Drop {
    type Part: Drop;

    ghost grown: { Self → Self.Part → Self };

    ghost MayFail: { Self → Self.Part → Type 0 };

    /// Takes the part in. If an allocation fails, nothing changes.
    fn grow(&mut self, part: Self::Part) -> Result<(), AllocError>
        ensures ok { OnOk result (self.new ≡ grown self.old part) }
        ensures err { OnErr result (self.new ≡ self.old) }
        ensures may_fail { OnErr result (MayFail self.old part) };
}

/// Has the object under the key take the part in; without one, puts an object there that took in only this part. If an allocation fails,
/// the rows stay as they are.
pub fn grow_row<K: Ord + Copied, V: Growable>(
    rows: &mut BTreeMap<K, V>,
    key: &K,
    mut first: V,
    part: V::Part,
) -> Result<(), AllocError>
    requires { V.MayFail first part }
    ensures ok { OnOk result ((q : K) → get K.cmp rows.new q ≡ grown_at K.cmp first V.grown key.now part (get K.cmp rows.old) q) }
    ensures err { OnErr result ((q : K) → get K.cmp rows.new q ≡ get K.cmp rows.old q) }
    ensures may_fail { OnErr result (V.MayFail (unwrap_or (get K.cmp rows.old key.now) first) part) }
{
    if let Some(row) = rows.get_mut(key) {
        return row.grow(part);
    }
    first.grow(part)?;
    let _ = rows.insert(key.copy()?, first)?;
    Ok(())
}

/// Puts back the earlier content under the key: nothing, or a value in place of the value that is there. It takes no memory.
pub fn put_back<K: Ord + Drop, V: Drop>(rows: &mut BTreeMap<K, V>, key: &K, before: Option<V>)
    ensures { (q : K) → get K.cmp rows.new q ≡ back_at K.cmp key.now before (get K.cmp rows.old) q }
{
    match before {
        None => {
            let _ = rows.remove(key);
        }
        Some(mut value) => {
            if let Some(kept) = rows.get_mut(key) {
                mem::swap(kept, &mut value);
            }
        }
    }
}
