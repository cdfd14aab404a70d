ghost use Rattle.std.specs.Prelude.{◌≡◌, cond, false, Some, None, OnOk, OnErr, IfOk, IfErr};
ghost use Rattle.std.specs.Option.{option_map};
ghost use Rattle.std.specs.BTreeMap.{get, is_at};
ghost use Rattle.pmg_value.specs.Maps.{join_options, join_to};
ghost use Rattle.pmg_join.specs.Maps.{meant_at, join_at_keys, joined_under, IsRoomFor};
ghost use Rattle.pmg_join.specs.Places.{there_at};

use crate::element::Element;
use crate::join::{Absorb, Join, TwoPhaseJoin};
use crate::places::{is_past_all, make_place, pop_place};
use std::alloc::{AllocError, AllocFailed, Global};
use std::collections::BTreeMap;

/// A map whose parts are joined key by key. An empty place is room for a part.
#[derive(Drop)]
pub struct MapJoin<K: Element, J: Join> {
    alloc: Global,
    table: BTreeMap<K, Option<J>, Global>,
}

/// Joins the part into the part in the place, or puts it there. If an allocation fails, the place keeps its meaning, and the part is handed
/// back.
fn put_in<J: Join>(place: &mut Option<J>, part: J) -> Result<(), AllocFailed<J>>
    ensures ok { OnOk result (option_map J.meaning place.new
        ≡ Some (join_to J.joined (option_map J.meaning place.old) (J.meaning part))) }
    ensures err { OnErr result (option_map J.meaning place.new ≡ option_map J.meaning place.old) }
    ensures handed_back { IfErr result (λ e. J.meaning e.value ≡ J.meaning part) }
{
    match place {
        Some(there) => there.join(part),
        None => {
            *place = Some(part);
            Ok(())
        }
    }
}

/// Takes the change into the part in the place, or puts a part there that has taken only the change. If an allocation fails, the place
/// keeps its meaning.
fn change_in<C: Drop, J: Absorb<C>>(
    place: &mut Option<J>,
    alloc: Global,
    change: C,
) -> Result<(), AllocError>
    ensures ok { OnOk result (option_map J.meaning place.new
        ≡ Some (join_to J.joined (option_map J.meaning place.old) (J.told change))) }
    ensures err { OnErr result (option_map J.meaning place.new ≡ option_map J.meaning place.old) }
{
    match place {
        Some(there) => there.take_change(change),
        None => {
            *place = Some(J::of_change(alloc, change)?);
            Ok(())
        }
    }
}

/// Takes the change into the part under the key, or puts a part there that has taken only the change. If an allocation fails, each part
/// keeps its meaning.
fn change_at<K: Element, C: Drop, J: Absorb<C>>(
    table: &mut BTreeMap<K, Option<J>, Global>,
    alloc: Global,
    key: K,
    change: C,
) -> Result<(), AllocError>
    ensures ok { OnOk result ((q : K) → meant_at K.cmp J.meaning table.new q
        ≡ joined_under K.cmp J.joined (meant_at K.cmp J.meaning table.old) key (J.told change) q) }
    ensures err { OnErr result ((q : K) → meant_at K.cmp J.meaning table.new q ≡ meant_at K.cmp J.meaning table.old q) }
{
    if is_past_all(table, &key) {
        table.insert(key, Some(J::of_change(alloc, change)?))?;
        return Ok(());
    }
    match table.get_mut(&key) {
        Some(place) => change_in(place, alloc, change),
        None => {
            table.insert(key, Some(J::of_change(alloc, change)?))?;
            Ok(())
        }
    }
}

/// Makes room in the place to take the part.
fn make_room_in<J: TwoPhaseJoin>(place: &mut Option<J>, part: &J) -> Result<(), AllocError>
    ensures same { option_map J.meaning place.new ≡ option_map J.meaning place.old }
    ensures room { OnOk result (IsRoomFor J.HasRoom part.now (Some place.new)) }
{
    match place {
        Some(there) => there.make_room(part),
        None => Ok(()),
    }
}

/// Joins the part into the part in the place, which has room for it.
fn take_in<J: TwoPhaseJoin>(place: &mut Option<J>, part: J)
    requires { IsRoomFor J.HasRoom part (Some place.old) }
    ensures { option_map J.meaning place.new ≡ join_options J.joined (option_map J.meaning place.old) (Some (J.meaning part)) }
{
    match place {
        Some(there) => there.take(part),
        None => *place = Some(part),
    }
}

impl<K: Element, J: Join> MapJoin<K, J> {
    /// Makes a map without keys. It keeps the allocator.
    pub fn new(alloc: Global) -> MapJoin<K, J>
        ensures { (key : K) → meant_at K.cmp J.meaning result.table key ≡ None }
    {
        MapJoin {
            alloc,
            table: BTreeMap::new(alloc),
        }
    }

    /// Returns the allocator.
    pub fn allocator(&self) -> Global {
        self.alloc
    }

    /// Returns the keys in their order, with the part under each if there is one.
    pub fn places(&self) -> &BTreeMap<K, Option<J>, Global>
        ensures { result.now ≡ self.now.table }
    {
        &self.table
    }

    /// Returns the part under the key.
    pub fn get(&self, key: &K) -> Option<&J>
        ensures { option_map (λ part. part.now) result ≡ there_at K.cmp self.now.table key.now }
    {
        match self.table.get(key) {
            Some(Some(part)) => Some(part),
            _ => None,
        }
    }

    /// Puts the part under the key, in place of the content there. If an allocation fails, the map keeps its meaning, and both are handed
    /// back.
    fn replace(&mut self, key: K, part: J) -> Result<(), AllocFailed<(K, J)>>
        ensures ok { OnOk result ((q : K) → meant_at K.cmp J.meaning self.new.table q
            ≡ cond (is_at (K.cmp key) q) (Some (J.meaning part)) (meant_at K.cmp J.meaning self.old.table q)) }
        ensures err { OnErr result ((q : K) → meant_at K.cmp J.meaning self.new.table q ≡ meant_at K.cmp J.meaning self.old.table q) }
        ensures key_handed_back { IfErr result (λ e. e.value.0 ≡ key) }
        ensures part_handed_back { IfErr result (λ e. e.value.1 ≡ part) }
    {
        match self.table.insert(key, Some(part)) {
            Ok(_) => Ok(()),
            Err(refused) => {
                let (key, place) = refused.value;
                match place {
                    Some(part) => Err(AllocFailed { value: (key, part) }),
                    None => unreachable!(),
                }
            }
        }
    }

    /// Joins the part into the part under the key, or puts it there. If an allocation fails, the map keeps its meaning, and both are handed
    /// back.
    pub fn put(&mut self, key: K, part: J) -> Result<(), AllocFailed<(K, J)>>
        ensures ok { OnOk result ((q : K) → meant_at K.cmp J.meaning self.new.table q
            ≡ joined_under K.cmp J.joined (meant_at K.cmp J.meaning self.old.table) key (J.meaning part) q) }
        ensures err { OnErr result ((q : K) → meant_at K.cmp J.meaning self.new.table q ≡ meant_at K.cmp J.meaning self.old.table q) }
        ensures key_handed_back { IfErr result (λ e. e.value.0 ≡ key) }
        ensures part_handed_back { IfErr result (λ e. J.meaning e.value.1 ≡ J.meaning part) }
    {
        if is_past_all(&self.table, &key) {
            return self.replace(key, part);
        }
        match self.table.get_mut(&key) {
            Some(place) => match put_in(place, part) {
                Ok(()) => Ok(()),
                Err(refused) => Err(AllocFailed {
                    value: (key, refused.value),
                }),
            },
            None => self.replace(key, part),
        }
    }
}

/// Takes the change into the part under the key, or puts a part there that has taken only the change. If an allocation fails, the map keeps
/// its meaning.
pub fn put_change<K: Element, C: Drop, J: Join + Absorb<C>>(
    map: &mut MapJoin<K, J>,
    key: K,
    change: C,
) -> Result<(), AllocError>
    ensures ok { OnOk result ((q : K) → meant_at K.cmp J.Absorb.meaning map.new.table q
        ≡ joined_under K.cmp J.Absorb.joined (meant_at K.cmp J.Absorb.meaning map.old.table) key (J.told change) q) }
    ensures err { OnErr result ((q : K) → meant_at K.cmp J.Absorb.meaning map.new.table q
        ≡ meant_at K.cmp J.Absorb.meaning map.old.table q) }
{
    change_at(&mut map.table, map.alloc, key, change)
}

impl<K: Element, J: TwoPhaseJoin> MapJoin<K, J> {
    /// Makes room to take the part under the key.
    fn make_room_at(&mut self, key: &K, part: &J) -> Result<(), AllocError>
        ensures same { (q : K) → meant_at K.cmp J.meaning self.new.table q ≡ meant_at K.cmp J.meaning self.old.table q }
        ensures room { OnOk result (IsRoomFor J.HasRoom part.now (get K.cmp self.new.table key.now)) }
        ensures stay { (q : K) (other : J) → is_at (K.cmp key.now) q ≡ false
            → IsRoomFor J.HasRoom other (get K.cmp self.old.table q) → IsRoomFor J.HasRoom other (get K.cmp self.new.table q) }
    {
        make_place(&mut self.table, key)?;
        match self.table.get_mut(key) {
            Some(place) => make_room_in(place, part),
            None => unreachable!(),
        }
    }

    /// Joins the part into the part under the key, which has room for it.
    fn take_at(&mut self, key: K, part: J)
        requires { IsRoomFor J.HasRoom part (get K.cmp self.old.table key) }
        ensures joined { (q : K) → meant_at K.cmp J.meaning self.new.table q
            ≡ cond (is_at (K.cmp key) q)
            (join_options J.joined (meant_at K.cmp J.meaning self.old.table key) (Some (J.meaning part)))
            (meant_at K.cmp J.meaning self.old.table q) }
        ensures stay { (q : K) → is_at (K.cmp key) q ≡ false → get K.cmp self.new.table q ≡ get K.cmp self.old.table q }
    {
        match self.table.get_mut(&key) {
            Some(place) => take_in(place, part),
            None => unreachable!(),
        }
    }
}

impl<K: Element, J: TwoPhaseJoin> Join for MapJoin<K, J> {
    ghost use Rattle.std.specs.Prelude.{Option};
    ghost use Rattle.pmg_join.specs.Maps.{meant_at, join_at_keys, WithinAtKeys, functions_joined, functions_ordered};

    ghost Meaning = { K → Option J.Meaning };

    ghost meaning = { λ m. meant_at K.cmp J.meaning m.table };

    ghost joined = { join_at_keys J.joined };

    ghost Within = { WithinAtKeys J.Within };

    ghost laws = { functions_joined J.laws };

    ghost order = { functions_ordered J.order };

    fn copy(&self) -> Result<MapJoin<K, J>, AllocError> {
        let mut copy = MapJoin::new(self.alloc);
        for (key, place) in self.table.iter() {
            if let Some(part) = place {
                copy.replace(key.copy()?, part.copy()?)?;
            }
        }
        Ok(copy)
    }

    fn join(&mut self, other: MapJoin<K, J>) -> Result<(), AllocFailed<MapJoin<K, J>>> {
        if let Err(_) = self.make_room(&other) {
            return Err(AllocFailed { value: other });
        }
        self.take(other);
        Ok(())
    }
}

impl<K: Element, J: TwoPhaseJoin> TwoPhaseJoin for MapJoin<K, J> {
    ghost use Rattle.pmg_join.specs.Maps.{HaveRoomFor};

    ghost HasRoom = { λ m other. HaveRoomFor K.cmp J.HasRoom m.table other.table };

    fn make_room(&mut self, other: &MapJoin<K, J>) -> Result<(), AllocError> {
        for (key, place) in other.table.iter() {
            if let Some(part) = place {
                self.make_room_at(key, part)?;
            }
        }
        Ok(())
    }

    fn take(&mut self, other: MapJoin<K, J>) {
        let mut places = other.table;
        while let Some((key, place)) = pop_place(&mut places) {
            if let Some(part) = place {
                self.take_at(key, part);
            }
        }
    }
}
