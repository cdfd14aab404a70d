//! Ranges of numbers in a tree. An empty range is room for a range that begins there.
ghost use Rattle.std.specs.Prelude.{◌≡◌, ◌<◌, ◌≤◌, ◌⊎◌, ℕ, suc, IsTrue, OnOk, OnErr, IfOk, IfSome, IfNone, ◌↔◌};
ghost use Rattle.pmg_join.specs.Ranges.{Between, HasRange, Covers, Spans, LieIn, AreApart, HaveRoom};

use std::alloc::{AllocError, Global};
use std::collections::BTreeMap;

/// The numbers above `from`, up to `to`.
#[derive(Clone, Copy, PartialEq, Eq)]
pub struct Span {
    pub from: u64,
    pub to: u64,
}

/// Ranges of numbers, by their beginnings. If there is room for a range, it is put in without memory.
#[derive(Drop)]
pub struct Ranges {
    ends: BTreeMap<u64, u64, Global>,
}

/// Returns the last of the ranges.
fn last_of(ends: &BTreeMap<u64, u64>) -> Option<Span>
    ensures there { IfSome result (λ s. HasRange ends.now s.from s.to) }
    ensures last { IfSome result (λ s. (from to : ℕ) → HasRange ends.now from to → from ≤ s.from) }
    ensures none { IfNone result ((from to : ℕ) → HasRange ends.now from to → ⊥) }
{
    match ends.last_key_value() {
        Some((from, to)) => Some(Span {
            from: *from,
            to: *to,
        }),
        None => None,
    }
}

/// Returns the last of the ranges that begin at the number or before it. Mostly it is the last of all, because most ranges come rising.
fn last_up_to(ends: &BTreeMap<u64, u64>, n: u64) -> Option<Span>
    ensures there { IfSome result (λ s. HasRange ends.now s.from s.to) }
    ensures before { IfSome result (λ s. s.from ≤ n) }
    ensures last { IfSome result (λ s. (from to : ℕ) → HasRange ends.now from to → from ≤ n → from ≤ s.from) }
    ensures none { IfNone result ((from to : ℕ) → HasRange ends.now from to → n < from) }
{
    match last_of(ends) {
        Some(last) if n < last.from => match ends.range(..=n).next_back() {
            Some((from, to)) => Some(Span {
                from: *from,
                to: *to,
            }),
            None => None,
        },
        last => last,
    }
}

/// Returns the first of the ranges that begin at one number or past it, up to another. Mostly there is none, because most ranges come
/// rising.
fn first_within(ends: &BTreeMap<u64, u64>, start: u64, top: u64) -> Option<Span>
    requires { start ≤ top }
    ensures there { IfSome result (λ s. HasRange ends.now s.from s.to) }
    ensures past { IfSome result (λ s. start ≤ s.from) }
    ensures up_to { IfSome result (λ s. s.from ≤ top) }
    ensures none { IfNone result ((from to : ℕ) → HasRange ends.now from to → start ≤ from → top < from) }
{
    match last_of(ends) {
        Some(last) if start <= last.from => match ends.range(start..=top).next() {
            Some((from, to)) => Some(Span {
                from: *from,
                to: *to,
            }),
            None => None,
        },
        _ => None,
    }
}

/// Returns whether one of the ranges has all numbers from the one to the other.
fn have(ends: &BTreeMap<u64, u64>, from: u64, to: u64) -> bool
    requires apart { AreApart ends.now }
    requires order { from ≤ to }
    ensures { IsTrue result ↔ Spans ends.now from to }
{
    match last_up_to(ends, from) {
        Some(span) => to <= span.to,
        None => false,
    }
}

/// Returns how far the ranges go from the number without a gap.
fn reach_from(ends: &BTreeMap<u64, u64>, n: u64) -> u64
    requires { AreApart ends.now }
    ensures far { n ≤ result }
    ensures reached { (i : ℕ) → Between n result i → Covers ends.now i }
    ensures no_more { Covers ends.now (suc result) → ⊥ }
{
    match last_up_to(ends, n) {
        Some(span) => n.max(span.to),
        None => n,
    }
}

/// Takes out the ranges that begin above `from` and can be reached from `top` on, and returns how far they go.
fn merge_above(ends: &mut BTreeMap<u64, u64>, from: u64, to: u64) -> u64
    requires { from < to }
    ensures end { to ≤ result }
    ensures left { (start end : ℕ) → HasRange ends.new start end → HasRange ends.old start end }
    ensures taken { (start end : ℕ) → HasRange ends.old start end
        → HasRange ends.new start end ⊎ ((from < start) × (end ≤ result)) }
    ensures no_more { (n : ℕ) → Between to result n → Covers ends.old n }
    ensures gone { (start end : ℕ) → HasRange ends.new start end → from < start → result < start }
{
    let mut top = to;
    while let Some(next) = first_within(ends, from + 1, top) {
        ends.remove(&next.from);
        top = top.max(next.to);
    }
    top
}

impl Ranges {
    /// Makes no ranges. They keep the allocator.
    pub fn new(alloc: Global) -> Ranges
        ensures apart { AreApart result.ends }
        ensures none { (n : ℕ) → Covers result.ends n → ⊥ }
    {
        Ranges {
            ends: BTreeMap::new(alloc),
        }
    }

    /// Makes room for a range that begins at the number. It takes time in proportion to the logarithm of the number of ranges.
    pub fn make_room(&mut self, from: u64) -> Result<(), AllocError>
        requires { AreApart self.old.ends }
        ensures apart { AreApart self.new.ends }
        ensures kept { LieIn self.old.ends self.new.ends }
        ensures no_more { (n : ℕ) → Covers self.new.ends n → Covers self.old.ends n }
        ensures room { OnOk result (Spans self.new.ends from from) }
    {
        if !have(&self.ends, from, from) {
            self.ends.insert(from, from)?;
        }
        Ok(())
    }

    /// Puts in the range, for which there is room, and makes it one with the ranges that it touches. It takes time in proportion to their
    /// number and to the logarithm of the number of ranges.
    pub fn fill_room(&mut self, from: u64, to: u64)
        requires apart { AreApart self.old.ends }
        requires some { from < to }
        requires room { Spans self.old.ends from from }
        ensures apart { AreApart self.new.ends }
        ensures kept { LieIn self.old.ends self.new.ends }
        ensures added { Spans self.new.ends from to }
        ensures no_more { (n : ℕ) → Covers self.new.ends n → Covers self.old.ends n ⊎ Between from to n }
    {
        let Some(first) = last_up_to(&self.ends, from) else {
            unreachable!()
        };
        let top = merge_above(&mut self.ends, from, to.max(first.to));
        match self.ends.get_mut(&first.from) {
            Some(end) => *end = top,
            None => unreachable!(),
        }
    }

    /// Makes room for each of the other ranges. If an allocation fails, there is room for some of them.
    pub fn make_rooms(&mut self, other: &Ranges) -> Result<(), AllocError>
        requires { AreApart self.old.ends }
        ensures apart { AreApart self.new.ends }
        ensures kept { LieIn self.old.ends self.new.ends }
        ensures no_more { (n : ℕ) → Covers self.new.ends n → Covers self.old.ends n }
        ensures room { OnOk result (HaveRoom other.now.ends self.new.ends) }
    {
        for (from, _) in other.ends.iter() {
            self.make_room(*from)?;
        }
        Ok(())
    }

    /// Puts in the other ranges; there is room for each of them.
    pub fn fill_rooms(&mut self, other: &Ranges)
        requires apart { AreApart self.old.ends }
        requires room { HaveRoom other.now.ends self.old.ends }
        ensures apart { AreApart self.new.ends }
        ensures kept { LieIn self.old.ends self.new.ends }
        ensures added { (n : ℕ) → Covers other.now.ends n → Covers self.new.ends n }
        ensures no_more { (n : ℕ) → Covers self.new.ends n → Covers self.old.ends n ⊎ Covers other.now.ends n }
    {
        for (from, to) in other.ends.iter() {
            if from < to {
                self.fill_room(*from, *to);
            }
        }
    }

    /// Returns whether one of the ranges has the number.
    pub fn contains(&self, n: u64) -> bool
        requires { AreApart self.now.ends }
        ensures { IsTrue result ↔ Covers self.now.ends n }
    {
        n > 0 && have(&self.ends, n - 1, n)
    }

    /// Returns how far the ranges go from 1 without a gap.
    pub fn level(&self) -> u64
        requires { AreApart self.now.ends }
        ensures reached { (n : ℕ) → 0 < n → n ≤ result → Covers self.now.ends n }
        ensures no_more { Covers self.now.ends (suc result) → ⊥ }
    {
        match self.ends.get(&0) {
            Some(end) => *end,
            None => 0,
        }
    }

    /// Returns how far the ranges go from 1 without a gap once the numbers above the one, up to the other, are put in too. It takes time in
    /// proportion to the logarithm of the number of ranges.
    pub fn level_with(&self, from: u64, to: u64) -> u64
        requires { AreApart self.now.ends }
        ensures reached { (n : ℕ) → 0 < n → n ≤ result → Covers self.now.ends n ⊎ Between from to n }
        ensures no_more { Covers self.now.ends (suc result) ⊎ Between from to (suc result) → ⊥ }
    {
        let level = self.level();
        if level < from {
            return level;
        }
        reach_from(&self.ends, level.max(to))
    }

    /// Returns how far the ranges go from 1 without a gap once the other ranges are put in too. It takes time in proportion to the number
    /// of the other ranges and to the logarithm of the number of these.
    pub fn level_with_all(&self, other: &Ranges) -> u64
        requires { AreApart self.now.ends }
        ensures reached { (n : ℕ) → 0 < n → n ≤ result → Covers self.now.ends n ⊎ Covers other.now.ends n }
        ensures no_more { Covers self.now.ends (suc result) ⊎ Covers other.now.ends (suc result) → ⊥ }
    {
        let mut level = self.level();
        for (from, to) in other.ends.iter() {
            if level < *from {
                return level;
            }
            level = reach_from(&self.ends, level.max(*to));
        }
        level
    }

    /// Returns other ranges of the same numbers.
    pub fn copy(&self) -> Result<Ranges, AllocError>
        ensures { IfOk result (λ copy. copy.ends.entries ≡ self.now.ends.entries) }
    {
        Ok(Ranges {
            ends: self.ends.clone()?,
        })
    }
}
