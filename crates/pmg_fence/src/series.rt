ghost use Rattle.pmg_fence.specs.declared.fence.FenceUndo.TheVariants as fence_befores;
ghost use Rattle.std.specs.Prelude.{◌≡◌, Some, suc, not, nat_lt, IfOk, OnOk, OnErr};
ghost use Rattle.std.specs.FinMap as finite;
ghost use Rattle.std.specs.Option.{option_map, unwrap_or};
ghost use Rattle.pmg_value.specs.Rows.{map_of};
ghost use Rattle.pmg_fence.specs.Tables.{no_series};
ghost use Rattle.pmg_fence.specs.Changes.{greater_of, series_kept};
ghost use Rattle.pmg_fence.specs.Kept.{counts_changed, fence_in, fence_changed, series_placed, series_counted, series_changed};
ghost use Rattle.pmg_fence.specs.TakenBack.{instances_back, series_back};
ghost use Rattle.pmg_fence.specs.declared.change.Change.TheVariants as changes;

use crate::change::Change;
use crate::fence::{Fence, FenceUndo};
use crate::numbers::{NumberUndo, Numbers};
use pmg_value::{Copied, Proc, copy_rows};
use std::alloc::{AllocError, Global};
use std::collections::BTreeMap;
use std::marker::Model;

/// Fences of one signature, by their instance.
#[derive(Drop)]
pub struct Instances {
    alloc: Global,
    rows: BTreeMap<u64, Fence>,
}

impl Model for Instances {
    ghost use Rattle.pmg_value.specs.Rows.{map_of};
    ghost use Rattle.pmg_fence.specs.Codes.{Instances, coded_instances};

    ghost Value = { Instances };

    ghost coded = { coded_instances };

    ghost view = { λ a. map_of a.rows.entries };
}

impl Instances {
    /// Makes an empty map. It keeps the allocator.
    pub fn new(alloc: Global) -> Instances
        ensures { result ≡ finite.empty }
    {
        Instances {
            alloc,
            rows: BTreeMap::new(alloc),
        }
    }

    /// Returns the knowledge of the instance.
    pub fn get(&self, instance: u64) -> Option<&Fence>
        ensures { option_map (λ f. f.now) result ≡ finite.get self.now instance }
    {
        self.rows.get(&instance)
    }

    /// Returns the fences, in the order of their instances.
    pub fn rows(&self) -> &BTreeMap<u64, Fence>
        ensures { map_of result.now.entries ≡ self.now }
    {
        &self.rows
    }

    /// Returns an equal copy, with this allocator.
    pub fn copy(&self) -> Result<Instances, AllocError>
        ensures { IfOk result (λ copy. copy ≡ self.now) }
    {
        Ok(Instances {
            alloc: self.alloc,
            rows: copy_rows(self.alloc, &self.rows)?,
        })
    }

    /// Applies the change to the instance, and returns the earlier knowledge, if any.
    pub fn change(&mut self, instance: u64, change: Change) -> Result<Option<FenceUndo>, AllocError>
        ensures before { IfOk result (λ b. instances_back self.new instance b ≡ self.old) }
        ensures ok { OnOk result (self.new ≡ finite.insert self.old instance (fence_changed (fence_in self.old instance) change)) }
        ensures err { OnErr result (self.new ≡ self.old) }
    {
        if let Some(fence) = self.rows.get_mut(&instance) {
            let before = fence.change(change)?;
            return Ok(Some(before));
        }
        let mut fence = Fence::new(self.alloc);
        fence.change(change)?;
        self.rows.insert(instance, fence)?;
        Ok(None)
    }

    /// Forgets the instances below the greatest one, which is `top`, and the one before. It takes no memory.
    pub fn forget(&mut self, top: u64)
        ensures { self.new ≡ finite.retain_keys self.old (λ k. not (nat_lt (suc k) top)) }
    {
        self.rows.retain(|instance, _| !is_below(*instance, top));
    }

    /// Takes the instance out.
    fn remove(&mut self, instance: u64)
        ensures { self.new ≡ finite.remove self.old instance }
    {
        let _ = self.rows.remove(&instance);
    }

    /// Takes a change back. It takes no memory.
    pub fn rollback(&mut self, instance: u64, before: &Option<FenceUndo>)
        ensures { self.new ≡ instances_back self.old instance before.now }
    {
        match before {
            None => self.remove(instance),
            Some(before) => {
                if let Some(fence) = self.rows.get_mut(&instance) {
                    fence.rollback(before);
                }
            }
        }
    }
}

/// Returns whether the instance is below the greatest one and the one before.
pub fn is_below(instance: u64, top: u64) -> bool
    ensures { result ≡ nat_lt (suc instance) top }
{
    instance < top && instance + 1 < top
}

/// Returns the greater of two instances.
fn greater_of(one: u64, other: u64) -> u64
    ensures { result ≡ greater_of one other }
{
    if one < other { other } else { one }
}

/// The fences of one signature: the number of entries of each own process, the knowledge of each kept instance, and the greatest instance
/// that was learned or entered, 0 without one.
#[derive(Drop)]
pub struct Series {
    counts: Numbers,
    fences: Instances,
    top: u64,
}

impl Model for Series {
    ghost use Rattle.pmg_fence.specs.Tables as tables;

    ghost Value = { tables.Series };

    ghost use Rattle.pmg_fence.specs.Codes.{coded_series};

    ghost coded = { coded_series };

    ghost view = { λ a. record { counts = a.counts; fences = a.fences; top = a.top } };
}

/// The earlier state of one signature's fences, by which a change can be taken back: the earlier count of the process that entered, the
/// earlier knowledge of the instance, if any, and the earlier greatest instance.
pub struct SeriesUndo {
    count: Option<NumberUndo>,
    fence: Option<FenceUndo>,
    top: u64,
}

impl Drop for SeriesUndo {
    fn drop(self) {
        let Self { count, fence, top } = self;
    }
}

/// Returns the earlier state for a change that affected only the counts.
fn nothing_before(count: Option<NumberUndo>, top: u64) -> SeriesUndo
    ensures { result ≡ record { count = count; fence = Some fence_befores.Learned; top = top } }
{
    SeriesUndo {
        count,
        fence: Some(FenceUndo::Learned),
        top,
    }
}

impl Series {
    /// Makes a series without fences and entries.
    pub fn new(alloc: Global) -> Series
        ensures { result ≡ no_series }
    {
        Series {
            counts: Numbers::new(alloc),
            fences: Instances::new(alloc),
            top: 0,
        }
    }

    /// Returns how often the process entered fences of the signature.
    pub fn count(&self, proc: &Proc) -> u64
        ensures { result ≡ unwrap_or (finite.get self.now.counts proc.now) 0 }
    {
        self.counts.get(proc).unwrap_or(0)
    }

    /// Returns the knowledge of the instance.
    pub fn fence(&self, instance: u64) -> Option<&Fence>
        ensures { option_map (λ f. f.now) result ≡ finite.get self.now.fences instance }
    {
        self.fences.get(instance)
    }

    /// Returns the fences, in the order of their instances.
    pub fn rows(&self) -> &BTreeMap<u64, Fence>
        ensures { map_of result.now.entries ≡ self.now.fences }
    {
        self.fences.rows()
    }

    /// Returns whether the instance is below the greatest one and the one before.
    pub fn is_old(&self, instance: u64) -> bool
        ensures { result ≡ nat_lt (suc instance) self.now.top }
    {
        is_below(instance, self.top)
    }

    /// Forgets all instances except the greatest one and the one before. It takes no memory.
    pub fn forget(&mut self)
        ensures { self.new ≡ series_kept self.old }
    {
        self.fences.forget(self.top);
    }

    /// Applies the change to the instance, and returns the earlier state. An entry is the process's entry of that number. A change of an
    /// old instance only counts an entry, and keeps nothing else.
    #[tactic(auto, unfolding(crate::specs::Kept::series_changed))]
    pub fn change(&mut self, instance: u64, change: Change) -> Result<SeriesUndo, AllocError>
        ensures before { IfOk result (λ b. series_back self.new instance b ≡ self.old) }
        ensures ok { OnOk result (self.new ≡ series_changed self.old instance change) }
        ensures err { OnErr result (self.new ≡ self.old) }
    {
        if self.is_old(instance) {
            return self.count_old(instance, change);
        }
        match change {
            Change::Entered(proc, level) => self.enter(instance, proc, level),
            Change::Learned => self.place(instance, Change::Learned),
            Change::Told(header) => self.place(instance, Change::Told(header)),
        }
    }

    /// Counts the entry into an old instance, if the change is one, and returns the earlier state.
    fn count_old(&mut self, instance: u64, change: Change) -> Result<SeriesUndo, AllocError>
        ensures before { IfOk result (λ b. series_back self.new instance b ≡ self.old) }
        ensures ok { OnOk result (self.new ≡ series_counted self.old (counts_changed self.old.counts instance change)) }
        ensures err { OnErr result (self.new ≡ self.old) }
    {
        match change {
            Change::Entered(proc, _) => {
                let before = self.counts.put(proc, instance)?;
                Ok(nothing_before(Some(before), self.top))
            }
            Change::Learned => Ok(nothing_before(None, self.top)),
            Change::Told(_) => Ok(nothing_before(None, self.top)),
        }
    }

    /// Applies a change that is not an entry to the instance, and returns the earlier state.
    fn place(&mut self, instance: u64, change: Change) -> Result<SeriesUndo, AllocError>
        ensures before { IfOk result (λ b. series_back self.new instance b ≡ self.old) }
        ensures ok { OnOk result (self.new ≡ series_placed self.old instance change self.old.counts) }
        ensures err { OnErr result (self.new ≡ self.old) }
    {
        let fence = self.fences.change(instance, change)?;
        let top = self.top;
        self.top = greater_of(top, instance);
        Ok(SeriesUndo {
            count: None,
            fence,
            top,
        })
    }

    /// Enters the process into the instance, which is its entry of that number, and returns the earlier state.
    fn enter(&mut self, instance: u64, proc: Proc, level: u64) -> Result<SeriesUndo, AllocError>
        ensures before { IfOk result (λ b. series_back self.new instance b ≡ self.old) }
        ensures ok { OnOk result (self.new ≡ series_placed self.old instance (changes.Entered proc level) (finite.insert self.old.counts proc instance)) }
        ensures err { OnErr result (self.new ≡ self.old) }
    {
        let counted = proc.copy()?;
        let before = self.counts.put(counted, instance)?;
        match self.fences.change(instance, Change::Entered(proc, level)) {
            Err(AllocError) => {
                self.counts.rollback(&before);
                Err(AllocError)
            }
            Ok(fence) => {
                let top = self.top;
                self.top = greater_of(top, instance);
                Ok(SeriesUndo {
                    count: Some(before),
                    fence,
                    top,
                })
            }
        }
    }

    /// Takes a change back. It takes no memory.
    pub fn rollback(&mut self, instance: u64, before: &SeriesUndo)
        ensures { self.new ≡ series_back self.old instance before.now }
    {
        if let Some(count) = &before.count {
            self.counts.rollback(count);
        }
        self.fences.rollback(instance, &before.fence);
        self.top = before.top;
    }
}

impl Copied for Series {
    fn copy(&self) -> Result<Series, AllocError> {
        Ok(Series {
            counts: self.counts.copy()?,
            fences: self.fences.copy()?,
            top: self.top,
        })
    }
}
