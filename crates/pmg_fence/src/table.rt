ghost use Rattle.std.specs.Prelude.{◌≡◌, ◌≤◌, ◌<◌, ◌^◌, suc, nat_lt, ◌==◌, ◌++◌, [], Some, None, IsTrue, IfOk, OnOk, OnErr, is_some};
ghost use Rattle.std.specs.FinMap as finite;
ghost use Rattle.std.specs.Fn.{FnReturnsAt};
ghost use Rattle.std.specs.Prelude.{ℕ};
ghost use Rattle.pmg_value.specs.declared.process.Proc.{Proc};
ghost use Rattle.std.specs.Option.{option_map, option_to_list};
ghost use Rattle.pmg_value.specs.Answers.{Gives};
ghost use Rattle.pmg_frame.specs.Fences.{header, is_instance};
ghost use Rattle.pmg_jobinfo.specs.Jobs.{home_of};
ghost use Rattle.pmg_fence.specs.Entering.{told_locals, collected_locals};
ghost use Rattle.pmg_fence.specs.Tables.{no_fences, series_at, count_of, is_old, entry_in, says_gone, gone_by, is_ready};
ghost use Rattle.pmg_fence.specs.Changes.{learned, next_name, entered_by, with_header, with_fences, forgotten, fence_changed_at, changed, ended_by, enter_answer, taken};
ghost use Rattle.pmg_fence.specs.Kept.{entry_with, known_fence, own_of, standing_in};
ghost use Rattle.pmg_commit.specs.declared.piece.TheConstants.{MAX_COMMIT};

mod changes;
mod looks;
mod news;

use crate::all_series::AllSeries;
use crate::change::Change;
use crate::entry::Entry;
use crate::fence::Fence;
use crate::numbers::{NumberUndo, Numbers};
use crate::owns::Owns;
use crate::series::SeriesUndo;
use pmg_frame::{FenceName, Header, Local, MAX_INSTANCE, Signature, State};
use pmg_jobinfo::Registry;
use pmg_value::{NodeId, Proc, Refusal, copy_queue};
use std::alloc::AllocError;
use std::collections::VecDeque;
use std::marker::Model;
use std::mem;

/// The fence table of one node (PMIx Standard 5.0, PMIx_Fence): the entries of its own processes with their levels, the ends of its own
/// processes, and the headers of other nodes. A signature identifies fences by their participants and by whether data is collected; the
/// k-th entry of each participant meets the k-th entries of the others. The table keeps two instances of each signature: the greatest one
/// that was learned or entered, and the one before. Instances below these are old and forgotten, but the number of entries of each process
/// stays.
pub struct Table {
    node: NodeId,
    registry: Registry,
    series: AllSeries,
    ends: Numbers,
    waiting: VecDeque<Header>,
    owns: Owns,
}

impl Drop for Table {
    fn drop(self) {
        let Self {
            node,
            registry,
            series,
            ends,
            waiting,
            owns,
        } = self;
    }
}

impl Model for Table {
    ghost use Rattle.pmg_fence.specs.Codes as codes;

    ghost Value = { codes.Known };

    ghost coded = { codes.coded_known };

    ghost use Rattle.pmg_fence.specs.Kept.{known_of, IsKept};

    ghost view = { λ a. known_of a.registry a.node a.series a.ends a.waiting.items };

    ghost invariant = { λ a. IsKept (known_of a.registry a.node a.series a.ends a.waiting.items) a.owns };
}

/// Returns the index of the process's home: 0 for a process that is not registered.
fn home_of(registry: &Registry, proc: &Proc) -> u32
    ensures { result ≡ home_of registry.now proc.now }
{
    match registry.homes(&proc.nspace) {
        Some(homes) => match homes.get(proc.rank.number() as usize) {
            Some(home) => home.index(),
            None => 0,
        },
        None => 0,
    }
}

/// Returns the level at which the process entered the fence, if it did.
fn level_in(fence: Option<&Fence>, proc: &Proc) -> Option<u64>
    ensures { result ≡ finite.get (known_fence (option_map (λ f. f.now) fence.entry)).levels proc.now }
{
    match fence {
        Some(fence) => fence.level(proc),
        None => None,
    }
}

/// Returns the number of processes that entered the fence.
fn count_in(fence: Option<&Fence>) -> usize
    ensures value { result ≡ finite.len (known_fence (option_map (λ f. f.now) fence.entry)).levels }
    ensures small { result < 2 ^ 63 }
{
    match fence {
        Some(fence) => fence.count(),
        None => 0,
    }
}

/// Returns the entry of the process in the header of the node of that index.
fn told_in(fence: Option<&Fence>, home: u32, proc: &Proc) -> Option<Entry>
    ensures { result ≡ entry_in proc.now (finite.get (known_fence (option_map (λ f. f.now) fence.entry)).headers home) }
{
    match fence {
        Some(fence) => fence.told_entry(home, proc),
        None => None,
    }
}

/// The earlier state of a table, by which a change can be taken back: the number of headers that waited, and the earlier knowledge of the
/// fence or of the process.
#[derive(Drop)]
pub struct TableUndo<'a> {
    waiting: usize,
    change: ChangeBefore<'a>,
}

/// The earlier knowledge of a fence, if its signature had a series, or of a process's end.
enum ChangeBefore<'a> {
    Fence(&'a FenceName, Option<SeriesUndo>),
    End(NumberUndo),
}

impl<'a> Drop for ChangeBefore<'a> {
    fn drop(self) {
        match self {
            ChangeBefore::Fence(_, _) => {}
            ChangeBefore::End(_) => {}
        }
    }
}

impl Table {
    /// Makes a table of no fences, for the node of that index, with its group's registry. It keeps the registry's allocator.
    pub fn new(node: NodeId, registry: Registry) -> Table
        ensures jobs { result.jobs ≡ registry }
        ensures node { result.node ≡ node }
        ensures fences { result.fences ≡ no_fences }
        ensures waiting { result.waiting ≡ [] }
    {
        let alloc = registry.allocator();
        Table {
            node,
            registry,
            series: AllSeries::new(alloc),
            ends: Numbers::new(alloc),
            waiting: VecDeque::new(alloc),
            owns: Owns::new(alloc),
        }
    }

    /// Returns the registry of the group.
    pub fn registry(&self) -> &Registry
        ensures { result.now ≡ self.now.jobs }
    {
        &self.registry
    }

    /// Returns another table with equal content and with this allocator.
    pub fn copy(&self) -> Result<Table, AllocError>
        ensures { IfOk result (λ copy. copy ≡ self.now) }
    {
        Ok(Table {
            node: self.node,
            registry: self.registry.copy()?,
            series: self.series.copy()?,
            ends: self.ends.copy()?,
            waiting: copy_queue(&self.waiting)?,
            owns: self.owns.copy()?,
        })
    }

    /// Returns whether the process is at home at the node.
    fn is_own(&self, proc: &Proc) -> bool
        ensures { result ≡ (home_of self.now.jobs proc.now == self.now.node) }
    {
        home_of(&self.registry, proc) == self.node.index()
    }

    /// Returns how often the process entered fences of the signature.
    pub fn count(&self, signature: &Signature, proc: &Proc) -> u64
        ensures value { result ≡ count_of self.now.fences signature.now proc.now }
    {
        match self.series.get(signature) {
            Some(series) => series.count(proc),
            None => 0,
        }
    }

    /// Returns an equal signature whose copies share one list: the list of the kept signature, if the table keeps it.
    pub fn share(&self, signature: Signature) -> Result<Signature, AllocError>
        ensures { IfOk result (λ s. s ≡ signature) }
    {
        match self.owns.kept(&signature) {
            Some(kept) => kept.copy(),
            None => signature.shared(self.series.allocator()),
        }
    }

    /// Returns the knowledge of the fence.
    fn fence(&self, signature: &Signature, instance: u64) -> Option<&Fence>
        ensures value { option_map (λ f. f.now) result ≡ finite.get (series_at self.now.fences signature.now).fences instance }
        ensures number { IsTrue (is_some result) → IsTrue (is_instance instance) }
    {
        match self.series.get(signature) {
            Some(series) => series.fence(instance),
            None => None,
        }
    }

    /// Returns whether the instance of the signature is old.
    fn is_old_at(&self, signature: &Signature, instance: u64) -> bool
        ensures { result ≡ nat_lt (suc instance) (series_at self.now.fences signature.now).top }
    {
        match self.series.get(signature) {
            Some(series) => series.is_old(instance),
            None => false,
        }
    }

    /// Returns whether the fence is old. An old fence is forgotten: its instance is below the greatest one of its signature and the one
    /// before.
    pub fn is_old(&self, name: &FenceName) -> bool
        ensures { result ≡ is_old self.now.fences name.now }
    {
        self.is_old_at(name.signature(), name.instance())
    }

    /// Forgets the signature's fences, except the greatest instance and the one before. It takes no memory.
    pub fn forget(&mut self, signature: &Signature)
        ensures { self.new ≡ with_fences self.old (forgotten self.old.fences signature.now) }
    {
        self.series.forget(signature);
    }

    /// Returns the entry of the own process in the fence.
    fn entry(&self, fence: Option<&Fence>, proc: &Proc) -> Option<Entry>
        ensures { result ≡ entry_with (known_fence (option_map (λ f. f.now) fence.entry)) self.now.fences.ends proc.now }
    {
        let level = level_in(fence, proc);
        if let Some(level) = level {
            return Some(Entry {
                state: State::Entered,
                level,
            });
        }
        match self.ends.get(proc) {
            Some(level) => Some(Entry {
                state: State::Gone,
                level,
            }),
            None => None,
        }
    }

    /// Enters the process into its next fence of the signature, after so many commits, and returns the number of the entry, which is the
    /// instance. If the entry completes the node's header, this header waits to be taken. An entry into an old fence is only counted.
    /// Errors: `TooMany` past 4294967295 entries; `NoMemory`.
    pub fn enter(&mut self, signature: &Signature, proc: &Proc, level: u64) -> Result<u64, Refusal>
        requires { level ≤ MAX_COMMIT }
        ensures answer { Gives (λ n. n) result (enter_answer self.old.fences signature.now proc.now) }
        ensures ok { OnOk result (self.new ≡ fence_changed_at self.old (next_name self.old.fences signature.now proc.now)
            (entered_by self.old.fences signature.now proc.now level)) }
        ensures err { OnErr result (self.new ≡ self.old) }
    {
        let count = self.count(signature, proc);
        if count >= MAX_INSTANCE {
            return Err(Refusal::TooMany);
        }
        let line = Local {
            proc: proc.copy()?,
            state: State::Entered,
            level,
        };
        let entered = Change::Entered(proc.copy()?, level);
        self.change(signature, count + 1, Some(&line), entered)?;
        self.forget(signature);
        Ok(count + 1)
    }

    /// Keeps the fence's name. If each own participant has already ended, the node's header waits to be taken. For an old fence nothing is
    /// kept.
    pub fn learn(&mut self, name: &FenceName) -> Result<(), AllocError>
        ensures ok { OnOk result (self.new ≡ fence_changed_at self.old name.now (learned self.old.fences name.now)) }
        ensures err { OnErr result (self.new ≡ self.old) }
    {
        if self.is_old(name) {
            return Ok(());
        }
        self.change(name.signature(), name.instance(), None, Change::Learned)?;
        self.forget(name.signature());
        Ok(())
    }

    /// Keeps the header and the fence's name. The first header of a node counts: a later one changes nothing. For an old fence nothing is
    /// kept.
    pub fn put_header(&mut self, header: Header) -> Result<(), AllocError>
        ensures ok { OnOk result (self.new ≡ fence_changed_at self.old header.name (with_header self.old.fences header)) }
        ensures err { OnErr result (self.new ≡ self.old) }
    {
        if self.is_old(header.name()) {
            return Ok(());
        }
        let name = header.name().copy()?;
        self.change(
            name.signature(),
            name.instance(),
            None,
            Change::Told(header),
        )?;
        self.forget(name.signature());
        Ok(())
    }

    /// Takes the next own header, in the order in which they began to exist. Headers that one call brought are in the order of their names.
    pub fn take_header(&mut self) -> Option<Header>
        ensures header { self.old.waiting ≡ option_to_list result ++ self.new.waiting }
        ensures empty { result ≡ None → self.old.waiting ≡ [] }
        ensures rest { self.new ≡ taken self.old self.new.waiting }
    {
        self.waiting.pop_front()
    }

    /// Takes all own headers that wait, in the order in which they began to exist. It takes no memory.
    pub fn take_headers(&mut self) -> VecDeque<Header>
        ensures headers { result.items ≡ self.old.waiting }
        ensures rest { self.new ≡ taken self.old [] }
    {
        mem::replace(&mut self.waiting, VecDeque::new(self.series.allocator()))
    }

    /// Returns whether each own participant has an entry.
    fn is_whole(&self, signature: &Signature, fence: Option<&Fence>) -> bool
        ensures { result ≡ is_some (collected_locals (entry_with (known_fence (option_map (λ f. f.now) fence.entry)) self.now.fences.ends)
            (own_of self.now signature.now)) }
    {
        for proc in signature.participants() {
            if !self.is_own(proc) {
                continue;
            }
            let Some(_) = self.entry(fence, proc) else {
                return false;
            };
        }
        true
    }

    /// Returns the entry of the participant in the header of its home, if this header exists. `whole` says whether the own header exists.
    fn standing_in(&self, fence: Option<&Fence>, whole: bool, proc: &Proc) -> Option<Entry>
        ensures { result ≡ standing_in self.now (known_fence (option_map (λ f. f.now) fence.entry)) whole proc.now }
    {
        let home = home_of(&self.registry, proc);
        if home != self.node.index() {
            return told_in(fence, home, proc);
        }
        if !whole {
            return None;
        }
        self.entry(fence, proc)
    }

    /// Returns whether the header of its home calls the participant gone.
    fn is_told_gone(&self, fence: Option<&Fence>, whole: bool, proc: &Proc) -> bool
        ensures { result ≡ says_gone (standing_in self.now (known_fence (option_map (λ f. f.now) fence.entry)) whole proc.now) }
    {
        match self.standing_in(fence, whole, proc) {
            Some(entry) => entry.is_gone(),
            None => false,
        }
    }

    /// Returns the participants that the headers call gone, rising and each once: they ended before they entered.
    pub fn release(&self, name: &FenceName) -> Result<Vec<Proc>, AllocError>
        ensures { IfOk result (λ ps. ps.items ≡ gone_by self.now.jobs self.now.node self.now.fences name.now) }
    {
        let fence = self.fence(name.signature(), name.instance());
        let whole = self.is_whole(name.signature(), fence);
        let mut gone = Vec::new(self.series.allocator());
        for proc in name.signature().participants() {
            if !self.is_told_gone(fence, whole, proc) {
                continue;
            }
            gone.push(proc.copy()?)?;
        }
        Ok(gone)
    }

    /// Returns whether the fence is ready, given the level up to which the node knows each process's commits. A ready fence is not old, and
    /// each participant has an entry in the header of its home. If the fence collects data, the level of this entry is known.
    pub fn ready<L: Fn(&Proc) -> u64>(&self, name: &FenceName, levels: L) -> bool
        requires { L.IsAlwaysCallable levels }
        ensures { (level : Proc → ℕ) → ((p : Proc) (n : ℕ) → FnReturnsAt L.Fn levels p n → n ≡ level p)
            → result ≡ is_ready self.now.jobs self.now.node self.now.fences name.now level }
    {
        if self.is_old(name) {
            return false;
        }
        // Ranks mostly come in rising order, so the last participant is asked first.
        let fence = self.fence(name.signature(), name.instance());
        let procs = name.signature().participants();
        let mut left = procs.len();
        while left > 0 {
            left -= 1;
            let proc = &procs[left];
            let Some(entry) = self.standing_in(fence, true, proc) else {
                return false;
            };
            if !name.signature().collect() {
                continue;
            }
            if levels(proc) < entry.level {
                return false;
            }
        }
        true
    }

    /// Ends the process, after so many commits, including its end. The process counts as gone in each fence that it has not entered, also
    /// in fences that are learned later. The node's headers that the end completes wait to be taken.
    pub fn gone(&mut self, proc: &Proc, level: u64) -> Result<(), AllocError>
        requires { level ≤ MAX_COMMIT }
        ensures ok { OnOk result (self.new ≡ changed self.old (ended_by self.old.fences proc.now level)) }
        ensures err { OnErr result (self.new ≡ self.old) }
    {
        self.end(proc, level)?;
        Ok(())
    }
}
