//! The calls that own processes are in.
ghost use Rattle.std.specs.Prelude.{◌≡◌, None, map, IfErr, IfOk, OnOk, OnErr};
ghost use Rattle.std.specs.FinMap as finite;
ghost use Rattle.std.specs.Option.{option_map, unwrap_or};
ghost use Rattle.pmg_value.specs.Process.{proc_cmp};
ghost use Rattle.pmg_value.specs.Rows.{changed_at, rows_of};
ghost use Rattle.pmg_node_parts.specs.Calls.{all_waited, ask_of, standing_of, standing_by, all_asks, all_parked_on, all_waiting_in};
ghost use Rattle.pmg_node_parts.specs.Calls.{all_instead, anew_of, get_of};

use crate::call::{Call, Completion};
use crate::waiting::Waiting;
use pmg_frame::FenceName;
use pmg_value::{Key, Proc};
use std::alloc::{AllocError, Global};
use std::collections::BTreeMap;
use std::marker::Model;
use std::mem;

/// Returns the process whose key the call waits for, if it does, and the number of its request, if it asks anew.
fn ask_of(call: &Call) -> Option<(&Proc, Option<u64>)>
    ensures { option_map (λ a. (a.0.now, a.1)) result ≡ ask_of (standing_of call.now) }
{
    match call {
        Call::Parked(target, _) => Some((target, None)),
        Call::Refreshing(target, _, number) => Some((target, Some(*number))),
        Call::InFence(_) | Call::Released(..) => None,
        Call::Answered(..) | Call::Refreshed(..) => None,
    }
}

/// Puts the call of the process among the others. If an allocation fails, the call is given back, and nothing changes.
fn put_row(rows: &mut BTreeMap<Proc, Call>, proc: Proc, call: Call) -> Result<(), (Proc, Call)>
    ensures ok { OnOk result (rows_of {R = proc_cmp} standing_of rows.new.entries
        ≡ finite.insert (rows_of standing_of rows.old.entries) proc (standing_of call)) }
    ensures err { OnErr result (rows_of {R = proc_cmp} standing_of rows.new.entries ≡ rows_of standing_of rows.old.entries) }
    ensures back { IfErr result (λ row. row ≡ (proc, call)) }
{
    match rows.insert(proc, call) {
        Ok(_) => Ok(()),
        Err(failed) => Err(failed.value),
    }
}

/// Replaces the call of the process, if it is in one, and gives back the call that is left over.
fn change_row(rows: &mut BTreeMap<Proc, Call>, proc: &Proc, mut call: Call) -> Call
    ensures rows { rows_of {R = proc_cmp} standing_of rows.new.entries
        ≡ changed_at (rows_of standing_of rows.old.entries) proc.now (standing_of call) }
    ensures left { standing_of result ≡ unwrap_or (finite.get (rows_of {R = proc_cmp} standing_of rows.old.entries) proc.now) (standing_of call) }
{
    if let Some(kept) = rows.get_mut(proc) {
        mem::swap(kept, &mut call);
    }
    call
}

/// The calls that own processes are in, one each.
pub struct Calls {
    alloc: Global,
    rows: BTreeMap<Proc, Call>,
    waiting: Waiting,
}

impl Drop for Calls {
    fn drop(self) {
        let Self {
            alloc,
            rows,
            waiting,
        } = self;
    }
}

impl Model for Calls {
    ghost use Rattle.pmg_value.specs.Rows.{rows_of};
    ghost use Rattle.pmg_node_parts.specs.Codes as codes;
    ghost use Rattle.pmg_node_parts.specs.Calls.{standing_of};

    ghost Value = { codes.Calls };

    ghost coded = { codes.coded_calls };

    ghost view = { λ a. rows_of standing_of a.rows.entries };

    ghost use Rattle.pmg_node_parts.specs.Waiting.{IsWaitingIndex};

    ghost invariant = { λ a. IsWaitingIndex (rows_of standing_of a.rows.entries) a.waiting };
}

impl Calls {
    /// Makes an empty map: no process is in a call. It keeps the allocator.
    pub fn new(alloc: Global) -> Calls
        ensures { result ≡ finite.empty }
    {
        Calls {
            alloc,
            rows: BTreeMap::new(alloc),
            waiting: Waiting::new(alloc),
        }
    }

    /// Returns a copy with an equal call for each process. It keeps the allocator.
    pub fn copy(&self) -> Result<Calls, AllocError>
        ensures { IfOk result (λ copy. copy ≡ self.now) }
    {
        let mut copies = Calls::new(self.alloc);
        for (proc, call) in self.rows.iter() {
            copies.put(proc.copy()?, call.copy()?)?;
        }
        Ok(copies)
    }

    /// Returns the call of the process.
    pub fn get(&self, proc: &Proc) -> Option<&Call>
        ensures { option_map (λ c. standing_of c.now) result ≡ finite.get self.now proc.now }
    {
        self.rows.get(proc)
    }

    /// Puts the process, which is in no call, into the call.
    pub fn put(&mut self, proc: Proc, call: Call) -> Result<(), AllocError>
        requires { finite.get self.old proc ≡ None }
        ensures ok { OnOk result (self.new ≡ finite.insert self.old proc (standing_of call)) }
        ensures err { OnErr result (self.new ≡ self.old) }
    {
        self.waiting.add(&proc, &call)?;
        if let Err((proc, call)) = put_row(&mut self.rows, proc, call) {
            self.waiting.rollback(proc, call);
            return Err(AllocError);
        }
        Ok(())
    }

    /// Removes the call of the process, and returns it. It takes no memory.
    pub fn remove(&mut self, proc: &Proc) -> Option<Call>
        ensures call { option_map standing_of result ≡ finite.get self.old proc.now }
        ensures rest { self.new ≡ finite.remove self.old proc.now }
    {
        let call = self.rows.remove(proc);
        if let Some(call) = &call {
            self.waiting.remove(proc, call);
        }
        call
    }

    /// Returns the processes whose gets wait for a key of the target, with the keys, in the order of the processes.
    pub fn parked_on(&self, target: &Proc) -> Result<Vec<(Proc, Key)>, AllocError>
        ensures { IfOk result (λ asks. asks.items ≡ all_parked_on self.now target.now) }
    {
        self.waiting.gets.on(target)
    }

    /// Returns the target and the key of the process's get that asks anew, and the number of its request, if it is in such a get.
    pub fn refreshing(&self, proc: &Proc) -> Option<(&Proc, &Key, u64)>
        ensures { option_map (λ g. (get_of g.0.now g.1.now, g.2)) result ≡ anew_of (finite.get self.now proc.now) }
    {
        match self.get(proc) {
            Some(call) => call.refreshing(),
            None => None,
        }
    }

    /// Returns, for each get that waits, the process whose key it waits for, and the number of its request, if it asks anew. They are in
    /// the order of the waiting processes.
    pub fn asks(&self) -> Result<Vec<(Proc, Option<u64>)>, AllocError>
        ensures { IfOk result (λ asks. asks.items ≡ all_asks self.now) }
    {
        let mut asks = Vec::new(self.alloc);
        for (_, call) in self.rows.iter() {
            if let Some((target, number)) = ask_of(call) {
                asks.push((target.copy()?, number))?;
            }
        }
        Ok(asks)
    }

    /// Returns the processes that are in the fence and not released, in their order.
    pub fn waiting_in(&self, name: &FenceName) -> Result<Vec<Proc>, AllocError>
        ensures { IfOk result (λ procs. procs.items ≡ all_waiting_in self.now name.now) }
    {
        self.waiting.fences.list(name)
    }

    /// Returns the fences in which unreleased processes are, in the order of their names.
    pub fn waited_fences(&self) -> Result<Vec<&FenceName>, AllocError>
        ensures { IfOk result (λ names. map (λ f. f.now) names.items ≡ all_waited self.now) }
    {
        self.waiting.fences.names()
    }

    /// Replaces the call of the process by its completion, if it is in a call, and gives back the call that is left over.
    fn settle(&mut self, proc: &Proc, settled: Completion) -> Call
        ensures { self.new ≡ changed_at self.old proc.now (standing_by settled) }
    {
        let left = change_row(&mut self.rows, proc, settled.into_call());
        self.waiting.remove(proc, &left);
        left
    }

    /// Does what `settle` does, and drops the call that is left over.
    fn replace(&mut self, proc: &Proc, settled: Completion)
        ensures { self.new ≡ changed_at self.old proc.now (standing_by settled) }
    {
        let _ = self.settle(proc, settled);
    }

    /// Answers calls: each completion replaces the call of its process. It takes no memory. Most acts answer no call, and the early return
    /// then makes no room for one.
    pub fn answer(&mut self, answers: Vec<(Proc, Completion)>)
        ensures { self.new ≡ all_instead self.old answers.items }
    {
        if !answers.is_empty() {
            self.replace_all(answers);
        }
    }

    /// Replaces the call of each of these processes by its completion.
    #[inline(never)]
    fn replace_all(&mut self, answers: Vec<(Proc, Completion)>)
        ensures { self.new ≡ all_instead self.old answers.items }
    {
        let mut answers = answers;
        while let Some((proc, settled)) = answers.pop() {
            self.replace(&proc, settled);
        }
    }
}
