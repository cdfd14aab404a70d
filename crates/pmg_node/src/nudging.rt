//! Repeated requests to other nodes for missing headers and commits.
ghost use Rattle.std.specs.Prelude.{◌≡◌, ◌&&◌, ◌++◌, ◌==◌, not, IfOk, OnOk, OnErr};
ghost use Rattle.std.specs.List.{flat_map};
ghost use Rattle.pmg_commit.specs.Data.{level_at};
ghost use Rattle.pmg_fence.specs.Tables.{told_of};
ghost use Rattle.pmg_frame.specs.Fences.{commit_ask};
ghost use Rattle.pmg_frame.specs.declared.frame.Frame.TheVariants as frames;
ghost use Rattle.pmg_jobinfo.specs.Jobs.{home_of};
ghost use Rattle.pmg_node_model.specs.Acts.{Act, Request, Reply};
ghost use Rattle.pmg_node_parts.specs.Calls.{all_asks};
ghost use Rattle.pmg_node_model.specs.Choosing.{asking_home, asking_anew, asking_headers, asking_ranges, asking_fence, asking_sets, is_behind, nudging, waited_in};
ghost use Rattle.pmg_node_model.specs.Sending.{ask_anew, sent};
ghost use Rattle.pmg_node.specs.Asking.{asking_as};
ghost use Rattle.pmg_node.specs.Servers.{reply_to, sent_by, after};
ghost use Rattle.pmg_node_model.specs.declared.due.ToSend.TheVariants as sendings;

use crate::server::Server;
use pmg_frame::{CommitAsk, FenceAsk, FenceName, Frame, RefreshAsk};
use pmg_node_model::{Sent, ToSend};
use pmg_node_parts::{hand_out, peers_in};
use pmg_value::{NodeId, Proc};
use std::alloc::AllocError;
use std::collections::VecDeque;

impl Server {
    /// Returns this node's request for the commits of the process above the known level.
    fn commit_ask(&self, proc: &Proc) -> Result<CommitAsk, AllocError>
        ensures { IfOk result (λ ask. ask ≡ commit_ask self.now.id proc.now (level_at self.now.holding.far proc.now)) }
    {
        let level = self.board.far().level(proc);
        match CommitAsk::new(self.id, proc.copy()?, level) {
            Ok(ask) => Ok(ask),
            Err(_) => Err(AllocError),
        }
    }

    /// Returns the due request to the node for the commits of the process above the known level.
    fn range_due(&self, to: NodeId, proc: &Proc) -> Result<ToSend, AllocError>
        ensures { IfOk result (λ due. due ≡ sendings.Whole (sent to (frames.RangeAsk
            (commit_ask self.now.id proc.now (level_at self.now.holding.far proc.now))))) }
    {
        Ok(ToSend::Whole(Sent {
            to,
            frame: Frame::RangeAsk(self.commit_ask(proc)?),
        }))
    }

    /// Makes a request due to the home of the process, if this is another node, for its commits above the known level. The home answers as
    /// soon as there are some.
    pub(crate) fn ask_home(&self, target: &Proc, dues: &mut Vec<ToSend>) -> Result<(), AllocError>
        ensures { OnOk result (dues.new.items ≡ dues.old.items ++ asking_home self.now.jobs self.now.id self.now.holding target.now) }
    {
        let home = self.table.registry().home_of(target);
        if home == self.id {
            return Ok(());
        }
        dues.push(ToSend::Whole(Sent {
            to: home,
            frame: Frame::DirectAsk(self.commit_ask(target)?),
        }))?;
        Ok(())
    }

    /// Returns this node's request, under the number, for the commits of the process above the known level.
    fn refresh_ask(&self, proc: &Proc, number: u64) -> Result<RefreshAsk, AllocError>
        ensures { IfOk result (λ ask. ask ≡ ask_anew self.now.id self.now.holding proc.now number) }
    {
        match RefreshAsk::new(number, self.commit_ask(proc)?) {
            Ok(ask) => Ok(ask),
            Err(_) => Err(AllocError),
        }
    }

    /// Makes a request anew due to the home of the process, if this is another node, for its commits above the known level.
    pub(crate) fn ask_home_anew(
        &self,
        target: &Proc,
        number: u64,
        dues: &mut Vec<ToSend>,
    ) -> Result<(), AllocError>
        ensures { OnOk result (dues.new.items ≡ dues.old.items ++ asking_anew self.now.jobs self.now.id self.now.holding target.now number) }
    {
        let home = self.table.registry().home_of(target);
        if home == self.id {
            return Ok(());
        }
        dues.push(ToSend::Whole(Sent {
            to: home,
            frame: Frame::RefreshAsk(self.refresh_ask(target, number)?),
        }))?;
        Ok(())
    }

    /// Makes the request due for a get that waits for a key of the process, and makes it anew if the get's request has a number.
    fn ask_as(
        &self,
        target: &Proc,
        number: Option<u64>,
        dues: &mut Vec<ToSend>,
    ) -> Result<(), AllocError>
        ensures { OnOk result (dues.new.items ≡ dues.old.items ++ asking_as self.now.jobs self.now.id self.now.holding (target.now, number)) }
    {
        match number {
            None => self.ask_home(target, dues),
            Some(number) => self.ask_home_anew(target, number, dues),
        }
    }

    /// Makes requests due for the missing headers of the fence, to their nodes.
    fn ask_headers(&self, name: &FenceName, dues: &mut Vec<ToSend>) -> Result<(), AllocError>
        ensures { OnOk result (dues.new.items ≡ dues.old.items ++ asking_headers self.now.jobs self.now.id self.now.holding name.now) }
    {
        for node in peers_in(self.table.registry(), self.id, name)? {
            if self.table.has_header(name, node) {
                continue;
            }
            dues.push(ToSend::Whole(Sent {
                to: node,
                frame: Frame::FenceAsk(FenceAsk::new(self.id, name.copy()?)),
            }))?;
        }
        Ok(())
    }

    /// Returns whether the process, of another node, has commits that a header of the fence names and that this node does not know.
    fn is_behind(&self, name: &FenceName, proc: &Proc) -> bool
        ensures { result ≡ (not (home_of self.now.jobs proc.now == self.now.id) && is_behind (level_at self.now.holding.far proc.now)
            (told_of self.now.jobs self.now.id self.now.holding.table name.now proc.now)) }
    {
        if self.table.registry().is_home(self.id, proc) {
            return false;
        }
        match self.table.told_of(name, proc) {
            Some(entry) => self.board.far().level(proc) < entry.level,
            None => false,
        }
    }

    /// Makes requests due for the missing commits that a header of the fence names, to the home of each participant of another node.
    fn ask_ranges(&self, name: &FenceName, dues: &mut Vec<ToSend>) -> Result<(), AllocError>
        ensures { OnOk result (dues.new.items ≡ dues.old.items ++ asking_ranges self.now.jobs self.now.id self.now.holding name.now) }
    {
        for proc in name.signature().participants() {
            if !self.is_behind(name, proc) {
                continue;
            }
            let home = self.table.registry().home_of(proc);
            dues.push(self.range_due(home, proc)?)?;
        }
        Ok(())
    }

    /// Makes requests due for the missing headers of the fence, and, if it collects data, for the missing commits.
    fn ask_fence(&self, name: &FenceName, dues: &mut Vec<ToSend>) -> Result<(), AllocError>
        ensures { OnOk result (dues.new.items ≡ dues.old.items ++ asking_fence self.now.jobs self.now.id self.now.holding name.now) }
    {
        self.ask_headers(name, dues)?;
        if name.signature().collect() {
            return self.ask_ranges(name, dues);
        }
        Ok(())
    }

    /// Makes the requests of `ask_fence` due for each fence in which an own process waits.
    fn ask_fences(&self, dues: &mut Vec<ToSend>) -> Result<(), AllocError>
        ensures { OnOk result (dues.new.items ≡ dues.old.items
            ++ flat_map (asking_fence self.now.jobs self.now.id self.now.holding) (waited_in self.now.holding)) }
    {
        for name in self.calls.waited_fences()? {
            self.ask_fence(name, dues)?;
        }
        Ok(())
    }

    /// Makes a request due for each get that waits, to the home of the process whose key it waits for.
    fn ask_homes(&self, dues: &mut Vec<ToSend>) -> Result<(), AllocError>
        ensures { OnOk result (dues.new.items ≡ dues.old.items
            ++ flat_map (asking_as self.now.jobs self.now.id self.now.holding) (all_asks self.now.holding.calls)) }
    {
        for (target, number) in self.calls.asks()? {
            self.ask_as(&target, number, dues)?;
        }
        Ok(())
    }

    /// Makes a request to node 0 due for changes of the process sets.
    fn ask_sets(&self, dues: &mut Vec<ToSend>) -> Result<(), AllocError>
        ensures { OnOk result (dues.new.items ≡ dues.old.items ++ asking_sets self.now.id self.now.holding) }
    {
        if self.id.index() == 0 {
            return Ok(());
        }
        let first = NodeId::new(0).unwrap();
        let host = Proc::of_host();
        dues.push(self.range_due(first, &host)?)?;
        Ok(())
    }

    /// Makes all requests due for missing headers and commits.
    fn ask_all(&self, dues: &mut Vec<ToSend>) -> Result<(), AllocError>
        ensures { OnOk result (dues.new.items ≡ dues.old.items ++ nudging self.now.jobs self.now.id self.now.holding) }
    {
        self.ask_fences(dues)?;
        self.ask_homes(dues)?;
        self.ask_sets(dues)?;
        Ok(())
    }

    /// Asks other nodes again for missing headers and commits (this project's call). It asks for headers of the fences in which own
    /// processes wait, and for commits that headers name in fences that collect data. It asks for commits of the processes whose keys gets
    /// wait for, anew for a get that asks anew. Nodes other than 0 also ask for changes of the process sets. Nothing else changes.
    pub fn nudge(&mut self, out: &mut VecDeque<Sent>) -> Result<(), AllocError>
        ensures reply { reply_to self.old (Act.request Request.nudge) ≡ Reply.done }
        ensures ok { OnOk result (self.new ≡ after self.old (Act.request Request.nudge)) }
        ensures sent { OnOk result (out.new.items ≡ out.old.items ++ sent_by self.old (Act.request Request.nudge)) }
        ensures err { OnErr result (self.new ≡ self.old) }
        ensures unsent { OnErr result (out.new.items ≡ out.old.items) }
    {
        let mut dues = Vec::new(self.table.registry().allocator());
        self.ask_all(&mut dues)?;
        let alloc = self.table.registry().allocator();
        hand_out(alloc, &self.own, &mut self.marks, None, dues, out)?;
        Ok(())
    }
}
