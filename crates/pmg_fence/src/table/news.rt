//! The node's own headers that begin to exist.
ghost use Rattle.std.specs.Prelude.{◌≡◌, ◌&&◌, nat_le, ◌++◌, List, Some, length, IsTrue, IfOk, OnOk, OnErr, is_some};
ghost use Rattle.std.specs.FinMap as finite;
ghost use Rattle.std.specs.List.{flat_map};
ghost use Rattle.std.specs.Option.{option_map};
ghost use Rattle.pmg_value.specs.declared.process.Proc.{Proc};
ghost use Rattle.pmg_frame.specs.Fences.{header, is_instance, is_level};
ghost use Rattle.pmg_fence.specs.Entering.{told_locals, collected_locals};
ghost use Rattle.pmg_fence.specs.Tables.{names_of, fence_of, entry_at};
ghost use Rattle.pmg_fence.specs.Kept.{instead, entry_with, known_fence, own_by, own_of, told_with, newly_told, changed_with, ended_told, series_told, most_told, IsLine, CanChange};
ghost use Rattle.pmg_fence.specs.TakenBack.{fences_back};

use super::{Table, count_in, home_of};
use crate::change::Change;
use crate::entry::Entry;
use crate::fence::Fence;
use crate::owns::Owns;
use crate::series::SeriesUndo;
use pmg_frame::{FenceName, Header, Local, Signature};
use pmg_jobinfo::Registry;
use pmg_value::{NodeId, Proc};
use std::alloc::AllocError;
use std::collections::VecDeque;

/// Returns the participants at home at the node, in their order.
fn own_participants(
    registry: &Registry,
    node: NodeId,
    signature: &Signature,
) -> Result<Vec<Proc>, AllocError>
    ensures { IfOk result (λ ps. ps.items ≡ own_by registry.now node signature.now) }
{
    let mut own = Vec::new(registry.allocator());
    for proc in signature.participants() {
        if home_of(registry, proc) != node.index() {
            continue;
        }
        own.push(proc.copy()?)?;
    }
    Ok(own)
}

/// Keeps the own participants of the signature, so that they are looked up once.
fn keep_own(
    owns: &mut Owns,
    registry: &Registry,
    node: NodeId,
    signature: &Signature,
) -> Result<(), AllocError>
    requires { (ps : List Proc) → finite.get owns.old signature.now ≡ Some ps → ps ≡ own_by registry.now node signature.now }
    ensures ok { OnOk result (owns.new ≡ finite.insert owns.old signature.now (own_by registry.now node signature.now)) }
    ensures err { OnErr result (owns.new ≡ owns.old) }
{
    if owns.get(signature).is_some() {
        return Ok(());
    }
    let own = own_participants(registry, node, signature)?;
    owns.insert(signature.copy()?, own)?;
    Ok(())
}

impl Table {
    /// Returns the entry of the own process in the fence, with the line in place of its process's entry.
    fn entry_now(&self, fence: Option<&Fence>, line: Option<&Local>, proc: &Proc) -> Option<Entry>
        ensures { result ≡ instead (option_map (λ l. l.now) line.entry)
            (entry_with (known_fence (option_map (λ f. f.now) fence.entry)) self.now.fences.ends) proc.now }
    {
        match line {
            Some(line) if proc.cmp(&line.proc).is_eq() => Some(Entry {
                state: line.state,
                level: line.level,
            }),
            _ => self.entry(fence, proc),
        }
    }

    /// Returns whether enough processes entered the fence or ended that each of these may have an entry, with one more to come.
    fn may_be_told(&self, own: &[Proc], fence: Option<&Fence>) -> bool
        ensures { result ≡ nat_le (length own.now) (most_told (known_fence (option_map (λ f. f.now) fence.entry)) self.now.fences.ends) }
    {
        own.len() <= count_in(fence) + self.ends.len() + 1
    }

    /// Returns whether each of these has an entry.
    fn are_told(&self, own: &[Proc], fence: Option<&Fence>) -> bool
        ensures { result ≡ is_some (collected_locals (entry_with (known_fence (option_map (λ f. f.now) fence.entry)) self.now.fences.ends) own.now) }
    {
        for proc in own {
            let Some(_) = self.entry(fence, proc) else {
                return false;
            };
        }
        true
    }

    /// Returns the lines of these processes, as soon as each has an entry.
    fn lines(
        &self,
        own: &[Proc],
        fence: Option<&Fence>,
        line: Option<&Local>,
    ) -> Result<Option<Vec<Local>>, AllocError>
        ensures { IfOk result (λ o. option_map (λ ls. ls.items) o ≡ told_locals (instead (option_map (λ l. l.now) line.entry)
            (entry_with (known_fence (option_map (λ f. f.now) fence.entry)) self.now.fences.ends)) own.now) }
    {
        let mut lines = Vec::new(self.series.allocator());
        for proc in own {
            let Some(entry) = self.entry_now(fence, line, proc) else {
                return Ok(None);
            };
            lines.push(entry.local(proc)?)?;
        }
        if lines.is_empty() {
            return Ok(None);
        }
        Ok(Some(lines))
    }

    /// Returns whether the own header of a found fence exists, given its own participants.
    fn is_present(&self, own: &[Proc], fence: Option<&Fence>) -> bool
        ensures { result ≡ (is_some fence.entry && is_some (told_locals (entry_with (known_fence (option_map (λ f. f.now) fence.entry)) self.now.fences.ends) own.now)) }
    {
        fence.is_some() && !own.is_empty() && self.are_told(own, fence)
    }

    /// Returns the own header of the fence, as soon as it exists.
    pub(crate) fn header_with(
        &self,
        own: &[Proc],
        signature: &Signature,
        instance: u64,
        line: Option<&Local>,
    ) -> Result<Option<Header>, AllocError>
        requires own { own.now ≡ own_of self.now signature.now }
        requires number { IsTrue (is_instance instance) }
        requires line { IsLine (option_map (λ l. l.now) line) }
        ensures { IfOk result (λ o. o ≡ option_map (header self.now.node (fence_of signature.now instance))
            (told_locals (instead (option_map (λ l. l.now) line.entry) (entry_at self.now.fences (fence_of signature.now instance)))
            (own_of self.now signature.now))) }
    {
        let fence = self.fence(signature, instance);
        let Some(lines) = self.lines(own, fence, line)? else {
            return Ok(None);
        };
        let name = FenceName::from_checked(signature.copy()?, instance);
        Ok(Some(Header::from_checked(self.node, name, lines)))
    }

    /// Returns the own header that begins to exist when the process of the line has this entry in the fence.
    fn news(
        &self,
        own: &[Proc],
        signature: &Signature,
        instance: u64,
        line: Option<&Local>,
    ) -> Result<VecDeque<Header>, AllocError>
        requires own { own.now ≡ own_of self.now signature.now }
        requires number { IsTrue (is_instance instance) }
        requires line { IsLine (option_map (λ l. l.now) line) }
        ensures { IfOk result (λ q. q.items ≡ told_with self.now (fence_of signature.now instance) (option_map (λ l. l.now) line.entry)) }
    {
        let mut news = VecDeque::new(self.series.allocator());
        let fence = self.fence(signature, instance);
        if !self.may_be_told(own, fence) {
            return Ok(news);
        }
        if self.is_present(own, fence) {
            return Ok(news);
        }
        match self.header_with(own, signature, instance, line)? {
            Some(header) => {
                news.push_back(header)?;
                Ok(news)
            }
            None => Ok(news),
        }
    }

    /// Does what `news` does, with the kept own participants, or else with a new look-up.
    fn news_of(
        &self,
        signature: &Signature,
        instance: u64,
        line: Option<&Local>,
    ) -> Result<VecDeque<Header>, AllocError>
        requires number { IsTrue (is_instance instance) }
        requires line { IsLine (option_map (λ l. l.now) line) }
        ensures { IfOk result (λ q. q.items ≡ told_with self.now (fence_of signature.now instance) (option_map (λ l. l.now) line.entry)) }
    {
        match self.owns.get(signature) {
            Some(own) => self.news(own, signature, instance, line),
            None => {
                let own = own_participants(&self.registry, self.node, signature)?;
                self.news(&own, signature, instance, line)
            }
        }
    }

    /// Does what `news_of` does for an instance that is not old; an old one has no header.
    fn news_now(
        &self,
        signature: &Signature,
        instance: u64,
        line: Option<&Local>,
    ) -> Result<VecDeque<Header>, AllocError>
        requires number { IsTrue (is_instance instance) }
        requires line { IsLine (option_map (λ l. l.now) line) }
        ensures { IfOk result (λ q. q.items ≡ newly_told self.now (fence_of signature.now instance) (option_map (λ l. l.now) line.entry)) }
    {
        if self.is_old_at(signature, instance) {
            return Ok(VecDeque::new(self.series.allocator()));
        }
        Ok(self.news_of(signature, instance, line)?)
    }

    /// Applies the change to the fence, with the line as the new entry of its process, and returns the earlier state of the signature's
    /// fences, if it had any. Nothing is forgotten yet.
    pub(crate) fn change(
        &mut self,
        signature: &Signature,
        instance: u64,
        line: Option<&Local>,
        change: Change,
    ) -> Result<Option<SeriesUndo>, AllocError>
        requires number { IsTrue (is_instance instance) }
        requires line { IsLine (option_map (λ l. l.now) line) }
        requires change { CanChange self.old.fences (fence_of signature.now instance) change }
        ensures before { IfOk result (λ b. fences_back self.new.fences (fence_of signature.now instance) b ≡ self.old.fences) }
        ensures ok { OnOk result (self.new ≡ changed_with self.old (fence_of signature.now instance) change (option_map (λ l. l.now) line.entry)) }
        ensures err { OnErr result (self.new ≡ self.old) }
    {
        keep_own(&mut self.owns, &self.registry, self.node, signature)?;
        let mut news = self.news_now(signature, instance, line)?;
        let start = self.waiting.len();
        self.waiting.append(&mut news)?;
        match self.series.change(signature, instance, change) {
            Err(AllocError) => {
                self.waiting.truncate(start);
                Err(AllocError)
            }
            Ok(before) => Ok(before),
        }
    }

    /// Returns the own header of the fence that begins to exist when the process of the line has ended without an entry into the fence.
    fn news_at_end(
        &self,
        signature: &Signature,
        instance: u64,
        line: &Local,
    ) -> Result<VecDeque<Header>, AllocError>
        requires { IsTrue (is_level line.now.level) }
        ensures { IfOk result (λ q. q.items ≡ ended_told self.now line.now (fence_of signature.now instance)) }
    {
        let Some(fence) = self.fence(signature, instance) else {
            return Ok(VecDeque::new(self.series.allocator()));
        };
        if let Some(_) = fence.level(&line.proc) {
            return Ok(VecDeque::new(self.series.allocator()));
        }
        Ok(self.news_of(signature, instance, Some(line))?)
    }

    /// Adds the own headers of one signature's fences that begin to exist by the end.
    fn add_news(
        &self,
        news: &mut VecDeque<Header>,
        signature: &Signature,
        line: &Local,
    ) -> Result<(), AllocError>
        requires { IsTrue (is_level line.now.level) }
        ensures { OnOk result (news.new.items ≡ news.old.items ++ series_told self.now line.now signature.now) }
    {
        let Some(series) = self.series.get(signature) else {
            return Ok(());
        };
        for (instance, _) in series.rows().iter() {
            let mut more = self.news_at_end(signature, *instance, line)?;
            news.append(&mut more)?;
        }
        Ok(())
    }

    /// Returns the own headers of all fences that begin to exist by the end, in the order of their names.
    pub(crate) fn all_news(&self, line: &Local) -> Result<VecDeque<Header>, AllocError>
        requires { IsTrue (is_level line.now.level) }
        ensures { IfOk result (λ q. q.items ≡ flat_map (ended_told self.now line.now) (names_of self.now.fences)) }
    {
        let mut news = VecDeque::new(self.series.allocator());
        let Some(signatures) = self.owns.signatures(&line.proc) else {
            return Ok(news);
        };
        for signature in signatures.items().iter() {
            self.add_news(&mut news, signature, line)?;
        }
        Ok(news)
    }
}
