ghost use Rattle.std.specs.Prelude.{◌≡◌, ◌<◌, ◌≤◌, [], true, All, IfOk, IsOkUnless, vec_len};
ghost use Rattle.std.specs.Prelude.{drop as after};
ghost use Rattle.left_right.specs.Sides.{view as known_at};
ghost use Rattle.pmg_value.specs.declared.refusal.Refusal.TheVariants as refusals;
ghost use Rattle.pmg_publish.specs.Rule.{knowing};

use crate::history::History;
use crate::publishing::{Desk, Publisher};
use crate::rule::{Sees, Shares};
use crate::shown::Shown;
use crate::viewer::Viewer;
use pmg_value::Refusal;
use std::alloc::{AllocError, Global};
use std::sync::Wait;

/// The most viewers of a publisher.
pub const MAX_VIEWERS: usize = 65_536;

/// Makes a publisher of an empty board, and this number of viewers, who have seen it. There are at most 65,536 of them, and none is added
/// later. Nobody reads yet, and therefore it waits for nobody. Errors: only `NoMemory`.
pub fn publisher<R: Wait>(
    rt: &R,
    alloc: Global,
    viewers: usize,
) -> Result<(Publisher, Vec<Viewer>), Refusal>
    requires { viewers ≤ MAX_VIEWERS }
    ensures publisher { IfOk result (λ r. (r.0.is_open ≡ true) × (r.0.is_read ≡ true) × (r.0.log ≡ [])) }
    ensures count { IfOk result (λ r. vec_len r.1 ≡ viewers) }
    ensures viewers { IfOk result (λ r. All (λ v. (v.book ≡ r.0.book) × (v.log ≡ [])) r.1.items) }
    ensures err { IsOkUnless result refusals.NoMemory }
{
    let (history, counter) = History::open();
    let mut writer = desk_of(rt, alloc, viewers.max(1), &history)?;
    match viewers_of(alloc, &mut writer, &history, viewers) {
        Ok(all) => Ok((Publisher::new(writer, counter, history), all)),
        Err(_) => {
            drop(writer.take(rt));
            Err(Refusal::NoMemory)
        }
    }
}

/// Makes a writer with so many places for readers, which shows the board of this list, without publications.
fn desk_of<R: Wait>(
    rt: &R,
    alloc: Global,
    places: usize,
    history: &History,
) -> Result<Desk, AllocError>
    requires places { (0 < places) × (places ≤ MAX_VIEWERS) }
    requires log { history.now.log ≡ [] }
    ensures shown { IfOk result (λ w. w.desk.shown.value.history ≡ history.now) }
    ensures pending { IfOk result (λ w. after w.behind w.log.items ≡ []) }
    ensures place { IfOk result (λ w. known_at w.desk.place ≡ knowing history.now) }
{
    let first = Shown::new(alloc, history);
    let second = Shown::new(alloc, history);
    let writer: Desk = Desk::new(alloc, first, second, places)?;
    let (writer, named) = writer.publish_as::<Sees, R>(rt);
    match named {
        Ok(()) => Ok(writer),
        Err(error) => {
            drop(writer.take(rt));
            Err(error)
        }
    }
}

/// Makes so many viewers, who have seen the writer's board.
fn viewers_of(
    alloc: Global,
    writer: &mut Desk,
    history: &History,
    count: usize,
) -> Result<Vec<Viewer>, AllocError>
    requires { known_at writer.old.desk.place ≡ knowing history.now }
    ensures shown { writer.new.desk.shown ≡ writer.old.desk.shown }
    ensures pending { after writer.new.behind writer.new.log.items ≡ after writer.old.behind writer.old.log.items }
    ensures place { known_at writer.new.desk.place ≡ known_at writer.old.desk.place }
    ensures count { IfOk result (λ all. vec_len all ≡ count) }
    ensures viewers { IfOk result (λ all. All (λ v. v ≡ history.now) all.items) }
{
    let mut all = Vec::with_capacity(alloc, count)?;
    for _ in 0..count {
        all.push(viewer_of(writer, history)?)?;
    }
    Ok(all)
}

/// Makes another viewer, who has seen the writer's board.
fn viewer_of(writer: &mut Desk, history: &History) -> Result<Viewer, AllocError>
    requires { known_at writer.old.desk.place ≡ knowing history.now }
    ensures shown { writer.new.desk.shown ≡ writer.old.desk.shown }
    ensures pending { after writer.new.behind writer.new.log.items ≡ after writer.old.behind writer.old.log.items }
    ensures place { known_at writer.new.desk.place ≡ known_at writer.old.desk.place }
    ensures viewer { IfOk result (λ v. v ≡ history.now) }
{
    let mut place = writer.factory().reader()?;
    place.learn::<Shares>(writer.tell::<Shares>());
    Ok(Viewer::new(place, history.again()))
}
