ghost use Rattle.std.specs.Prelude.{◌≡◌, ℕ, List, Bool, Ok, None, Some};
ghost use Rattle.sc_load.specs.Load.{IsWellFormed};
ghost use Rattle.sc_catalog.specs.declared.entry.Entry.{Entry};
ghost use Rattle.sc_visit.specs.Visits.{Visitor};
ghost use Rattle.sc_route.specs.declared.job.Work.TheVariants as Of;
ghost use Rattle.sc_http.specs.Reply.{reply_bytes};
ghost use Rattle.sc_said.specs.Said.{reply_of};
ghost use Rattle.sc_serve.specs.Desks.{revision_of, said_of_tried};
ghost use Rattle.sc_serve.specs.Replies.{makes, count_of};
ghost use Rattle.sc_serve.specs.Service.{Handles, Tries};

use crate::desk::{Desk, Tried};
use crate::faults::said_of_load;
use sc_base::Text;
use sc_load::Load;
use sc_said::{LoadRoom, behind, reply_text};
use std::alloc::{AllocError, Global};

/// Whether a load makes what wasn't there.
fn makes(load: &Load) -> bool
    ensures { result ≡ makes load.now }
{
    match load {
        Load::AddCollection { .. } => true,
        Load::Insert { .. } => true,
        Load::Upsert { .. } => true,
        _ => false,
    }
}

/// The number of items in a load, or the one item that it is about.
fn count_of(load: &Load) -> u64
    ensures { result ≡ count_of load.now }
{
    match load {
        Load::AddCollection { .. } => 0,
        Load::DropCollection { .. } => 0,
        Load::Insert { items, .. } => items.len() as u64,
        Load::Upsert { items, .. } => items.len() as u64,
        _ => 1,
    }
}

/// The bytes of the reply to a load that the history takes.
fn tried_text(room: LoadRoom, tried: Tried, made: bool, items: u64, close: bool) -> Text
    ensures { result ≡ reply_bytes (reply_of (said_of_tried made items tried) (revision_of tried) close) }
{
    match tried {
        Tried::Taken { revision } => room.text(made, revision, items, close),
        Tried::NotStored { revision, stored } => room.not_stored(stored, revision, close),
    }
}

/// Publishes a load in one turn, and gives the bytes of the reply. Where it is accepted, stored or not, no memory is taken
/// behind the turn.
fn try_load<R, D: Desk<R>>(
    rt: &R,
    alloc: Global,
    desk: &mut D,
    load: Load,
    close: bool,
) -> Result<Text, AllocError>
    requires { IsWellFormed load }
    ensures { (base : List ℕ) (begun : D) (old : Visitor Entry) → D.stands begun desk.old old → (new : Visitor Entry) × D.stands begun desk.new new × Tries D.may_fail base close load result old new }
{
    let made = makes(&load);
    let items = count_of(&load);
    let room = LoadRoom::new(alloc)?;
    match desk.publish(rt, alloc, load) {
        Ok(tried) => Ok(tried_text(room, tried, made, items, close)),
        Err(refused) => {
            let said = said_of_load(alloc, refused.fault)?;
            reply_text(alloc, said, refused.revision, close)
        }
    }
}

/// Publishes a load once a stated revision is reached, and gives the bytes of the reply.
fn load_from<R, D: Desk<R>>(
    rt: &R,
    alloc: Global,
    desk: &mut D,
    stated: u64,
    load: Load,
    close: bool,
) -> Result<Text, AllocError>
    requires { IsWellFormed load }
    ensures { (base : List ℕ) (begun : D) (old : Visitor Entry) → D.stands begun desk.old old → (new : Visitor Entry) × D.stands begun desk.new new ×
        Handles D.may_fail base close (Ok (record { seen = Some stated; work = Of.Load load })) result old new }
{
    let snapshot = desk.take_snapshot(rt, alloc)?;
    let revision = snapshot.revision();
    if revision < stated {
        let said = behind(alloc, revision)?;
        return reply_text(alloc, said, revision, close);
    }
    try_load(rt, alloc, desk, load, close)
}

/// Answers a load, which may state a revision that has to be reached.
pub fn answer_load<R, D: Desk<R>>(
    rt: &R,
    alloc: Global,
    desk: &mut D,
    seen: Option<u64>,
    load: Load,
    close: bool,
) -> Result<Text, AllocError>
    requires { IsWellFormed load }
    ensures { (base : List ℕ) (begun : D) (old : Visitor Entry) → D.stands begun desk.old old → (new : Visitor Entry) × D.stands begun desk.new new ×
        Handles D.may_fail base close (Ok (record { seen = seen; work = Of.Load load })) result old new }
{
    match seen {
        None => try_load(rt, alloc, desk, load, close),
        Some(stated) => load_from(rt, alloc, desk, stated, load, close),
    }
}
