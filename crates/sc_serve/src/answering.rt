ghost use Rattle.std.specs.Prelude.{◌≡◌, ◌≢◌, IfOk, Ok};
ghost use Rattle.sc_http.specs.Reply.{reply_bytes};
ghost use Rattle.sc_catalog.specs.declared.entry.Entry.{Entry as CatalogueEntry};
ghost use Rattle.sc_visit.specs.Visits.{Visitor};
ghost use Rattle.sc_refusal.specs.declared.fault.RouteFault.TheVariants.{OutOfMemory};
ghost use Rattle.sc_route.specs.Jobs.{IsFormed};
ghost use Rattle.sc_said.specs.Said.{reply_of};
ghost use Rattle.sc_serve.specs.Replies.{of_route};
ghost use Rattle.sc_serve.specs.Service.{Handles};

use crate::desk::Desk;
use crate::faults::{said_of_end, said_of_route};
use crate::loading::answer_load;
use crate::reading::answer_read;
use sc_base::Text;
use sc_catalog::{Entry, Load};
use sc_http::{HttpEnd, Request};
use sc_outside::Steps;
use sc_refusal::RouteFault;
use sc_route::{Job, Routes, Work, job_of};
use sc_said::reply_text;
use sc_session::Clerk;
use std::alloc::{AllocError, Global};
use std::sync::ledger::Ledger;

/// The reply to a request that asks for nothing that can be done. To want of memory there is none.
fn refuse_route(
    alloc: Global,
    fault: RouteFault,
    revision: u64,
    close: bool,
) -> Result<Text, AllocError>
    ensures known { IfOk result (λ _. fault ≢ OutOfMemory) }
    ensures text { IfOk result (λ text. text ≡ reply_bytes (reply_of (of_route fault) revision close)) }
{
    let said = said_of_route(alloc, fault)?;
    reply_text(alloc, said, revision, close)
}

/// Answers a job.
fn answer_job<R, D: Desk<R>, L: Ledger>(
    rt: &R,
    alloc: Global,
    base: &Text,
    desk: &mut D,
    steps: &mut Steps<L>,
    job: Job,
    close: bool,
) -> Result<Text, AllocError>
    requires { IsFormed job.work }
    ensures { (begun : D) (old : Visitor CatalogueEntry) → D.stands begun desk.old old → (new : Visitor CatalogueEntry) × D.stands begun desk.new new × Handles D.may_fail base.now close (Ok job) result old new }
{
    let Job { seen, work } = job;
    match work {
        Work::Load(load) => answer_load(rt, alloc, desk, seen, load, close),
        work => answer_read(rt, alloc, base, desk, steps, seen, &work, close),
    }
}

/// The STAC API of a catalogue at an address, which has no slash at its end.
#[derive(Drop)]
pub struct Api<'b> {
    pub routes: Routes,
    pub base: &'b Text,
}

impl<'b, R, D: Desk<R>, L: Ledger> Clerk<R, D, Steps<L>> for Api<'b> {
    ghost use Rattle.std.specs.Prelude.{refl};
    ghost use Rattle.sc_serve.specs.Service.{api_of};

    type Entry = Entry;

    type Load = Load;

    type Job = Result<Job, RouteFault>;

    ghost service = { λ clerk. api_of D.may_fail clerk.base.now };

    ghost stands = { λ begun desk visitor. D.stands begun desk visitor };

    fn answer(
        &self,
        rt: &R,
        alloc: Global,
        desk: &mut D,
        steps: &mut Steps<L>,
        request: &Request,
    ) -> Result<Text, AllocError> {
        match job_of(alloc, &self.routes, self.base, request) {
            Err(fault) => refuse_route(alloc, fault, desk.seen(), request.close),
            Ok(job) => answer_job(rt, alloc, self.base, desk, steps, job, request.close),
        }
    }

    fn refuse(&self, alloc: Global, desk: &D, end: &HttpEnd) -> Result<Option<Text>, AllocError> {
        let said = said_of_end(alloc, end)?;
        match said {
            None => Ok(None),
            Some(said) => {
                let text = reply_text(alloc, said, desk.seen(), true)?;
                Ok(Some(text))
            }
        }
    }

    ghost numbered = { λ clerk number load. refl };
}
