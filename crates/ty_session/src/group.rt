// The group of breadcrumbs that is held for a client, and when it is queued.
ghost use Rattle.std.specs.Prelude.{◌≡◌, [], OnOk, OnErr};
ghost use Rattle.ty_wire.specs.Talk.{status_change};
ghost use Rattle.ty_session.specs.Times.{closes_group};
ghost use Rattle.ty_session.specs.Outcomes.{IsSpent};
ghost use Rattle.ty_session.specs.steps.Held.{taken_view, closed_view, entered_view};

use crate::session::Session;
use std::alloc::Global;
use ty_base::{GROUP_AGE, MESSAGE_DELTAS, NoMemory, Status, same_status};
use ty_crumb::Crumb;
use ty_group::Encoded;

impl Session {
    // The breadcrumb joins the held group, which is queued where it ends there.
    pub(crate) fn enter(&mut self, alloc: Global, crumb: &Crumb, now: u64) -> Result<(), NoMemory>
        ensures ok { OnOk result (self.new
            ≡ entered_view now crumb.now crumb.now.deltas self.old) }
        ensures err { OnErr result (IsSpent self.old self.new) }
    {
        let len = self.held.len().saturating_add(crumb.deltas.len());
        if !is_closing(crumb.at, now, len) {
            return self.take(alloc, crumb);
        }
        if self.held.len() == 0 {
            return self.pass(alloc, crumb);
        }
        self.take(alloc, crumb)?;
        self.close(alloc)
    }

    // The same with encoded deltas.
    pub(crate) fn enter_encoded(
        &mut self,
        alloc: Global,
        crumb: &Crumb,
        encoded: &Encoded,
        now: u64,
    ) -> Result<(), NoMemory>
        ensures ok { OnOk result (self.new
            ≡ entered_view now crumb.now encoded.now self.old) }
        ensures err { OnErr result (IsSpent self.old self.new) }
    {
        let len = self.held.len().saturating_add(encoded.len());
        if !is_closing(crumb.at, now, len) {
            return self.take_encoded(alloc, crumb, encoded);
        }
        if self.held.len() == 0 {
            return self.pass_encoded(alloc, crumb, encoded);
        }
        self.take_encoded(alloc, crumb, encoded)?;
        self.close(alloc)
    }

    // The breadcrumb joins the held group.
    fn take(&mut self, alloc: Global, crumb: &Crumb) -> Result<(), NoMemory>
        ensures ok { OnOk result (self.new ≡ taken_view crumb.now crumb.now.deltas self.old) }
        ensures err { OnErr result (IsSpent self.old self.new) }
    {
        match self.held.push(alloc, &crumb.deltas) {
            Ok(()) => {
                self.number = crumb.number;
                self.status = crumb.status;
                Ok(())
            }
            Err(e) => {
                self.spent = true;
                Err(e)
            }
        }
    }

    fn take_encoded(
        &mut self,
        alloc: Global,
        crumb: &Crumb,
        encoded: &Encoded,
    ) -> Result<(), NoMemory>
        ensures ok { OnOk result (self.new ≡ taken_view crumb.now encoded.now self.old) }
        ensures err { OnErr result (IsSpent self.old self.new) }
    {
        match self.held.push_encoded(alloc, encoded) {
            Ok(()) => {
                self.number = crumb.number;
                self.status = crumb.status;
                Ok(())
            }
            Err(e) => {
                self.spent = true;
                Err(e)
            }
        }
    }

    // Queues the held group.
    pub(crate) fn close(&mut self, alloc: Global) -> Result<(), NoMemory>
        ensures ok { OnOk result (self.new ≡ closed_view self.old) }
        ensures err { OnErr result (IsSpent self.old self.new) }
    {
        let told = changed_status(self.told, self.status);
        match self.out.push_held(alloc, &mut self.held, told, self.number) {
            Ok(()) => {
                self.ended = self.number;
                self.told = self.status;
                Ok(())
            }
            Err(e) => {
                self.spent = true;
                Err(e)
            }
        }
    }

    // Queues the breadcrumb as a group of its own, without a copy of its deltas.
    fn pass(&mut self, alloc: Global, crumb: &Crumb) -> Result<(), NoMemory>
        requires { self.old.held ≡ [] }
        ensures ok { OnOk result (self.new
            ≡ closed_view (taken_view crumb.now crumb.now.deltas self.old)) }
        ensures err { OnErr result (IsSpent self.old self.new) }
    {
        let told = changed_status(self.told, crumb.status);
        match self
            .out
            .push_group(alloc, &crumb.deltas, told, crumb.number)
        {
            Ok(()) => {
                self.stand_at(crumb);
                Ok(())
            }
            Err(e) => {
                self.spent = true;
                Err(e)
            }
        }
    }

    fn pass_encoded(
        &mut self,
        alloc: Global,
        crumb: &Crumb,
        encoded: &Encoded,
    ) -> Result<(), NoMemory>
        requires { self.old.held ≡ [] }
        ensures ok { OnOk result (self.new
            ≡ closed_view (taken_view crumb.now encoded.now self.old)) }
        ensures err { OnErr result (IsSpent self.old self.new) }
    {
        let told = changed_status(self.told, crumb.status);
        match self.out.push_encoded(alloc, encoded, told, crumb.number) {
            Ok(()) => {
                self.stand_at(crumb);
                Ok(())
            }
            Err(e) => {
                self.spent = true;
                Err(e)
            }
        }
    }

    // The breadcrumb is the last one, and its end is queued.
    fn stand_at(&mut self, crumb: &Crumb)
        ensures { self.new ≡ record self.old {
          number = crumb.now.number;
          status = crumb.now.status;
          ended = crumb.now.number;
          told = crumb.now.status;
        } }
    {
        self.number = crumb.number;
        self.status = crumb.status;
        self.ended = crumb.number;
        self.told = crumb.status;
    }
}

// Whether a breadcrumb that was made at `at` ends a group of so many deltas, its own among them.
fn is_closing(at: u64, now: u64, len: usize) -> bool
    ensures { result ≡ closes_group at now len }
{
    now.saturating_sub(at) < GROUP_AGE || len >= MESSAGE_DELTAS
}

// The status is told only where it changed.
fn changed_status(before: Status, after: Status) -> Option<Status>
    ensures { result ≡ status_change before after }
{
    if same_status(before, after) {
        return None;
    }
    Some(after)
}
