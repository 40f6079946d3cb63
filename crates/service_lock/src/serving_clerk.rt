//! A clerk at its lock, as a service.

ghost use Rattle.std.specs.Prelude.{◌≡◌, true};
ghost use Rattle.service_lock.specs.Serving.{ClerkServes};
ghost use Rattle.service_lock.specs.lemmas.ServingProofs.{clerk_answers};

use crate::lock::HallLock;
use crate::{Clerk, LockName};
use model_asked::{Event, Reply};
use model_steps::View;
use std::marker::Model;
use std::sync::Wait;
use text_player::Service;

/// A clerk with its lock, as a service: it applies each event under the lock.
#[derive(Drop)]
pub struct ServingClerk<'a, L: LockName> {
    lock: &'a HallLock<L>,
    clerk: Clerk<L>,
}

impl<'a, L: LockName> Model for ServingClerk<'a, L> {
    ghost use Rattle.service_lock.specs.CallerState.{CallerState};

    ghost Value = { CallerState };

    ghost view = { λ s. s.clerk };
}

impl<'a, L: LockName> ServingClerk<'a, L> {
    /// Makes a service of a clerk and its lock.
    pub fn new(lock: &'a HallLock<L>, clerk: Clerk<L>) -> ServingClerk<'a, L>
        ensures { result ≡ clerk }
    {
        ServingClerk { lock, clerk }
    }

    /// Returns the clerk.
    pub fn into_clerk(self) -> Clerk<L>
        ensures { result ≡ self.entry }
    {
        let ServingClerk { lock: _, clerk } = self;
        clerk
    }
}

impl<'a, L: LockName, R: Wait> Service<R> for ServingClerk<'a, L> {
    ghost knows = { λ q. true };

    ghost may = { ClerkServes L.config };

    ghost answers = { λ s q known. clerk_answers L.config s q };

    fn apply(&mut self, rt: &R, event: Event, view: &mut View) -> Reply<()> {
        let ServingClerk { lock, clerk } = self;
        lock.apply_short(rt, clerk, event, view)
    }

    fn owner(&mut self, rt: &R, n: u64) -> Reply<View> {
        let ServingClerk { lock, clerk } = self;
        lock.tell_owner(rt, clerk, n)
    }
}
