//! What a caller has kept.

ghost use Rattle.std.specs.Prelude.{◌≡◌, length, slice_get};
ghost use Rattle.service_lock.specs.Kepts.{IsSound};
ghost use Rattle.service_lock.specs.KeptNames.{name_kept};

use crate::kept::Kept;
use crate::parts::{Clerk, LockName, Session};

impl<L: LockName> Clerk<L> {
    /// Returns the number of its accepted events. Each is at its place in the history that the caller has seen.
    pub fn count(&self) -> usize
        ensures count { result ≡ length self.now.kept }
        ensures sound { IsSound L.config self.now }
    {
        self.kept.len()
    }

    /// Returns the accepted event with this index, from 0, in order.
    pub fn get(&self, at: usize) -> Option<Kept>
        ensures { result ≡ slice_get self.now.kept at }
    {
        self.kept.get(at)
    }
}

impl<L: LockName> Session<L> {
    /// Returns the identity.
    pub fn id(&self) -> u64
        ensures { result ≡ self.now.id }
    {
        self.id
    }

    /// Returns the number of its accepted events, its `begin` among them. Each is at its place in the history that it
    /// has seen.
    pub fn count(&self) -> usize
        ensures count { result ≡ length self.now.clerk.kept }
        ensures sound { IsSound L.config self.now.clerk }
    {
        self.clerk.count()
    }

    /// Returns the accepted event with this index, from 0, in order.
    pub fn get(&self, at: usize) -> Option<Kept>
        ensures { result ≡ slice_get self.now.clerk.kept at }
    {
        self.clerk.get(at)
    }

    /// Returns the first name among the replies to its accepted events, or `None`.
    pub fn name(&self) -> Option<u64>
        ensures { result ≡ name_kept self.now.clerk.kept }
    {
        self.clerk.kept.name()
    }
}
