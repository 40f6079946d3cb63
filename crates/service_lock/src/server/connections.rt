//! The connections of a listener, in the order in which they are accepted.

ghost use Rattle.std.specs.Prelude.{◌≡◌, ◌+◌, ◌≤◌, ◌<◌, IfSome, IfNone, Some, None};
ghost use Rattle.service_lock.specs.declared.server.server_fault.ServerFault.TheVariants.{Network};

use crate::server::server_fault::ServerFault;
use std::net::OpenListener;

/// The connections that were accepted, of a fixed number. Only a listener adds to them.
#[derive(Drop)]
pub struct Connections {
    accepted: u64,
    count: u64,
    fault: Option<ServerFault>,
    ghost few: { accepted ≤ count },
}

impl Connections {
    /// Makes the state before any of `count` connections.
    pub(crate) fn new(count: u64) -> Connections
        ensures { (result.accepted ≡ 0) × (result.count ≡ count) × (result.fault ≡ None) }
    {
        Connections {
            accepted: 0,
            count,
            fault: None,
        }
    }

    /// Returns the number of connections that were accepted.
    pub fn accepted(&self) -> u64
        ensures { result ≡ self.now.accepted }
    {
        self.accepted
    }

    /// Returns why fewer than `count` were accepted: an accept failed, or there was no clerk. Returns `None` if all
    /// were accepted.
    pub(crate) fn lack(&self, count: u64) -> Option<ServerFault>
        ensures { IfNone result (self.now.accepted ≡ count) }
    {
        if self.accepted == count {
            None
        } else {
            Some(self.fault.unwrap_or(ServerFault::Network))
        }
    }

    /// Accepts the next connection, and returns it with its number, from 0.
    ///
    /// Returns `None` if all were accepted, or if an accept has failed.
    pub(crate) fn accept<N: OpenListener>(&mut self, listener: &N) -> Option<(u64, N::Stream)>
        ensures number { IfSome result (λ c. (c.0 ≡ self.old.accepted) × (self.new.accepted ≡ self.old.accepted + 1)) }
        ensures before { IfSome result (λ c. (self.old.accepted < self.old.count) × (self.old.fault ≡ None)) }
        ensures none { IfNone result (self.new.accepted ≡ self.old.accepted) }
        ensures same { self.new.count ≡ self.old.count }
    {
        if self.accepted >= self.count || self.fault.is_some() {
            return None;
        }
        match listener.accept() {
            Ok((stream, _)) => {
                let connection = self.accepted;
                self.accepted += 1;
                Some((connection, stream))
            }
            Err(_) => {
                self.fault = Some(ServerFault::Network);
                None
            }
        }
    }
}
