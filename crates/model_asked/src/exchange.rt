//! An event and its reply.

use crate::event::Event;
use crate::reply::Reply;
use model_steps::View;

/// An event and its reply: an operation with its response.
#[derive(Clone, Copy, Debug, Drop, PartialEq, Eq)]
pub struct Exchange {
    /// The event.
    pub event: Event,
    /// The reply to it.
    pub reply: Reply<View>,
}
