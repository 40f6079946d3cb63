//! The last access of a visit.

ghost use Rattle.std.specs.Prelude.{◌≡◌};
ghost use Rattle.model_splitter.specs.Walk.{place_at_door};

use crate::way::Way;
use model_steps::Place;

/// The last access that a visit to a splitter made.
#[derive(Clone, Copy, Debug, Drop, PartialEq, Eq)]
pub enum VisitStage {
    /// It has made no access.
    Outside,
    /// It wrote its identity into X.
    WroteX,
    /// It read Y as clear.
    SawClear,
    /// It set Y.
    WroteY,
    /// The visit has ended.
    Gone(Way),
}

impl VisitStage {
    /// Returns `door` if the visit has stopped there, as the place of its walk; otherwise `None`.
    pub fn place_at(self, door: Place) -> Option<Place>
        ensures { result ≡ place_at_door door self }
    {
        match self {
            VisitStage::Gone(Way::Stop) => Some(door),
            VisitStage::Gone(Way::Right) | VisitStage::Gone(Way::Down) => None,
            VisitStage::Outside | VisitStage::WroteX | VisitStage::SawClear | VisitStage::WroteY =>
                None,
        }
    }
}
