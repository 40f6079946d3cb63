//! One visit to a splitter.

ghost use Rattle.std.specs.Prelude.{◌≡◌};
ghost use Rattle.model_splitter.specs.Visitor.{visitor_at, visitor_steps, access_of, visitor_after, note_after};

use crate::stage::VisitStage;
use crate::way::Way;
use model_steps::{Access, Answer, Note, StepProgram};

/// The value of Y once it is set; it is 0 before.
const SET: u64 = 1;

/// A visit of one identity, which is not 0, to a splitter (Moir and Anderson 1995): at most four accesses.
///
/// The register `x` is the splitter's X, which holds 0 and then an identity. The register `y` is its Y, which holds 0
/// until it is set.
///
/// 1. Write the identity into X.
/// 2. Read Y. If it is set, the visit ends to the right.
/// 3. Set Y.
/// 4. Read X. If it holds the identity, the visit stops. Otherwise the visit ends down.
#[derive(Clone, Copy, Debug, Drop, PartialEq, Eq)]
pub struct Visitor<R> {
    /// The identity that visits.
    pub identity: u64,
    /// The register that is the splitter's X.
    pub x: R,
    /// The register that is its Y.
    pub y: R,
    /// The last access that the visit made.
    pub stage: VisitStage,
}

impl<R: Copy> Visitor<R> {
    /// Makes a visit that has made no access.
    pub fn new(identity: u64, x: R, y: R) -> Visitor<R>
        ensures { result ≡ visitor_at identity x y }
    {
        Visitor {
            identity,
            x,
            y,
            stage: VisitStage::Outside,
        }
    }
}

impl<R: Copy> StepProgram for Visitor<R> {
    type Reg = R;

    type Value = u64;

    type Output = Way;

    ghost steps = { visitor_steps };

    fn next(&self) -> Access<R, u64>
        ensures { result ≡ access_of self.now }
    {
        match self.stage {
            VisitStage::Outside => Access::Write(self.x, self.identity),
            VisitStage::WroteX => Access::Read(self.y),
            VisitStage::SawClear => Access::Write(self.y, SET),
            VisitStage::WroteY => Access::Read(self.x),
            VisitStage::Gone(_) => Access::Nothing,
        }
    }

    fn resume(&mut self, got: Answer<u64>) -> Note<Way>
        ensures after { self.new ≡ visitor_after self.old got }
        ensures note { result ≡ note_after self.old got }
    {
        let found = match got {
            Answer::Value(value) => value,
            _ => 0,
        };
        self.stage = match self.stage {
            VisitStage::Outside => VisitStage::WroteX,
            VisitStage::WroteX => {
                if found == 0 {
                    VisitStage::SawClear
                } else {
                    VisitStage::Gone(Way::Right)
                }
            }
            VisitStage::SawClear => VisitStage::WroteY,
            VisitStage::WroteY => {
                if found == self.identity {
                    VisitStage::Gone(Way::Stop)
                } else {
                    VisitStage::Gone(Way::Down)
                }
            }
            VisitStage::Gone(way) => VisitStage::Gone(way),
        };
        match self.stage {
            VisitStage::Gone(way) => Note::Ended(way),
            _ => Note::Quiet,
        }
    }
}
