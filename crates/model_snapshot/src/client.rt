//! A participant of a snapshot object.

ghost use Rattle.std.specs.Prelude.{◌≡◌, ◌<◌, IfSome, true, false};
ghost use Rattle.model_steps.specs.declared.access.Access.TheVariants.{Read};
ghost use Rattle.model_steps.specs.declared.access.Answer.TheVariants.{Value};
ghost use Rattle.model_steps.specs.declared.note.Note.TheVariants as note;
ghost use Rattle.model_snapshot.specs.declared.client.Pending.TheVariants.{Placing};
ghost use Rattle.model_snapshot.specs.declared.client.TheConstants.{MOST_UPDATES};
ghost use Rattle.model_snapshot.specs.Client.{view_reported, is_idle, client_at, client_steps, updating, scanning, next_access, client_after, client_note, scan_resumed, scan_note, placing_resumed, placing_note, placed_note};
ghost use Rattle.model_snapshot.specs.SnapWorld.{reported, reported_of_way};

use crate::places::{PlaceWalker, Places};
use crate::scan::Scan;
use crate::walk::SegmentWalk;
use model_steps::{
    Access, Answer, NoMemory, Note, Place, Record, Request, Shortcut, StepProgram, View,
};

/// The most updates for which one participant may be asked.
pub const MOST_UPDATES: u32 = 1_000_000;

/// What one step of a snapshot object returns.
#[derive(Clone, Copy, Debug, Drop)]
pub enum SnapReply {
    /// The operation goes on.
    Quiet,
    /// The participant has reached its place, which is this one.
    Placed(Place),
    /// The update has ended: its value is written.
    Written,
    /// The scan has ended, with this view.
    View(View),
}

impl SnapReply {
    /// Returns the reply of a step on the way to a place, from the note of the way.
    pub fn of_way(note: Note<Place>) -> Self
        ensures { result ≡ reported_of_way note }
    {
        match note {
            Note::Quiet => SnapReply::Quiet,
            Note::Said(_) => SnapReply::Quiet,
            Note::Ended(place) => SnapReply::Placed(place),
        }
    }

    /// Returns the reply of a step, from the note of the participant's program.
    #[inline(always)]
    pub fn of_step(note: Note<SnapReply>) -> Self
        ensures { result ≡ reported note }
    {
        match note {
            Note::Quiet => SnapReply::Quiet,
            Note::Said(reply) => reply,
            Note::Ended(reply) => reply,
        }
    }

    /// Returns the view of a scan that has ended, or `None` for any other reply.
    pub fn view(&self) -> Option<View>
        ensures { result ≡ view_reported self.now }
    {
        match self {
            SnapReply::Quiet => None,
            SnapReply::Placed(_) => None,
            SnapReply::Written => None,
            SnapReply::View(view) => Some(*view),
        }
    }
}

/// What a participant has still to do.
#[derive(Clone, Copy, Debug, Drop)]
pub enum Pending {
    /// Nothing is pending.
    Nothing,
    /// The participant has to reach its place.
    Placing,
    /// It has to scan.
    Scan,
    /// It has to scan, and then to write this value.
    Update(u64),
    /// It has scanned this view, and has to write this value with it.
    Write(u64, View),
}

/// A participant of a snapshot object, as a program that makes one access a step.
///
/// It has a way to its place, one operation that is pending, and a count of its updates.
#[derive(Debug, Drop)]
pub struct Client<U, K> {
    /// The identity.
    pub identity: u64,
    /// The way to its place.
    pub walker: U,
    /// A walk that has read nothing. Each collect takes a copy of it.
    pub walk: K,
    /// How many updates it was asked for: from 0 to 1,000,000.
    pub updates: u32,
    /// What it has still to do.
    pub pending: Pending,
    /// The scan of the operation that is pending. It means nothing in a participant that neither scans nor updates.
    pub scan: Scan<K>,
}

impl<U: PlaceWalker + Copy, K: SegmentWalk<Reg = U::Reg, Value = U::Value> + Copy> Client<U, K>
where
    U::Value: Drop,
{
    /// Makes a participant that begins, on this way to its place. Nothing is pending if the way has a place already.
    pub fn new(identity: u64, walker: U, walk: K) -> Self
        ensures { result ≡ client_at U.place_of identity walker walk }
    {
        Client {
            identity,
            walker,
            walk,
            updates: 0,
            pending: if walker.place().is_some() {
                Pending::Nothing
            } else {
                Pending::Placing
            },
            scan: Scan::new(walk),
        }
    }

    /// Returns true if and only if nothing is pending.
    pub fn is_idle(&self) -> bool
        ensures { result ≡ is_idle self.now.pending }
    {
        matches!(self.pending, Pending::Nothing)
    }

    /// Takes the answer to an access on the way to the place, and returns the note of the step.
    fn resume_placing(&mut self, got: Answer<U::Value>) -> Note<SnapReply>
        ensures after { self.new ≡ placing_resumed U.steps self.old got }
        ensures note { result ≡ placing_note U.steps self.old got }
    {
        match self.walker.resume(got) {
            Note::Ended(place) => {
                self.pending = Pending::Nothing;
                Note::Said(SnapReply::Placed(place))
            }
            Note::Said(_) => Note::Quiet,
            Note::Quiet => Note::Quiet,
        }
    }

    /// Takes the answer to a read of a scan, and returns the note of the step. An update goes on to its write.
    fn resume_scan(&mut self, got: &U::Value, updates_with: Option<u64>) -> Note<SnapReply>
        ensures after { self.new ≡ scan_resumed K.walks self.old got.now updates_with }
        ensures note { result ≡ scan_note K.walks self.old got.now updates_with }
    {
        let Some(view) = self.scan.resume(got, self.walk) else {
            return Note::Quiet;
        };
        match updates_with {
            Some(value) => {
                self.pending = Pending::Write(value, view);
                Note::Quiet
            }
            None => {
                self.pending = Pending::Nothing;
                Note::Said(SnapReply::View(view))
            }
        }
    }
}

impl<U: PlaceWalker + Copy, K: SegmentWalk<Reg = U::Reg, Value = U::Value> + Copy> StepProgram
    for Client<U, K>
where
    U::Value: Drop,
{
    type Reg = U::Reg;

    type Value = U::Value;

    type Output = SnapReply;

    ghost steps = { client_steps U.steps U.place_of K.walks };

    fn next(&self) -> Access<U::Reg, U::Value>
        ensures { result ≡ next_access U.steps U.place_of K.walks self.now }
    {
        match self.pending {
            Pending::Nothing => Access::Nothing,
            Pending::Placing => self.walker.next(),
            Pending::Scan => Access::Read(self.scan.walk.next()),
            Pending::Update(_) => Access::Read(self.scan.walk.next()),
            Pending::Write(value, view) => match self.walker.place() {
                Some(place) => Access::Write(
                    K::segment(place),
                    K::stored(Some(Record {
                        identity: self.identity,
                        value,
                        number: self.updates,
                        view,
                    })),
                ),
                None => Access::Nothing,
            },
        }
    }

    fn resume(&mut self, got: Answer<U::Value>) -> Note<SnapReply>
        ensures after { self.new ≡ client_after U.steps K.walks self.old got }
        ensures note { result ≡ client_note U.steps K.walks self.old got }
    {
        match self.pending {
            Pending::Nothing => Note::Quiet,
            Pending::Placing => self.resume_placing(got),
            Pending::Scan => match got {
                Answer::Value(value) => self.resume_scan(&value, None),
                Answer::WasSet(_) => Note::Quiet,
                Answer::Done => Note::Quiet,
            },
            Pending::Update(new_value) => match got {
                Answer::Value(value) => self.resume_scan(&value, Some(new_value)),
                Answer::WasSet(_) => Note::Quiet,
                Answer::Done => Note::Quiet,
            },
            Pending::Write(_, _) => {
                self.pending = Pending::Nothing;
                Note::Said(SnapReply::Written)
            }
        }
    }

    fn reads(&self) -> Option<U::Reg>
        ensures { IfSome result (λ register. next_access U.steps U.place_of K.walks self.now ≡ Read register) }
    {
        match self.pending {
            Pending::Nothing => None,
            Pending::Placing => None,
            Pending::Scan | Pending::Update(_) => Some(self.scan.walk.next()),
            Pending::Write(_, _) => None,
        }
    }

    fn read_on(&mut self, got: &U::Value) -> bool
        ensures after { result ≡ true → self.new ≡ client_after U.steps K.walks self.old (Value got.now) }
        ensures quiet { result ≡ true → client_note U.steps K.walks self.old (Value got.now) ≡ note.Quiet }
        ensures kept { result ≡ false → self.new ≡ self.old }
    {
        match self.pending {
            Pending::Nothing => false,
            Pending::Placing => false,
            Pending::Scan | Pending::Update(_) => self.scan.read_on(got, self.walk),
            Pending::Write(_, _) => false,
        }
    }
}

/// The request of a scan. It replaces what was pending.
#[derive(Clone, Copy, Debug, Drop, PartialEq, Eq)]
pub struct ToScan;

impl<U, K: SegmentWalk + Copy> Request<Client<U, K>> for ToScan {
    ghost can_ask = { λ _ c. Unit {0} };

    ghost asked = { λ _ c. scanning c };

    fn ask(self, program: &mut Client<U, K>)
        ensures { program.new ≡ scanning program.old }
    {
        program.pending = Pending::Scan;
        program.scan.restart(program.walk);
    }
}

/// The request of an update: a scan, and then a write of the value.
///
/// A participant may be asked for at most 1,000,000 updates.
#[derive(Clone, Copy, Debug, Drop, PartialEq, Eq)]
pub struct ToUpdate {
    /// The value to write.
    pub value: u64,
}

impl<U, K: SegmentWalk + Copy> Request<Client<U, K>> for ToUpdate {
    ghost can_ask = { λ _ c. c.updates < MOST_UPDATES };

    ghost asked = { λ q c. updating c q.value };

    fn ask(self, program: &mut Client<U, K>)
        requires { program.old.updates < MOST_UPDATES }
        ensures { program.new ≡ updating program.old self.value }
    {
        program.updates += 1;
        program.pending = Pending::Update(self.value);
        program.scan.restart(program.walk);
    }
}

/// A step of a participant on the way to its place, which the places make without a copy of a value.
#[derive(Clone, Copy, Debug, Drop, PartialEq, Eq)]
pub struct OnWay;

impl<W: Places> Shortcut<Client<W::Walker, W::Walk>, W> for OnWay
where
    W::Walker: Copy,
    W::Walk: Copy,
    W::Value: Drop,
{
    type Reported = Note<Place>;

    ghost takes = { λ c. c.pending ≡ Placing };

    ghost note = { placed_note };

    fn take(
        program: &mut Client<W::Walker, W::Walk>,
        memory: &mut W,
    ) -> Result<Option<Note<Place>>, NoMemory> {
        let Pending::Placing = program.pending else {
            return Ok(None);
        };
        match memory.walk_on(&mut program.walker) {
            Ok(Some(note)) => {
                if note.ends() {
                    program.pending = Pending::Nothing;
                }
                Ok(Some(note))
            }
            not_taken => not_taken,
        }
    }
}
