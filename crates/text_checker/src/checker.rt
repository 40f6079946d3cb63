//! Judges lines one after the other.

ghost use Rattle.std.specs.Prelude.{◌≡◌, ◌&&◌, [], Ok, IfOk};
ghost use Rattle.std.specs.Option.{option_copied};
ghost use Rattle.model_renaming.specs.RenameObject.{RenameTerms};
ghost use Rattle.model_asked.specs.declared.event.Event.TheVariants as event;
ghost use Rattle.text_records.specs.declared.reported.Reported.TheVariants as reported;
ghost use Rattle.text_worlds.specs.desk.Start.{pool_start};
ghost use Rattle.text_checker.specs.Config.{terms_of};
ghost use Rattle.text_checker.specs.ObjectRun.{DeskObject};
ghost use Rattle.text_records.specs.Reported.{is_step};
ghost use Rattle.text_checker.specs.Reasons.{refusal_due, is_reported_rightly, is_refused_as_due};
ghost use Rattle.text_records.specs.Lines.{line};
ghost use Rattle.text_checker.specs.Judged.{HoldsDesk, Judges, JudgesWithRoom, HasRoom, HasTaken, TakesMore, MayBegin, MayStep, MayEnter, MayProbe, MayWiden, HoldsNumber, IsDueSo};

use crate::fault::Fault;
use crate::judges::{Names, Stays};
use crate::reason::Reason;
use model_asked::{Config, Event};
use model_steps::{Place, Refusal};
use std::alloc::{AllocError, Global};
use text_records::reported::is_step;
use text_records::{Line, Pairs, Reported};

/// The state of the objects after the lines so far: the renaming object, the pool and the slots.
pub struct Checker {
    names: Names,
    stays: Stays,
    grows: bool,
}

// By hand, so that the code that drops a checker is here alone, and not at each place where one goes out of scope.
impl Drop for Checker {
    fn drop(self) {
        let Checker {
            names: _,
            stays: _,
            grows: _,
        } = self;
    }
}

/// Whether the number of a refusal is that of the one due, or, if none is due, that of an allocation failure that may
/// occur.
fn is_reported_rightly(due: Option<Refusal>, lacks: bool, number: u64) -> bool
    ensures { result ≡ is_reported_rightly due lacks number }
{
    match due {
        Some(refusal) => u64::from(refusal.number()) == number,
        None => lacks && u64::from(Refusal::NoMemory.number()) == number,
    }
}

/// Whether a refusal is reported if and only if one is due, with its number.
fn is_refused_as_due(due: Option<Refusal>, lacks: bool, reported: &Reported) -> bool
    ensures { result ≡ is_refused_as_due due lacks reported.now }
{
    match reported {
        Reported::Refused(number) => is_reported_rightly(due, lacks, *number),
        _ => due.is_none(),
    }
}

impl Checker {
    /// Makes the state before the first line of a record of this configuration, with room for `lines` lines.
    ///
    /// # Errors
    ///
    /// `AllocError`: the allocation failed.
    pub fn new(alloc: Global, config: Config, lines: usize) -> Result<Checker, AllocError>
        ensures { IfOk result (HasTaken (terms_of config) (pool_start config) []) }
    {
        Ok(Checker {
            stays: Stays::new(alloc, config.world.most_numbers(), config.k)?,
            names: Names::new(alloc, config.m, config.limit, lines)?,
            grows: config.world.is_tree(),
        })
    }

    /// The refusal that is due to an event, failed allocations aside, or `None`.
    fn refusal_due(&self, event: Event) -> Option<Refusal>
        ensures { (terms : RenameTerms) (o : DeskObject) → HoldsDesk terms self.now o → result ≡ refusal_due terms o event }
    {
        match event {
            Event::Begin(id) => self.names.begin_refusal(id),
            Event::Step(id) => self.names.step_refusal(id),
            Event::Enter(id) => self.stays.enter_refusal(id),
            Event::Probe(id) | Event::Seek(id) => self.stays.probe_refusal(id),
            Event::Leave(id) => self.stays.number_of(id).err(),
            Event::Put(id, _) => self.stays.number_of(id).err(),
            Event::Get(id) => self.stays.number_of(id).err(),
            Event::Widen(more) => self.stays.widen_refusal(more),
        }
    }

    /// Whether an allocation failure may be reported of an event to which no other refusal is due.
    fn may_lack(&self, event: Event) -> bool
        ensures { result ≡ (self.now.grows && is_step event) }
    {
        self.grows && is_step(event)
    }

    /// Judges that a participant, which may begin, begins.
    fn begin(&mut self, id: u64) -> Result<(), Fault>
        ensures { Judges (MayBegin id) self.old (line (event.Begin id) reported.Ok) result self.new }
    {
        self.names.begin(id)?;
        Ok(())
    }

    /// Judges that a participant, which may step, gets a place.
    fn place(&mut self, id: u64, place: Place) -> Result<(), Fault>
        ensures { Judges (MayStep id) self.old (line (event.Step id) (reported.Place place)) result self.new }
    {
        if !self.names.place(id, place) {
            return Err(Fault::Unlawful(Reason::Place));
        }
        Ok(())
    }

    /// Judges that a participant, which may step, has proposed.
    fn propose(&mut self, id: u64, number: u64) -> Result<(), Fault>
        ensures { JudgesWithRoom (MayStep id) self.old (line (event.Step id) (reported.Proposed number)) result self.new }
    {
        if !self.names.may_propose(id, number) {
            return Err(Fault::Unlawful(Reason::Proposal));
        }
        self.names.propose(id, number)?;
        Ok(())
    }

    /// Judges that a participant, which may step, gets a view.
    fn see(&self, id: u64, view: &Pairs) -> Result<(), Fault>
        ensures { Judges (MayStep id) self.now (line (event.Step id) (reported.Saw view.now)) result self.now }
    {
        if !self.names.has_turns(id) {
            return Err(Fault::Unlawful(Reason::Proposal));
        }
        if !self.names.shows_conflict(id, view.as_slice()) {
            return Err(Fault::Unlawful(Reason::View));
        }
        Ok(())
    }

    /// Judges that a participant, which may step, gets a name.
    fn name(&mut self, id: u64, name: u64, shown: Option<&Pairs>) -> Result<(), Fault>
        ensures { Judges (MayStep id) self.old (line (event.Step id) (reported.Named name (option_copied shown.entry))) result self.new }
    {
        if !self.names.may_name(id, name, shown) {
            return Err(Fault::Unlawful(Reason::Name));
        }
        self.names.name(id, name);
        Ok(())
    }

    /// Judges that a participant, which may step, is spent.
    fn spend(&mut self, id: u64) -> Result<(), Fault>
        ensures { Judges (MayStep id) self.old (line (event.Step id) reported.Spent) result self.new }
    {
        if !self.names.is_last_turn(id) {
            return Err(Fault::Unlawful(Reason::Proposal));
        }
        if !self.names.has_conflict(id) {
            return Err(Fault::Unlawful(Reason::View));
        }
        self.names.spend(id);
        Ok(())
    }

    /// Judges that an identity, which may enter, enters.
    fn enter(&mut self, id: u64) -> Result<(), Fault>
        ensures { Judges (MayEnter id) self.old (line (event.Enter id) reported.Ok) result self.new }
    {
        self.stays.enter(id)?;
        Ok(())
    }

    /// Judges that an identity, which may probe, misses.
    fn miss(&mut self, id: u64) -> Result<(), Fault>
        ensures { Judges (MayProbe id) self.old (line (event.Probe id) reported.Missed) result self.new }
    {
        if !self.stays.may_miss(id) {
            return Err(Fault::Unlawful(Reason::Pool));
        }
        self.stays.miss(id);
        Ok(())
    }

    /// Judges that an identity, which may probe, gets a number, by one probe or by as many as it takes.
    fn gain(&mut self, id: u64, number: u64) -> Result<(), Fault>
        ensures probe { Judges (MayProbe id) self.old (line (event.Probe id) (reported.Got number)) result self.new }
        ensures seek { Judges (MayProbe id) self.old (line (event.Seek id) (reported.Got number)) result self.new }
    {
        if !self.stays.is_free(number) {
            return Err(Fault::Unlawful(Reason::Pool));
        }
        self.stays.gain(id, number);
        Ok(())
    }

    /// Judges that the holder of a number gives it back.
    fn leave(&mut self, id: u64, number: u64) -> Result<(), Fault>
        ensures { Judges (HoldsNumber id) self.old (line (event.Leave id) (reported.Left number)) result self.new }
    {
        let Ok(held) = self.stays.number_of(id) else {
            return Err(Fault::Unlawful(Reason::Refusal));
        };
        if held != number {
            return Err(Fault::Unlawful(Reason::Pool));
        }
        self.stays.leave(id);
        Ok(())
    }

    /// Judges that the holder of a number puts a value.
    fn put(&mut self, id: u64, value: u64) -> Result<(), Fault>
        ensures { Judges (HoldsNumber id) self.old (line (event.Put id value) reported.Ok) result self.new }
    {
        let Ok(held) = self.stays.number_of(id) else {
            return Err(Fault::Unlawful(Reason::Refusal));
        };
        self.stays.store(held, value);
        Ok(())
    }

    /// Judges that the holder of a number gets the value in its slot.
    fn get(&self, id: u64, value: u64) -> Result<(), Fault>
        ensures { Judges (HoldsNumber id) self.now (line (event.Get id) (reported.Value value)) result self.now }
    {
        let Ok(held) = self.stays.number_of(id) else {
            return Err(Fault::Unlawful(Reason::Refusal));
        };
        if !self.stays.has_value(held, value) {
            return Err(Fault::Unlawful(Reason::Pool));
        }
        Ok(())
    }

    /// Judges that the pool, which may, gets more numbers.
    fn widen(&mut self, more: u64) -> Result<(), Fault>
        ensures { Judges (MayWiden more) self.old (line (event.Widen more) reported.Ok) result self.new }
    {
        self.stays.widen(more)?;
        Ok(())
    }

    /// Judges the reply to a step.
    fn step(&mut self, id: u64, reported: &Reported) -> Result<(), Fault>
        ensures { JudgesWithRoom (IsDueSo (event.Step id) reported.now) self.old (line (event.Step id) reported.now) result self.new }
    {
        match reported {
            Reported::Place(place) => self.place(id, *place),
            Reported::Proposed(number) => self.propose(id, *number),
            Reported::Saw(view) => self.see(id, view),
            Reported::Named(name, shown) => self.name(id, *name, shown.as_ref()),
            Reported::Spent => self.spend(id),
            _ => Ok(()),
        }
    }

    /// Judges the reply to a probe.
    fn probe(&mut self, id: u64, reported: &Reported) -> Result<(), Fault>
        ensures { Judges (IsDueSo (event.Probe id) reported.now) self.old (line (event.Probe id) reported.now) result self.new }
    {
        match reported {
            Reported::Missed => self.miss(id),
            Reported::Got(number) => self.gain(id, *number),
            _ => Ok(()),
        }
    }

    /// Judges a reply of the event's command, of which a refusal is the one due, and updates the objects.
    fn follow(&mut self, event: Event, reported: &Reported) -> Result<(), Fault>
        ensures { JudgesWithRoom (IsDueSo event reported.now) self.old (line event reported.now) result self.new }
    {
        match event {
            Event::Begin(id) => match reported {
                Reported::Ok => self.begin(id),
                _ => Ok(()),
            },
            Event::Step(id) => self.step(id, reported),
            Event::Enter(id) => match reported {
                Reported::Ok => self.enter(id),
                _ => Ok(()),
            },
            Event::Probe(id) => self.probe(id, reported),
            Event::Seek(id) => match reported {
                Reported::Got(number) => self.gain(id, *number),
                _ => Ok(()),
            },
            Event::Leave(id) => match reported {
                Reported::Left(number) => self.leave(id, *number),
                _ => Ok(()),
            },
            Event::Put(id, value) => match reported {
                Reported::Ok => self.put(id, value),
                _ => Ok(()),
            },
            Event::Get(id) => match reported {
                Reported::Value(value) => self.get(id, *value),
                _ => Ok(()),
            },
            Event::Widen(more) => match reported {
                Reported::Ok => self.widen(more),
                _ => Ok(()),
            },
        }
    }

    /// Judges a line, and updates the objects.
    fn take_line(&mut self, line: &Line) -> Result<(), Fault>
        ensures { Judges HasRoom self.old line.now result self.new }
    {
        if !line.reported.is_reply_of(line.event) {
            return Err(Fault::Unlawful(Reason::Reply));
        }
        let due = self.refusal_due(line.event);
        if !is_refused_as_due(due, self.may_lack(line.event), &line.reported) {
            return Err(Fault::Unlawful(Reason::Refusal));
        }
        self.follow(line.event, &line.reported)
    }

    /// Takes a line and returns `None`, if it can follow the lines before it. Otherwise returns the least reason that
    /// fits.
    ///
    /// After a reason or an error the checker is of no use.
    ///
    /// # Errors
    ///
    /// `AllocError`: the allocation failed.
    pub fn judge(&mut self, line: &Line) -> Result<Option<Reason>, AllocError>
        ensures { IfOk result (λ r. TakesMore line.now self.old r self.new) }
    {
        match self.take_line(line) {
            Ok(()) => Ok(None),
            Err(fault) => fault.reported(),
        }
    }
}
