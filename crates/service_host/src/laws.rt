//! What a turn of the loop is over a hall and its journal.

ghost use Rattle.std.specs.Prelude.{◌≡◌, ◌≤◌, List, [], Option, length};
ghost use Rattle.service_hall.specs.Halls.{SatisfiesSpec};
ghost use Rattle.service_hall.specs.Reading.{stored};
ghost use Rattle.service_journal.specs.WriteAheadState.{WriteAheadState};
ghost use Rattle.service_journal.specs.Journals.{Stands};
ghost use Rattle.text_player.specs.Shared.{all_turns};
ghost use Rattle.service_loop.specs.Seats.{LoopIteration, Seating};
ghost use Rattle.service_host.specs.declared.persisters.Recorded.{Recorded};
ghost use Rattle.service_host.specs.declared.reading.Reading.{Reading};
ghost use Rattle.service_loop.specs.Rounds.{WasServed};
ghost use Rattle.service_host.specs.Hosting.{IsHosted, WasHosted};
ghost use Rattle.service_host.specs.Kept.{KeptBy, Rests};
ghost use Rattle.service_host.specs.Readings.{ReadingServes};

use service_hall::{law_of_events, law_of_reads};
use service_journal::{Disk, law_of_crashes};

/// A law, which runs nothing, of what `service_loop::host` does to a write-ahead hall whose journal stands, kept by `Recorded`, as long as it runs: at
/// its end header and journal are the record of what was committed of a lawful hall of the same config, and synced.
pub fn law_of_hosted_journals<D: Disk>()
    ensures { (k l : Recorded D) (c u : Reading WriteAheadState) → SatisfiesSpec c.service.hall → c.service.reported ≤ length c.service.hall.history →
        Stands D.state k.journal c.service →
        WasServed ReadingServes (λ j w lines i v. Rests j w i v) (KeptBy D.state) (λ j w i v. Rests j w i v) k c l u →
        WasHosted D.state c l.journal u }
{
    law_of_events();
    law_of_reads();
}

/// A law, which runs nothing, of what a turn of the loop (`service_loop::iterate`) is over a write-ahead hall whose journal stands, kept by `Recorded`.
///
/// - `hosted`: all turns are answered as is due in their one order. The history has gained just their accepted events, without plain reads,
///   and may have been compacted then. Header and journal are its record, and synced, when replies are sent. Each connection is sent the
///   replies to its own lines, and a crash leaves all that was answered and stored (`law_of_crashes`).
/// - `idle`: a turn of plain reads alone, and of what the rules bar, leaves the write-ahead hall as it was, so that nothing more is pending.
pub fn law_of_hosting<C, D: Disk>()
    ensures hosted { (on : Seating C) (k l : Recorded D) (c u : Reading WriteAheadState) (seats after : List (Option C)) →
        SatisfiesSpec c.service.hall → c.service.reported ≤ length c.service.hall.history → Stands D.state k.journal c.service →
        (t : LoopIteration on ReadingServes (KeptBy D.state) k c seats l u after) →
        IsHosted on D.state t.log k.journal c seats l.journal u after }
    ensures idle { (on : Seating C) (k l : Recorded D) (c u : Reading WriteAheadState) (seats after : List (Option C)) →
        (t : LoopIteration on ReadingServes (KeptBy D.state) k c seats l u after) →
        stored c.rules (all_turns t.log) ≡ [] → t.reported ≡ c }
{
    law_of_reads();
    law_of_crashes();
}
