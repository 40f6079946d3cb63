//! What a crash leaves of a journal, and what is opened of that.

ghost use Rattle.std.specs.Prelude.{◌≡◌, ◌≤◌, ℕ, List, [], length};
ghost use Rattle.text_lines.specs.Lines.{rest_of};
ghost use Rattle.text_records.specs.Seals.{lines_in};
ghost use Rattle.text_records.specs.declared.seals.LineForm.TheVariants.{Plain, Sealed};
ghost use Rattle.service_journal.specs.SealedDisks.{opened_state};
ghost use Rattle.service_hall.specs.HallState.{HallState};
ghost use Rattle.service_journal.specs.DiskState.{DiskState};
ghost use Rattle.service_journal.specs.WriteAheadState.{WriteAheadState};
ghost use Rattle.service_journal.specs.Disks.{MayLeave, MayLeaveEither};
ghost use Rattle.service_journal.specs.WriteAheads.{record_of_hall};
ghost use Rattle.service_journal.specs.Compactings.{LeavesEither};
ghost use Rattle.service_journal.specs.Journals.{HasSynced, IsHallOf, KeepsHandedOn, LeavesHall, RecordsHallAfter};
ghost use Rattle.service_journal.specs.declared.write_ahead.TheConstants.{MOST_WAITING};

use text_player::law_of_lines;
use text_records::law_of_seals;

/// A law: what a crash leaves of a journal, if all that was committed is on its disk.
///
/// It leaves the record of a prefix of the history, which has all events that were committed. If the record of another hall replaces all
/// bytes, as that of a compacted hall does, the crash leaves such a prefix or that record, whole. The hall that is opened of what is left
/// has that record.
pub fn law_of_crashes()
    ensures between { (c : WriteAheadState) (s : DiskState) → HasSynced c s → c.reported ≤ length c.hall.history → KeepsHandedOn c s s }
    ensures replaced { (c : WriteAheadState) (new : HallState) (s : DiskState) → HasSynced c s → c.reported ≤ length c.hall.history →
        (left : List ℕ) → MayLeaveEither s (record_of_hall new) left → LeavesEither c new left }
    ensures opened { (h u : HallState) (least : ℕ) (left : List ℕ) →
        LeavesHall h least left → IsHallOf u left → u.config ≡ h.config → RecordsHallAfter h least u }
{
    law_of_lines();
}

/// A law: what a crash leaves of a disk whose lines are sealed.
///
/// It is what a crash may leave of a disk with the lines alone. If sealed lines replace all bytes, it is such lines or these, whole.
pub fn law_of_sealed_crashes()
    ensures between { (s t : DiskState) (left : List ℕ) → MayLeave s t left → MayLeave (opened_state s) (opened_state t) (lines_in Plain left) }
    ensures replaced { (s : DiskState) (lines left : List ℕ) → rest_of lines ≡ [] → MayLeaveEither s (lines_in Sealed lines) left →
        MayLeaveEither (opened_state s) lines (lines_in Plain left) }
{
    law_of_seals();
}

/// A law: the most bytes that the pending lines may have.
pub fn law_of_limits()
    ensures { MOST_WAITING ≡ 1048576 }
{}
