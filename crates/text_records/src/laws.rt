//! Laws of the lines of records, which run nothing. A checker of records uses them.

ghost use Rattle.std.specs.Prelude.{◌≡◌, ◌++◌, [], ℕ, true, List};
ghost use mathlib.Core.List.{IsPrefix};
ghost use Rattle.text_lines.specs.Lines.{rest_of};
ghost use Rattle.text_records.specs.Seals.{lines_in, opened_line, sealed_line};
ghost use Rattle.text_records.specs.declared.seals.LineForm.TheVariants.{Plain, Sealed};
ghost use Rattle.model_asked.specs.declared.config.Config.{Config};
ghost use Rattle.model_asked.specs.declared.kind.WorldKind.{WorldKind};
ghost use Rattle.model_asked.specs.Config.{gives_names};
ghost use Rattle.text_lines.specs.Meaning.{meaning};
ghost use Rattle.text_player.specs.Records.{record_of};
ghost use Rattle.text_player.specs.Turns.{Turn, exchanges};
ghost use Rattle.text_records.specs.declared.header.Header.{Header};
ghost use Rattle.text_records.specs.declared.header.Version.{Version};
ghost use Rattle.text_records.specs.declared.line.Line.{Line};
ghost use Rattle.text_records.specs.Narrow.{IsNarrowEvent, AreNarrowExchanges, IsNarrow, FitsReported};
ghost use Rattle.text_records.specs.RecordLine.{IsEventLine, IsHeaderLine};
ghost use Rattle.text_records.specs.Records.{IsRecordOf, AreSame};

/// A law: bytes are at most one line of an event, and as a header they have one version, one world and one of each
/// size.
///
/// The world of a header gives names. The numbers of a line fit a record: they are below 2^64, and places below 2^128.
pub fn law_of_lines()
    ensures line { (kind : WorldKind) (version : Version) (row : List ℕ) (l k : Line) →
        IsEventLine kind version row l → IsEventLine kind version row k → l ≡ k }
    ensures header { (head : List ℕ) (g h : Header) → IsHeaderLine head g → IsHeaderLine head h → AreSame g h }
    ensures names { (head : List ℕ) (h : Header) → IsHeaderLine head h → gives_names h.config.world ≡ true }
    ensures asked { (kind : WorldKind) (line : List ℕ) → IsNarrow kind (meaning kind line) }
    ensures narrow { (kind : WorldKind) (version : Version) (row : List ℕ) (l : Line) →
        IsEventLine kind version row l → IsNarrowEvent kind l.event × FitsReported l.reported }
{}

/// A law of the worlds with names, of what `record` of `text_worlds` writes of a transcript whose numbers fit.
///
/// It is a header of version 2 and then a line for each exchange, in order. The line is read as that exchange, with the
/// view of a name.
pub fn law_of_written_records()
    ensures { (c : Config) → gives_names c.world ≡ true → (ts : List Turn) → AreNarrowExchanges c.world (exchanges ts) →
        IsRecordOf c (exchanges ts) (record_of c ts) }
{}

/// A law of sealed lines. A line that was sealed is opened as it was. The lines of a text, sealed and opened, are the text, if nothing follows
/// its last LF. What is opened of the beginning of a text is a beginning of what is opened of all of it.
pub fn law_of_seals()
    ensures line { (line : List ℕ) → opened_line (sealed_line line) ≡ line }
    ensures whole { (text : List ℕ) → rest_of (lines_in Sealed text) ≡ [] }
    ensures text { (text : List ℕ) → rest_of text ≡ [] → lines_in Plain (lines_in Sealed text) ≡ text }
    ensures behind { (front more : List ℕ) → rest_of front ≡ [] → lines_in Plain (front ++ more) ≡ lines_in Plain front ++ lines_in Plain more }
    ensures rest { (front more : List ℕ) → rest_of front ≡ [] → rest_of (front ++ more) ≡ rest_of more }
    ensures part { (front text : List ℕ) → IsPrefix front text → IsPrefix (lines_in Plain front) (lines_in Plain text) }
{
    text_lines::law_of_lines();
}
