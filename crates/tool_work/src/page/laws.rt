//! What a page stands on.

ghost use Rattle.std.specs.Prelude.{◌≡◌, ℕ, false, List, Option, decimal};
ghost use Rattle.model_asked.specs.declared.config.Config.{Config};
ghost use Rattle.model_asked.specs.declared.event.Event.{Event};
ghost use Rattle.text_worlds.specs.declared.desk.coming.Coming.{Coming};
ghost use Rattle.text_records.specs.ReportedWords.{reported_words};
ghost use Rattle.text_records.specs.declared.line.Line.{Line};
ghost use Rattle.text_records.specs.declared.reported.Reported.{Reported};
ghost use Rattle.text_lines.specs.Events.{event_words};
ghost use Rattle.text_worlds.specs.declared.desk.coming.Register.{Register};
ghost use Rattle.tool_work.specs.declared.page.form.Form.{Form};
ghost use Rattle.tool_work.specs.declared.page.standing.Standing.{Standing};
ghost use Rattle.tool_work.specs.declared.page.state.TheConstants.{MOST_NAMES};
ghost use Rattle.tool_work.specs.declared.page.stretch.Stretch.{Stretch};
ghost use Rattle.tool_work.specs.page.Access.{access_words, register_words};
ghost use Rattle.tool_work.specs.page.Page.{page_data, has_tag};
ghost use Rattle.tool_work.specs.page.Standing.{standing_words};

/// A law: what a page has of its record contains no `<`, so it can neither end the element that holds it nor begin another.
///
/// This is all the data, and of an item each text that stands between its tags.
pub fn law_of_data()
    ensures all { (c : Config) (s : Stretch) (lines : List Line) → has_tag (page_data c s lines) ≡ false }
    ensures events { (e : Event) → has_tag (event_words e) ≡ false }
    ensures registers { (r : Register) → has_tag (register_words r) ≡ false }
    ensures standings { (f : Form) (s : Standing) → has_tag (standing_words f s) ≡ false }
    ensures accesses { (a : Option Coming) → has_tag (access_words a) ≡ false }
    ensures replies { (t : Reported) → has_tag (reported_words t) ≡ false }
    ensures numbers { (n : ℕ) → has_tag (decimal n) ≡ false }
{}

/// A law: how many names a page looks for.
pub fn law_of_limits()
    ensures { MOST_NAMES ≡ 127 }
{}
