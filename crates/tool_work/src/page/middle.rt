//! What stands between the parts of a page.

ghost use Rattle.std.specs.Prelude.{◌≡◌};
ghost use Rattle.tool_work.specs.page.Page.{page_between, page_middle};

/// What stands between the data and the last state.
pub const MIDDLE: &str = r#"</pre>
</details>
<section class="card still" id="still">
<h2>After the last event</h2>
<p>Each participant with the access that it makes next, its place, its name and its number of the pool, which it probes or holds with
what is in its slot; what stands in the registers and segments that were reached, names, slots, and the size of the pool.</p>
<ul>
"#;

/// What stands between the last state and the events.
pub const BETWEEN: &str = r#"</ul>
<h2>Space and time</h2>
<p>One lane a participant, and time goes down: the event, the access that it made, and its reply.</p>
<ol>
"#;

/// The bytes between the data and the last state.
pub(crate) fn middle() -> &'static [u8]
    ensures { result.now ≡ page_middle }
{
    MIDDLE.as_bytes()
}

/// The bytes between the last state and the events.
pub(crate) fn between() -> &'static [u8]
    ensures { result.now ≡ page_between }
{
    BETWEEN.as_bytes()
}
