//! The lines of a record as JSON values.

ghost use Rattle.std.specs.Prelude.{◌≡◌, ℕ, List, MatchOption, Option, option_map, true, false};
ghost use Rattle.std.specs.Option.{option_copied};
ghost use Rattle.serde_json.specs.View.{view};
ghost use Rattle.model_asked.specs.Config.{gives_names, world_name};
ghost use Rattle.model_asked.specs.declared.kind.WorldKind.{WorldKind};
ghost use Rattle.text_records.specs.Json.{keys_of, text_at, number_at, AreTexts, HasFormat, SaysSizes, SaysNoSizes, IsHeader};
ghost use Rattle.text_records.specs.declared.header.Header.{Header};
ghost use Rattle.text_records.specs.declared.header.Version.{Version};

use crate::header::{Header, Version};
use model_asked::{Config, WorldKind};
use serde_json::Value;
use text_lines::words::is_word;

/// The number of keys of an object.
fn keys(value: &Value) -> Option<usize>
    ensures { result ≡ keys_of (view value.now) }
{
    match value.as_object() {
        Some(members) => Some(members.len()),
        None => None,
    }
}

/// The text at a key.
fn text<'a>(value: &'a Value, key: &str) -> Option<&'a str>
    ensures { option_map (λ s. s.now) result ≡ text_at key.now (view value.now) }
{
    value.get(key).and_then(Value::as_str)
}

/// The whole number at a key.
fn number(value: &Value, key: &str) -> Option<u64>
    ensures { result ≡ number_at key.now (view value.now) }
{
    value.get(key).and_then(Value::as_u64)
}

/// The texts of an event's line.
#[derive(Clone, Copy, Debug, Drop)]
pub struct LineTexts<'a> {
    /// The command.
    pub command: &'a [u8],
    /// The reply.
    pub reply: &'a [u8],
    /// The view by which a name was given, if one is written.
    pub view: Option<&'a [u8]>,
}

/// Returns the texts of an event's line, or `None` if the value has other keys or other types.
pub fn texts(value: &Value) -> Option<LineTexts<'_>>
    ensures { MatchOption result ((c r : List ℕ) (v : Option (List ℕ)) → AreTexts (view value.now) c r v → ⊥)
        (λ t. AreTexts (view value.now) t.command.now t.reply.now (option_copied t.view)) }
{
    let command = text(value, "command")?.as_bytes();
    let reply = text(value, "reply")?.as_bytes();
    match keys(value)? {
        2 => Some(LineTexts {
            command,
            reply,
            view: None,
        }),
        3 => Some(LineTexts {
            command,
            reply,
            view: Some(text(value, "view")?.as_bytes()),
        }),
        _ => None,
    }
}

/// The world with a name, if it gives names.
fn world(name: &str) -> Option<WorldKind>
    ensures { MatchOption result ((world : WorldKind) → world_name world ≡ name.now → gives_names world ≡ false)
        (λ world. (world_name world ≡ name.now) × (gives_names world ≡ true)) }
{
    let world = WorldKind::named(name)?;
    if !world.gives_names() {
        return None;
    }
    Some(world)
}

/// The numbers of a header, in their ranges or not.
#[derive(Clone, Copy, Drop)]
struct Sizes {
    version: Version,
    world: WorldKind,
    m: u64,
    k: u64,
    limit: u64,
}

/// The version of a value that has the keys and the format of a header.
fn version(value: &Value) -> Option<Version>
    ensures { MatchOption result ((v : Version) → HasFormat (view value.now) v → ⊥) (HasFormat (view value.now)) }
{
    let format = text(value, "format")?;
    if keys(value)? != 6 || !is_word(format.as_bytes(), b"slot-record") {
        return None;
    }
    Version::of_number(number(value, "version")?)
}

/// The numbers of a header.
fn said_sizes(value: &Value) -> Option<Sizes>
    ensures { MatchOption result (SaysNoSizes (view value.now)) (λ s. SaysSizes (view value.now) s.version s.world s.m s.k s.limit) }
{
    Some(Sizes {
        version: version(value)?,
        world: world(text(value, "world")?)?,
        m: number(value, "m")?,
        k: number(value, "k")?,
        limit: number(value, "limit")?,
    })
}

/// Returns the header that a value is, or `None` if it is none or a number is out of its range.
pub fn header(value: &Value) -> Option<Header>
    ensures { MatchOption result ((h : Header) → IsHeader (view value.now) h → ⊥) (λ h. IsHeader (view value.now) h) }
{
    let Some(sizes) = said_sizes(value) else {
        return None;
    };
    let version = sizes.version;
    if !version.fits(sizes.m) {
        return None;
    }
    match Config::new(sizes.world, sizes.m, sizes.k, sizes.limit) {
        Ok(config) => Some(Header { version, config }),
        Err(_) => None,
    }
}
