//! All that a desk holds.

ghost use Rattle.std.specs.Prelude.{◌≡◌, ◌++◌, [], OnOk, decimal, flat_map, if◌then◌else◌, length};
ghost use Rattle.tool_work.specs.page.Form.{fact};
ghost use Rattle.tool_work.specs.declared.page.form.Form.TheVariants.{Data};
ghost use Rattle.tool_work.specs.page.State.{held_fact, name_fact, name_facts, person, place_facts, slot_facts, size_fact, state, stranger};

use crate::page::access::put_register;
use crate::page::form::Form;
use crate::page::standing::{Standing, put_standing};
use model_pool::Competitor;
use model_steps::{Place, View};
use std::alloc::{AllocError, Global};
use text_records::Text;
use text_worlds::desk::{Desk, Register, Reply};

/// The most names that are given: 2m - 1 for 64 participants.
pub const MOST_NAMES: u64 = 127;

/// Appends where an identity stands.
fn put_person(form: Form, desk: &Desk<Global>, id: u64, out: &mut Text) -> Result<(), AllocError>
    ensures { OnOk result (out.new ≡ out.old ++ person form desk.now id) }
{
    out.put_word(form.begin(), id)?;
    out.put(form.colon())?;
    put_standing(form, &Standing::on(desk, id), out)?;
    out.put(form.end())
}

/// Appends where a competitor stands who has not begun.
fn put_stranger(
    form: Form,
    desk: &Desk<Global>,
    competitor: &Competitor,
    out: &mut Text,
) -> Result<(), AllocError>
    ensures { OnOk result (out.new ≡ out.old ++ stranger form desk.now competitor.now) }
{
    if desk.coming(competitor.identity).is_some() {
        return Ok(());
    }
    put_person(form, desk, competitor.identity, out)
}

/// Appends where each of these competitors stands who has not begun.
fn put_strangers(
    form: Form,
    desk: &Desk<Global>,
    competitors: &[Competitor],
    out: &mut Text,
) -> Result<(), AllocError>
    ensures { OnOk result (out.new ≡ out.old ++ flat_map (stranger form desk.now) competitors.now) }
{
    for competitor in competitors {
        put_stranger(form, desk, competitor, out)?;
    }
    Ok(())
}

/// Appends what stands in a register, where anything may.
fn put_held(
    form: Form,
    desk: &Desk<Global>,
    register: Register,
    out: &mut Text,
) -> Result<(), AllocError>
    ensures { OnOk result (out.new ≡ out.old ++ held_fact form desk.now register) }
{
    let Some(word) = desk.held(register) else {
        return Ok(());
    };
    out.put(form.begin())?;
    put_register(register, out)?;
    out.put_word(form.colon(), word)?;
    out.put(form.end())
}

/// Appends what stands in the registers of a place.
fn put_place_facts(
    form: Form,
    desk: &Desk<Global>,
    place: Place,
    out: &mut Text,
) -> Result<(), AllocError>
    ensures { OnOk result (out.new ≡ out.old ++ place_facts form desk.now place) }
{
    put_held(form, desk, Register::X(place), out)?;
    put_held(form, desk, Register::Y(place), out)?;
    put_held(form, desk, Register::Mark(place), out)?;
    put_held(form, desk, Register::Segment(place), out)?;
    Ok(())
}

/// Appends what stands in the registers of each of these places.
fn put_registers(
    form: Form,
    desk: &Desk<Global>,
    places: &[Place],
    out: &mut Text,
) -> Result<(), AllocError>
    ensures { OnOk result (out.new ≡ out.old ++ flat_map (place_facts form desk.now) places.now) }
{
    for place in places {
        put_place_facts(form, desk, *place, out)?;
    }
    Ok(())
}

/// Appends that this number is that of something.
fn put_fact(form: Form, of: &[u8], number: u64, is: u64, out: &mut Text) -> Result<(), AllocError>
    ensures { OnOk result (out.new ≡ out.old ++ fact form (of.now ++ decimal number) (decimal is)) }
{
    out.put(form.begin())?;
    out.put_word(of, number)?;
    out.put_word(form.colon(), is)?;
    out.put(form.end())
}

/// Appends who has a name, where one has.
fn put_name(form: Form, number: u64, reply: &Reply<View>, out: &mut Text) -> Result<(), AllocError>
    ensures { OnOk result (out.new ≡ out.old ++ name_fact form number reply.now) }
{
    match reply {
        Reply::Owner(Some(id)) => put_fact(form, b"name ", number, *id, out),
        _ => Ok(()),
    }
}

/// Appends who has which name, up to this one.
#[tactic(auto, unfolding(crate::specs::page::State::name_facts))]
fn put_names(form: Form, desk: &Desk<Global>, most: u64, out: &mut Text) -> Result<(), AllocError>
    ensures { OnOk result (out.new ≡ out.old ++ name_facts form desk.now most) }
{
    for before in 0..most {
        let number = before + 1;
        put_name(form, number, &desk.owner(number), out)?;
    }
    Ok(())
}

/// Appends what stands in each slot, that of number 1 first.
fn put_slots(form: Form, values: &[u64], out: &mut Text) -> Result<(), AllocError>
    ensures { OnOk result (out.new ≡ out.old ++ slot_facts form values.now (length values.now)) }
{
    for before in 0..values.len() {
        put_fact(form, b"slot ", before as u64 + 1, values[before], out)?;
    }
    Ok(())
}

/// Appends how many numbers the pool has.
fn put_size(form: Form, size: u64, out: &mut Text) -> Result<(), AllocError>
    ensures { OnOk result (out.new ≡ out.old ++ size_fact form size) }
{
    out.put(form.begin())?;
    out.put(b"size")?;
    out.put_word(form.colon(), size)?;
    out.put(form.end())
}

/// Appends all that a desk holds, on which these have begun and these places were reached. An error where a growth was
/// refused.
pub(crate) fn put_state(
    alloc: Global,
    form: Form,
    desk: &Desk<Global>,
    begun: &[u64],
    reached: &[Place],
    out: &mut Text,
) -> Result<(), AllocError>
    ensures { OnOk result (out.new ≡ out.old ++ state form desk.now begun.now reached.now) }
{
    for id in begun {
        put_person(form, desk, *id, out)?;
    }
    let slots = desk.slots();
    let Ok(competitors) = slots.pool().competitors(alloc) else {
        return Err(AllocError);
    };
    put_strangers(form, desk, &competitors, out)?;
    put_registers(form, desk, reached, out)?;
    put_names(form, desk, MOST_NAMES, out)?;
    put_slots(form, slots.values(), out)?;
    put_size(form, slots.pool().size(), out)
}

/// Appends all that a desk holds, as data, where that is asked for. An error where a growth was refused.
pub(crate) fn put_state_where_asked(
    alloc: Global,
    is_asked: bool,
    desk: &Desk<Global>,
    begun: &[u64],
    reached: &[Place],
    out: &mut Text,
) -> Result<(), AllocError>
    ensures { OnOk result (out.new ≡ out.old ++ (if is_asked then state Data desk.now begun.now reached.now else [])) }
{
    if is_asked {
        put_state(alloc, Form::Data, desk, begun, reached, out)?;
    }
    Ok(())
}
