//! Laws of slots, which run nothing.

ghost use Rattle.model_steps.specs.Machine.{IsProved};
ghost use Rattle.model_pool.specs.slots.Laws.{HasSlot};
ghost use Rattle.model_pool.specs.slots.Machine.{slots};
ghost use Rattle.model_pool.specs.slots.Tokens.{TokensRise};

/// A law: slots are a machine whose calls extend its history.
///
/// Each history, with every prefix, keeps the law of the slots. Each call's reply is one that the object may give after
/// the calls before it. So a call fails if and only if that is due. The number that an identity holds has a slot.
pub fn law_of_slot_calls<T>()
    ensures machine { IsProved (slots {T = T}) }
    ensures there { HasSlot T }
{}

/// A law of fencing tokens: the slot of a number keeps its value when the number changes hands.
///
/// Let each holder of a number get the value of its slot, and put one more: its token. Then each token is above all
/// tokens before it. So whoever compares tokens refuses a holder that was followed by another.
pub fn law_of_tokens()
    ensures { TokensRise }
{}
