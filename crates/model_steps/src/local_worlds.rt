//! A law of worlds of programs over registers in a row, which threads can take access by access.

ghost use Rattle.model_steps.specs.LocalWorlds.{TakesLocally};

/// A law of a world of programs over registers in a row, none of which sets a bit.
///
/// Each program that has begun and has not ended makes one access, as it says. A program that has not begun begins with
/// that access.
pub fn law_of_local_worlds<P, V, O>()
    ensures { TakesLocally P V O }
{}
