//! Laws of what is played, which run nothing.

ghost use Rattle.std.specs.Prelude.{◌≡◌, true, List};
ghost use Rattle.model_asked.specs.Config.{gives_names};
ghost use Rattle.model_asked.specs.declared.config.Config.{Config};
ghost use Rattle.text_player.specs.Runs.{CouldRun, NoneRefusedGrowth};
ghost use Rattle.text_player.specs.Turns.{Turn};
ghost use Rattle.text_worlds.specs.Granted.{granted};
ghost use Rattle.text_worlds.specs.IsTranscript.{IsTranscript};
ghost use Rattle.text_worlds.specs.OneTranscript.{IsOneTranscript};

use crate::world::World;
use model_asked::WorldKind;

/// A law: the events of a run of one world determine its replies, if no allocation fails.
pub fn law_of_world<D: World<A, H>, A, H>()
    ensures { (config : Config) → IsOneTranscript (CouldRun (D.fresh config) D.may) }
{}

/// A law: the lines of an input determine the replies to them, if no allocation fails.
pub fn law_of_play()
    ensures { (config : Config) → IsOneTranscript (IsTranscript config) }
{}

/// A law of the worlds with names: a transcript without its entries that failed to allocate is a transcript too.
///
/// So these entries are the one difference that failed allocations make. They occur only over a tree.
pub fn law_of_growths()
    ensures left_out { (config : Config) → gives_names config.world ≡ true → (ts : List Turn) → IsTranscript config ts → IsTranscript config (granted ts) }
    ensures only_tree { (config : Config) → config.world ≡ WorldKind.Rename → (ts : List Turn) → IsTranscript config ts → NoneRefusedGrowth ts }
{}
