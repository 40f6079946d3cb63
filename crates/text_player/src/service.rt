//! Services, which answer requests.

ghost use Rattle.std.specs.Prelude.{◌≡◌, Bool, true};
ghost use Rattle.model_asked.specs.Replies.{ShownReply};
ghost use Rattle.model_asked.specs.Replies.{with_view};
ghost use Rattle.model_asked.specs.Requests.{Request};
ghost use Rattle.model_asked.specs.Requests.Request.{Take, OwnerOf};

use model_asked::{Event, Reply};
use model_steps::View;

/// A service: it answers events and questions for the owner of a name, one by one, as its relation `may` allows.
pub trait Service<R> {
    /// Whether it knows a request: an event, or a question for the owner of a name.
    ghost knows: { Request → Bool };

    /// Whether it may answer a request with this reply, and then be in this state.
    ghost may: { Self → Request → ShownReply → Self → Type 0 };

    /// It may answer each request that it knows.
    ghost answers: { (w : Self) (q : Request) → knows q ≡ true → (r : ShownReply) × (u : Self) × may w q r u };

    /// Applies one event, and returns the reply. A reply that shows a view shows the one that this call stores in
    /// `view`.
    fn apply(&mut self, rt: &R, event: Event, view: &mut View) -> Reply<()>
        requires { knows (Take event) ≡ true }
        ensures { may self.old (Take event) (with_view result view.new) self.new };

    /// Returns the reply to a question for the owner of name `n`.
    fn owner(&mut self, rt: &R, n: u64) -> Reply<View>
        requires { knows (OwnerOf n) ≡ true }
        ensures { may self.old (OwnerOf n) result self.new };
}
