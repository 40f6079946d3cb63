//! A collect.

ghost use Rattle.std.specs.Prelude.{◌≡◌, option_copied};
ghost use Rattle.model_splitter.specs.tree.Collect.{first_collect, collect_reads, collect_after, collect_view, view_with};

use crate::tree::{CollectWalk, TreeRegister, TreeValue};
use model_steps::{Record, View};

/// A collect under way: its walk over the nodes, and the identities and values that it has read.
///
/// Its view has room for 64 pairs, as many as there are participants at most.
#[derive(Clone, Copy, Debug, Drop)]
pub struct Collect {
    /// Its walk over the nodes.
    pub walk: CollectWalk,
    /// The identities and values that it has read.
    pub view: View,
}

impl Collect {
    /// Makes a collect that has read nothing.
    pub fn new() -> Self
        ensures { result ≡ first_collect }
    {
        Collect {
            walk: CollectWalk::new(),
            view: View::new(),
        }
    }

    /// Returns the register that it reads next.
    pub fn next(&self) -> TreeRegister
        ensures { result ≡ collect_reads self.now }
    {
        self.walk.next()
    }

    /// Puts the contents of a segment into the view.
    fn gather(&mut self, segment: Option<&Record>)
        ensures view { self.new.view ≡ view_with self.old.view (option_copied segment.entry) }
        ensures walk { self.new.walk ≡ self.old.walk }
    {
        if let Some(found) = segment {
            if !self.view.is_full() {
                self.view.insert(found.identity, found.value);
            }
        }
    }

    /// Takes the value that was read. Returns the view if the walk is over.
    pub fn resume(&mut self, got: &TreeValue) -> Option<View>
        ensures after { self.new ≡ collect_after self.old got.now }
        ensures view { result ≡ collect_view self.old got.now }
    {
        self.gather(CollectWalk::content(got));
        if self.walk.resume(got) {
            Some(self.view)
        } else {
            None
        }
    }
}
