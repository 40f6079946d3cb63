//! Laws of the invariants of the two tables, which run nothing.

ghost use Rattle.std.specs.Prelude.{ℕ, List};
ghost use Rattle.model_splitter.specs.Invariant.{IsSplitter};
ghost use Rattle.words_machine.specs.parts.BoardRule.{HoldsWhatIsClaimed, HasOneIdentity, IsClaimedWhereNotZero};
ghost use Rattle.words_machine.specs.parts.SplitterRule.{IsKept, MeetsWhomItNames};
ghost use Rattle.words_machine.specs.declared.parts.splitter_view.SplitterView.{SplitterView};

/// A law: under the table's invariant, the seats of the splitter keep its law.
///
/// Of those that have entered at most one stopped, not all went right, and not all went down. A visit has met the one
/// that its ghost state names: if it went right, one that has set Y, and if it went down, one that wrote X after it.
pub fn law_of_the_rule()
    ensures split { (seats : ℕ) (words : List ℕ) (views : List SplitterView) (kept : IsKept seats words views) → IsSplitter kept.stage }
    ensures met { MeetsWhomItNames }
{}

/// A law: under the table's invariant, the word of each claim holds its identity, which is not 0.
///
/// So two claims of one word, of whichever seats, are of one identity. Some seat claims each word that is not 0.
pub fn law_of_the_board()
    ensures claimed { HoldsWhatIsClaimed }
    ensures one { HasOneIdentity }
    ensures posted { IsClaimedWhereNotZero }
{}
