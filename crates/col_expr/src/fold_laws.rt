// Laws of folding. Each function does nothing: its clauses are the laws.
ghost use Rattle.col_expr.specs.FoldLaws.{FoldingChangesNoAnswer, KnownChains, KnownReturns};
ghost use Rattle.col_expr.specs.FoldLaws.{JoinedCastsAreOne, TurnedCastsGiveBack};

/// A folded expression has the column of the whole one, or its first refused node, under every
/// plan.
pub fn folding_changes_no_answer()
    ensures law { FoldingChangesNoAnswer }
{}

/// Two casts from unit to unit that go on are one, and one to a finer unit that loses no slot gives
/// the column back with the one that turns back; the sorted flag is the same in both cases.
pub fn rules_of_folding()
    ensures joined { JoinedCastsAreOne }
    ensures turned { TurnedCastsGiveBack }
{}

/// Steps of folded expressions, by hand.
#[tactic(auto, unfolding(col_model::specs::Formula::spanned))]
pub fn known_folds()
    ensures chains { KnownChains }
    ensures returns { KnownReturns }
{}
