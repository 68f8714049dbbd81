//! A law above the definitions. The function does nothing: its contract is the law.

ghost use Rattle.col_civil.specs.Laws.{DatesComeBack};

/// A column that is made of dates shows the same days.
#[tactic(auto, using(crate::proofs::BackLaws::dates_come_back))]
pub fn dates_come_back()
    ensures law { DatesComeBack }
{}
