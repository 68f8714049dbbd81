// Laws of plans. Each function does nothing: its contract is the law.
ghost use Rattle.col_expr.specs.PlanLaws.{ValidPlansAreKept, FoundPlansAreValid};

/// Under a valid plan each valid slot of a covered node lies in its interval, nothing of it was
/// wrapped, and none is null whose operands' slots are valid: it is the exact value.
pub fn valid_plans_are_kept()
    ensures law { ValidPlansAreKept }
{}

/// The plan that the columns give is valid.
pub fn found_plans_are_valid()
    ensures law { FoundPlansAreValid }
{}
