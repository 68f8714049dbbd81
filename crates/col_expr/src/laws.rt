// Laws of the definitions. Each function does nothing: its clauses are the laws.
ghost use Rattle.col_expr.specs.Laws.{
  RefusalsInPostfixOrder,
  DefinedWhereNotRefused,
  LeastRefusedNode,
  CastsAreNodeAnswers,
  OperatorsAreNodeAnswers,
  RightScalarsAreNodeAnswers,
  LeftScalarsAreNodeAnswers,
  UnitChangesAreNodeAnswers,
  MemoryAlone,
  OutcomesNameTheirNode,
  TreesReadBack,
  OneTreeFits,
};
ghost use Rattle.col_expr.specs.ChunkLaws.{ChunksDontMatter};

/// The recursion that finds the first refused node agrees with a search through the list of all
/// nodes in postfix order.
pub fn refusals_in_postfix_order()
    ensures law { RefusalsInPostfixOrder }
{}

/// Where no node of a tree is refused, its name, type and rows are defined. Else the first refusal
/// is that of the least refused node, and that node's operands are defined.
pub fn defined_up_to_the_first_refusal()
    ensures defined { DefinedWhereNotRefused }
    ensures least { LeastRefusedNode }
{}

/// The calls that nodes make are refused for the causes of nodes alone, none of which is told as
/// want of memory, so that the refusal of a tree always names its node.
pub fn refusals_name_their_node()
    ensures casts { CastsAreNodeAnswers }
    ensures operators { OperatorsAreNodeAnswers }
    ensures right_scalars { RightScalarsAreNodeAnswers }
    ensures left_scalars { LeftScalarsAreNodeAnswers }
    ensures unit_changes { UnitChangesAreNodeAnswers }
    ensures memory { MemoryAlone }
    ensures outcomes { OutcomesNameTheirNode }
{}

/// The nodes of each tree within the limits are read as that tree, and at most one tree has a
/// given list of nodes.
pub fn one_tree_fits()
    ensures read_back { TreesReadBack }
    ensures only { OneTreeFits }
{}

/// Chunks don't matter: over columns that are equal and differ in their chunks alone, `evaluate`
/// and `evaluate_folded` answer equal columns or refuse the same node for the same cause, unless
/// memory is wanting. They take as many steps, the same plans are valid, and the same one is found.
pub fn chunks_do_not_matter()
    ensures law { ChunksDontMatter }
{}
