// The trees that an expression's tokens have built so far.
ghost use Rattle.std.specs.Prelude.{◌≡◌, [], ◌∷◌, OnOk, IfSome, IfNone};

use col_expr::Expr;
use std::alloc::{AllocError, Global};
use std::marker::Model;

/// A stack of expressions. A contract sees it as their trees, the top first.
#[derive(Drop)]
pub(crate) struct Stack {
    trees: Vec<Expr>,
}

impl Model for Stack {
    ghost use Rattle.std.specs.Prelude.{List, reverse};
    ghost use Rattle.std.specs.Coded.{coded_list};
    ghost use Rattle.col_expr.specs.Tree.{Tree};
    ghost use Rattle.col_expr.specs.TreeCode.{tree_code};

    ghost Value = { List Tree };

    ghost coded = { coded_list tree_code };

    ghost view = { λ s. reverse s.trees.items };
}

impl Stack {
    /// No expressions. It takes no memory.
    pub(crate) fn new(alloc: Global) -> Stack
        ensures empty { result ≡ [] }
    {
        Stack {
            trees: Vec::new(alloc),
        }
    }

    /// Lays an expression on top.
    pub(crate) fn push(&mut self, tree: Expr) -> Result<(), AllocError>
        ensures top { OnOk result (self.new ≡ tree ∷ self.old) }
    {
        Ok(self.trees.push(tree)?)
    }

    /// Takes the expression from the top.
    pub(crate) fn pop(&mut self) -> Option<Expr>
        ensures top { IfSome result (λ tree. self.old ≡ tree ∷ self.new) }
        ensures none { IfNone result (self.old ≡ []) }
    {
        self.trees.pop()
    }
}
