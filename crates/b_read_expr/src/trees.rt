//! The tree of a list of lexemes.
ghost use Rattle.b_read_expr.specs.Answers as spec;

use crate::Unread;
use crate::reading::{PLAIN, formula};
use crate::steps::no_tree;
use b_ast::Formula;
use b_grammar::Lexeme;
use std::alloc::Global;

/// The tree that the grammar has for the lexemes. It takes time in proportion to their number. The stack grows with the
/// brackets that are open at one place, by 2.4 KB for each as LLVM builds it, and with nothing else.
pub fn tree_of(alloc: Global, lexemes: &[Lexeme]) -> Result<Formula, Unread>
    ensures { spec.IsTreeOf lexemes.now result }
{
    let (tree, rest) = formula(alloc, lexemes, &PLAIN, lexemes.len())?;
    if rest.is_empty() {
        Ok(tree.into_inner())
    } else {
        Err(no_tree(rest))
    }
}
