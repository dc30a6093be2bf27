//! Laws of the grammar, for callers' proofs.

ghost use Rattle.std.specs.Prelude.{◌≡◌, List, ℕ};
ghost use Rattle.sgf_tree.specs.Trees.{GameTrees};
ghost use Rattle.sgf_tree.specs.Grammar.{Text};
ghost use Rattle.sgf_tree.specs.Printing.{trees_print, HasText};

/// Bytes are a text of one collection at most. What is printed is a text of what was printed. What
/// has a text by the grammar may be printed. It does nothing: its clauses are the laws.
pub fn grammar_laws()
    ensures one { (a b : GameTrees) (bytes : List ℕ) → Text a bytes → Text b bytes → a ≡ b }
    ensures printed { (trees : GameTrees) → HasText trees → Text trees (trees_print trees) }
    ensures printable { (trees : GameTrees) (bytes : List ℕ) → Text trees bytes → HasText trees }
{}
