//! The law of traces: what is read from the text of a closed tree is a closed tree.

ghost use Rattle.std.specs.Prelude.{◌≡◌, ℕ, List, [], length};
ghost use Rattle.std.specs.List.{flat_map};
ghost use Rattle.tree_words.specs.Closing.{ClosedTree};
ghost use Rattle.trace_audit.specs.Told.{TellsClosed};
ghost use Rattle.trace_audit.specs.Traces.{trace_text};
ghost use Rattle.trace_audit.specs.Verdicts.{AreTexts, AreTrees, IsClosedTree, IsVerdictOn};
ghost use Rattle.trace_audit.specs.declared.types.Audit.{Audit};

/// The law of traces: what is read from the text of a closed tree is a closed tree. Its shape is
/// that of the tree, and its words are those below NEXT, the others being 0. It does nothing.
pub fn traces_tell_closed_trees()
    ensures { (tree : ClosedTree) → IsClosedTree tree → TellsClosed tree (trace_text tree) }
{}

/// The law that traces are audited: the texts of closed trees, one after another, have the verdict
/// `Yes`, with their number. It does nothing.
pub fn traces_are_texts_of_closed_trees()
    ensures { (trees : List ClosedTree) → AreTrees trees
        → AreTexts (length trees) [] (flat_map trace_text trees) }
{}

/// The law that bytes have one verdict: they are the texts of closed trees if an audit answers
/// `Yes`, and nowhere else, and a `No` names their one first flaw. It does nothing.
pub fn bytes_have_one_verdict()
    ensures { (bytes : List ℕ) (v w : Audit) → IsVerdictOn bytes v → IsVerdictOn bytes w → v ≡ w }
{}
