//! Laws of the words: what the opening words are, what a link tells, and that words show one tree.

ghost use Rattle.std.specs.Prelude.{◌≡◌, ℕ, List};
ghost use Rattle.tree_words.specs.Settings.{Setting, IsSetting};
ghost use Rattle.tree_words.specs.Blocks.{LinkedBlock};
ghost use Rattle.tree_words.specs.Complete.{Linked};
ghost use Rattle.tree_words.specs.Opening.{AreOpening, ShowRootBlock, opening_words};
ghost use Rattle.tree_words.specs.Trees.{ShowOneTree};
ghost use Rattle.tree_words.specs.Told.{LinkSameBlocks, TellsLinkedBlocks, TellsNodes};

/// The law of the opening words: each setting has its own, no other words are opening words of it,
/// and they link one block, the root's, which has a node. It does nothing.
pub fn opening_words_are_told()
    ensures are { (s : Setting) → IsSetting s → AreOpening s (opening_words s) }
    ensures one { (s : Setting) (words : List ℕ) → IsSetting s → AreOpening s words
        → words ≡ opening_words s }
    ensures root { (s : Setting) (words : List ℕ) → IsSetting s → AreOpening s words
        → ShowRootBlock s words }
{}

/// The law of known blocks: who knows some of the linked blocks knows the boards of their nodes. If
/// the link of such a node is not 0, it and the node's board determine the linked block. It does
/// nothing.
pub fn told_blocks_are_linked()
    ensures nodes { (s : Setting) (words : List ℕ) (blocks : List LinkedBlock)
        → Linked s words blocks → TellsNodes s blocks }
    ensures blocks { (s : Setting) (words : List ℕ) (blocks : List LinkedBlock)
        → IsSetting s → Linked s words blocks → TellsLinkedBlocks s words blocks }
{}

/// The law that words show one tree: of two lists of blocks that they link, each block of one is in
/// the other, and the trees that they show are the same. It does nothing.
pub fn words_show_one_tree()
    ensures blocks { (s : Setting) (words : List ℕ) → IsSetting s → LinkSameBlocks s words }
    ensures tree { (s : Setting) (words : List ℕ) → IsSetting s → ShowOneTree s words }
{}
