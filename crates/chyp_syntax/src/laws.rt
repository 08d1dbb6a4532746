// What holds of all chunks.
ghost use Rattle.std.specs.Prelude.{List};
ghost use Rattle.chyp_syntax.specs.Failing.{ArePrefixesClosed, HasOneTree, IsSentenceOrFails};
ghost use Rattle.chyp_syntax.specs.Words.{Word};

/// Each list of words has a tree, or fails at some place.
pub fn each_chunk_is_a_sentence_or_fails()
    ensures { (words : List Word) → IsSentenceOrFails words }
{}

/// What begins a beginning of a sentence begins a sentence, so that a chunk fails at one place, the
/// first that no sentence allows.
pub fn each_beginning_of_a_prefix_is_one()
    ensures { (words : List Word) → ArePrefixesClosed words }
{}

/// No list of words has two trees.
pub fn each_sentence_has_one_tree()
    ensures { (words : List Word) → HasOneTree words }
{}
