//! Laws of tries. Each is the contract of a function that does nothing.
ghost use Rattle.ell_trie.specs.Courses.{CoursesTell, CoursesGoOn, MissesAreTrue};
ghost use Rattle.ell_trie.specs.Cuts.{CutsKeep};
ghost use Rattle.ell_trie.specs.Links.{LinksKeep, InsertsKeep};
ghost use Rattle.ell_trie.specs.Readers.{LooksFindWhatWas};
ghost use Rattle.ell_trie.specs.Swaps.{SwapsKeep};
ghost use Rattle.ell_trie.specs.Tries.{PathsAreShort, TriesAreShallow};
ghost use Rattle.ell_trie.specs.Truths.{LinksStayTrue, SwapsStayTrue, CutsStayTrue};

/// Paths in a trie are short.
pub fn tries_are_shallow()
    // A path from an internal node of a trie to another one, also where it was cut out, is no longer than the bit of the first
    // one's block less that of the second one's.
    ensures paths { PathsAreShort }
    // From node 0 to an internal node there are at most 64 steps more than the opening tree is deep.
    ensures shallow { TriesAreShallow }
{}

/// Links keep a trie.
pub fn links_keep()
    // A link above an internal node or a leaf keeps the trie, its order, each other key, nodes on course, nodes that are
    // reached and nodes that were cut out, and it adds its key, which the tree lacked.
    ensures links { LinksKeep }
    // An insert is such a link, if it is made with the branch of the old node's key and the added one, under a parent that
    // is reached and on course for the added key.
    ensures inserts { InsertsKeep }
{}

/// Cuts keep a trie.
pub fn cuts_keep()
    // A cut keeps the trie, its order, each other key and nodes on course, and it takes its leaf's key away.
    ensures { CutsKeep }
{}

/// Swaps keep a trie.
pub fn swaps_keep()
    // A swap of a leaf for another one of the same key keeps the trie, its order, each other key and nodes on course.
    ensures { SwapsKeep }
{}

/// What a search may conclude at a node that is on course for its key.
pub fn courses_tell()
    // If an internal node that is on course for a key is reached, and its block has the key, then the key is in its range.
    ensures range { CoursesTell }
    // The next node on the walk for a key from a node on course is on course.
    ensures next { CoursesGoOn }
    // If a node is reached with a key in its range, and its block lacks the key, then the tree lacks it.
    ensures misses { MissesAreTrue }
{}

/// What walks find stays true.
pub fn looks_stay_true()
    // From a node on course, the walk for a key finds after a link what it found before, or what the tree has of the key
    // after the link.
    ensures links { LinksStayTrue }
    // So it is at swaps and at cuts.
    ensures swaps { SwapsStayTrue }
    ensures cuts { CutsStayTrue }
{}

/// What a reader finds is true of one state.
pub fn looks_find_what_was()
    // While inserts, swaps and cuts change the tree, what a reader finds at his leaf, however slowly he
    // comes to it, is what the tree had of his key in one of the states since he began.
    ensures { LooksFindWhatWas }
{}
