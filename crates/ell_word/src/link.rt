//! The child word of an internal node: a node, and a tag that counts how often the word has changed.
ghost use Rattle.std.specs.Prelude.{◌≡◌, ◌≤◌, ◌<◌, ◌%◌, ◌^◌};
ghost use Rattle.ell_word.specs.Link.{IsLink, node_bound, linked, link_in};
ghost use Rattle.ell_word.specs.declared.link.Link.{Link};

// The node that a word says is below this one, so that a mask gives it, which is asked at each node of a search.
const TAG_UNIT: u64 = 274_877_906_944;

/// What a child word says. The tag counts the changes of the word, so that no two of its values are the same, even if
/// a node comes back.
#[derive(Clone, Copy, Debug, PartialEq, Eq)]
pub struct Link {
    pub node: u64,
    pub tag: u64,
}

impl Link {
    /// Returns the word: 2^38 times the tag plus the node. Conditions: the node is below 2^38, and the tag below 2^26.
    #[inline(always)]
    pub fn word(self) -> u64
        requires { IsLink self }
        // Returns the word of the node and the tag.
        ensures { result ≡ linked self }
    {
        TAG_UNIT * self.tag + self.node
    }

    /// Returns what a word says, whichever word it is.
    #[inline(always)]
    pub fn of(word: u64) -> Link
        // Returns the node and the tag that the word says.
        ensures link { result ≡ link_in word }
        // The node is below 2^38 and the tag below 2^26, and their word is this one.
        ensures small { IsLink result }
        ensures again { linked result ≡ word }
    {
        Link {
            node: word % TAG_UNIT,
            tag: word / TAG_UNIT,
        }
    }
}

/// Returns the child word of a node with tag 0: the low 38 bits of the node, whichever node it is.
#[inline(always)]
pub fn child_word(node: u64) -> u64
    // Returns the low 64 bits of the number of the node's link with tag 0.
    ensures { result ≡ linked (record { node = node; tag = 0 }) % 2 ^ 64 }
{
    node % TAG_UNIT
}

/// Reading undoes linking for nodes below 2^64: each such node has with each tag a number of its own, of which a child
/// word has the low 64 bits.
pub fn links()
    ensures back { (link : Link) → link.node < node_bound → link_in (linked link) ≡ link }
{}
