//! The words of all cards, in one list.
ghost use Rattle.std.specs.Prelude.{◌≡◌, ◌≢◌, ◌+◌, ◌<◌, ◌≤◌, true, false, length, IfOk, IfErr, OnOk, OnErr};
ghost use Rattle.ell_word.specs.Node.{greatest_card};
ghost use Rattle.ell_layout.specs.Words.{table_word, table_written, with_child, with_tag, IsLeaf};
ghost use Rattle.ell_layout.specs.Cards.{is_right, table_filled, table_claimed};
ghost use Rattle.ell_core.specs.acts.Exchanges.{exchanged_update, exchanged_child, finds_link, found_child, found_tag};
ghost use Rattle.ell_layout.specs.Start.{start_words};
ghost use Rattle.ell_world.specs.Fits.{IsTableNode, IsInner, TagsFit};
ghost use Rattle.ell_world.specs.Inside.{words_in, IsSized, SameSize};

use ell_core::TreeWords;
use ell_layout::{Field, child_field, key_field, table_size, value_field, write_opening};
use ell_ops::NoMemory;
use ell_word::{Link, card_of};
use std::alloc::Allocator;

/// The claim word and the words of the cards from card 0 to the last one.
#[derive(Drop)]
pub(crate) struct Memory<A: Allocator + Copy> {
    pub words: Vec<u64, A>,
    pub last_card: u64,
}

impl<A: Allocator + Copy> Memory<A> {
    /// Returns the opening tree over these start keys, and cards whose words are 0, up to the last one.
    pub fn opening(alloc: A, start: &[(u64, u64)], last: u64) -> Result<Memory<A>, NoMemory>
        requires room { length start.now ≤ last }
        requires most { last ≤ greatest_card }
        requires few { length start.now < greatest_card }
        ensures sized { IfOk result (λ memory. IsSized memory) }
        ensures last_card { IfOk result (λ memory. memory.last_card ≡ last) }
        ensures words { IfOk result (λ memory. words_in memory ≡ start_words start.now) }
    {
        let mut words = vec![in alloc; 0; table_size(last)]?;
        write_opening(words.as_mut_slice(), start, last, false);
        Ok(Memory {
            words,
            last_card: last,
        })
    }

    /// Returns the claim word.
    pub fn next(&self) -> u64
        requires { IsSized self.now }
        ensures { result ≡ (words_in self.now).next }
    {
        self.words[0]
    }

    /// Returns the word that the table has at a field of a card: a child with its tag, and the leaf where a search ended
    /// with the tag that the card expects.
    pub fn read(&self, card: u64, field: Field) -> u64
        requires sized { IsSized self.now }
        requires card { card ≤ self.now.last_card }
        ensures { result ≡ table_word (words_in self.now) card field }
    {
        self.words[field.address(card)]
    }

    /// Returns the key of a node.
    pub fn key(&self, node: u64) -> u64
        requires sized { IsSized self.now }
        requires node { IsTableNode self.now.last_card node }
        ensures { result ≡ (words_in self.now).key node }
    {
        self.read(card_of(node), key_field(node))
    }

    /// Returns the value of a leaf.
    pub fn value(&self, leaf: u64) -> u64
        requires sized { IsSized self.now }
        requires node { IsTableNode self.now.last_card leaf }
        requires outer { IsLeaf leaf }
        ensures { result ≡ (words_in self.now).value leaf }
    {
        self.read(card_of(leaf), value_field(leaf))
    }

    /// Returns the update word of an internal node.
    pub fn update(&self, node: u64) -> u64
        requires sized { IsSized self.now }
        requires node { IsInner self.now.last_card node }
        ensures { result ≡ (words_in self.now).update node }
    {
        self.read(card_of(node), Field::Update)
    }

    /// Returns the child of an internal node on a side, with its tag.
    pub fn child_link(&self, node: u64, right: bool) -> Link
        requires sized { IsSized self.now }
        requires node { IsInner self.now.last_card node }
        ensures { result ≡ record { node = (words_in self.now).child node right; tag = (words_in self.now).tag node right } }
    {
        Link::of(self.read(card_of(node), child_field(right)))
    }

    /// Returns the child of an internal node on a side.
    pub fn child(&self, node: u64, right: bool) -> u64
        requires sized { IsSized self.now }
        requires node { IsInner self.now.last_card node }
        ensures { result ≡ (words_in self.now).child node right }
    {
        self.child_link(node, right).node
    }

    /// Returns the leaf where a card's search ended, with the tag that the card expects.
    pub fn leaf_link(&self, card: u64) -> Link
        requires sized { IsSized self.now }
        requires card { card ≤ self.now.last_card }
        ensures { result ≡ record { node = (words_in self.now).l card; tag = (words_in self.now).expects card } }
    {
        Link::of(self.read(card, Field::L))
    }

    /// Returns `true` if a key is on the right side of a node.
    pub fn is_right(&self, node: u64, key: u64) -> bool
        requires sized { IsSized self.now }
        requires node { IsTableNode self.now.last_card node }
        ensures { result ≡ is_right (words_in self.now) node key }
    {
        self.key(node) <= key
    }

    /// Exchanges the update word of an internal node, if it is the expected one. Otherwise the error is the word that
    /// was found, and no word has changed.
    pub fn exchange_update(&mut self, node: u64, expected: u64, new: u64) -> Result<(), u64>
        requires sized { IsSized self.old }
        requires node { IsInner self.old.last_card node }
        ensures won { OnOk result ((words_in self.old).update node ≡ expected) }
        ensures lost { IfErr result (λ found. (found ≡ (words_in self.old).update node) × (found ≢ expected)) }
        ensures words { words_in self.new ≡ exchanged_update (words_in self.old) node expected new }
        ensures same { SameSize self.old self.new }
    {
        let found = self.update(node);
        if found == expected {
            self.write(card_of(node), Field::Update, new);
            Ok(())
        } else {
            Err(found)
        }
    }

    /// Exchanges the child of an internal node on the side of the new child's key, if it is the expected one with the
    /// expected tag; the new child has the next tag. Otherwise the error is the child that was found with its tag, and no
    /// word has changed.
    pub fn exchange_child(&mut self, node: u64, expected: Link, new: u64) -> Result<(), Link>
        requires sized { IsSized self.old }
        requires node { IsInner self.old.last_card node }
        requires new { IsTableNode self.old.last_card new }
        requires tags { TagsFit self.old.last_card (words_in self.old) }
        ensures won { OnOk result (finds_link (words_in self.old) node expected new ≡ true) }
        ensures lost { OnErr result (finds_link (words_in self.old) node expected new ≡ false) }
        ensures found { IfErr result (λ found. found ≡ record {
          node = found_child (words_in self.old) node new;
          tag = found_tag (words_in self.old) node new;
        }) }
        ensures words { words_in self.new ≡ exchanged_child (words_in self.old) node expected new }
        ensures same { SameSize self.old self.new }
    {
        let right = self.is_right(node, self.key(new));
        let found = self.child_link(node, right);
        if found.tag == expected.tag && found.node == expected.node {
            self.write_child(node, right, new, found.tag + 1);
            Ok(())
        } else {
            Err(found)
        }
    }

    // Writes the child of an internal node on a side, with its tag.
    fn write_child(&mut self, node: u64, right: bool, child: u64, tag: u64)
        requires sized { IsSized self.old }
        requires node { IsInner self.old.last_card node }
        requires child { IsTableNode self.old.last_card child }
        requires tag { tag ≤ self.old.last_card + 1 }
        ensures words { words_in self.new ≡ with_tag (with_child (words_in self.old) node right child) node right tag }
        ensures same { SameSize self.old self.new }
    {
        self.write(
            card_of(node),
            child_field(right),
            Link { node: child, tag }.word(),
        );
    }

    /// Claims the next card and writes these words of the table to its fields.
    pub fn claim(&mut self, filling: &[(Field, u64)])
        requires sized { IsSized self.old }
        requires room { (words_in self.old).next ≤ self.old.last_card }
        ensures words { words_in self.new ≡ table_claimed (words_in self.old) filling.now }
        ensures same { SameSize self.old self.new }
    {
        let card = self.next();
        self.fill(card, filling);
        self.words[0] = card + 1;
    }

    // Writes these words of the table to fields of a card, in order.
    fn fill(&mut self, card: u64, filling: &[(Field, u64)])
        requires sized { IsSized self.old }
        requires card { card ≤ self.old.last_card }
        ensures words { words_in self.new ≡ table_filled (words_in self.old) card filling.now }
        ensures same { SameSize self.old self.new }
    {
        for (field, value) in filling {
            self.write(card, *field, *value);
        }
    }

    // Writes one word of the table.
    fn write(&mut self, card: u64, field: Field, value: u64)
        requires sized { IsSized self.old }
        requires card { card ≤ self.old.last_card }
        ensures words { words_in self.new ≡ table_written (words_in self.old) card field value }
        ensures same { SameSize self.old self.new }
    {
        self.words[field.address(card)] = value;
    }
}

impl<A: Allocator + Copy> TreeWords for Memory<A> {
    ghost words = { words_in };

    ghost can_read = { λ memory node. IsSized memory × IsTableNode memory.last_card node };

    fn key(&self, node: u64) -> u64 {
        Memory::key(self, node)
    }

    fn value(&self, leaf: u64) -> u64 {
        Memory::value(self, leaf)
    }

    fn child(&self, node: u64, right: bool) -> u64 {
        Memory::child(self, node, right)
    }
}
