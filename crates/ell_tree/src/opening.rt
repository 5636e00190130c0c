//! How a tree begins.
ghost use Rattle.std.specs.Prelude.{◌≡◌, ◌≤◌, [], true, false, length, None, IfOk, IfErr, OnOk};
ghost use Rattle.std.specs.List.{All};
ghost use Rattle.std.specs.List.Sorted.{IsStrictlyIncreasing};
ghost use Rattle.std.specs.Map.{keys_of};
ghost use Rattle.ell_ops.specs.KeySet.{set_of};
ghost use Rattle.ell_ops.specs.Meaning.{greatest_key};
ghost use Rattle.ell_word.specs.Node.{most_start};
ghost use Rattle.ell_core.specs.state.Opening.{last_card};
ghost use Rattle.ell_cards.specs.Kinds.{HasRoomForPasses, MayStartWith, opened_plan};
ghost use Rattle.ell_cards.specs.Models.{IsCardCount, RefusesCards};
ghost use Rattle.ell_tree.specs.PassParts.{IsFirst};

use crate::tree::Tree;
use ell_cards::{CardFault, CardTable, FixedMemory, Pass, TreeKind};
use std::alloc::Allocator;

impl<A: Allocator + Copy> Tree<FixedMemory<A>> {
    /// Returns an empty tree with the given number of cards, and one pass that owns all these keys, each absent: `open`
    /// with the kind `Owned` and no start keys. Conditions: the keys are strictly ascending, and at most `KEY_MAX`.
    pub fn reserve(
        alloc: A,
        keys: &[u64],
        cards: u64,
    ) -> Result<(Tree<FixedMemory<A>>, Pass<FixedMemory<A>>), CardFault>
        requires ascending { IsStrictlyIncreasing keys.now }
        requires real { All (λ k. k ≤ greatest_key) keys.now }
        // It succeeds only with 1 to 1,000,000 cards.
        ensures cards { OnOk result (IsCardCount cards) }
        // The tree is empty and shares no key, and its last card has the number `cards`.
        ensures tree { IfOk result (λ made.
            made.0.plan ≡ record { keys = keys.now; start = []; last_card = cards; shared = false; flat = false; slots = None }) }
        // The pass owns these keys, of which the start keys are present, has the whole share, and has made no step.
        ensures pass { IfOk result (λ made. IsFirst made.0 made.1) }
        // `BadCards` is returned exactly if the number of cards is not 1 to 1,000,000, and otherwise only `NoMemory`.
        ensures refused { IfErr result (RefusesCards cards) }
    {
        Tree::open(alloc, TreeKind::Owned, &[], keys, cards)
    }

    /// Returns a tree that has these start keys with their values from the beginning, and one pass that owns all these
    /// keys: `open` with the kind `Owned`. Conditions: the keys are strictly ascending, and at most `KEY_MAX`; the start
    /// keys are strictly ascending and among the keys, and there are at most `START_MAX`, 1,000,000, of them.
    pub fn reserve_from(
        alloc: A,
        start: &[(u64, u64)],
        keys: &[u64],
        cards: u64,
    ) -> Result<(Tree<FixedMemory<A>>, Pass<FixedMemory<A>>), CardFault>
        requires ascending { IsStrictlyIncreasing keys.now }
        requires real { All (λ k. k ≤ greatest_key) keys.now }
        requires start_ascending { IsStrictlyIncreasing (keys_of start.now) }
        requires given { All (λ k. set_of keys.now k ≡ true) (keys_of start.now) }
        requires few { length start.now ≤ most_start }
        // It succeeds only with 1 to 1,000,000 cards.
        ensures cards { OnOk result (IsCardCount cards) }
        // The tree has the start pairs and shares no key. The number of its last card is `cards` plus the number of
        // start keys.
        ensures tree { IfOk result (λ made. made.0.plan ≡ record {
          keys = keys.now;
          start = start.now;
          last_card = last_card start.now cards;
          shared = false;
          flat = false;
          slots = None;
        }) }
        // The pass owns these keys, of which the start keys are present, has the whole share, and has made no step.
        ensures pass { IfOk result (λ made. IsFirst made.0 made.1) }
        // `BadCards` is returned exactly if the number of cards is not 1 to 1,000,000, and otherwise only `NoMemory`.
        ensures refused { IfErr result (RefusesCards cards) }
    {
        Tree::open(alloc, TreeKind::Owned, start, keys, cards)
    }

    /// Returns a tree of this kind that has these start keys with their values from the beginning, balanced, and one pass,
    /// which owns these keys: those among them that are start keys are present, the others absent. Each try of an insert or
    /// a delete that finds its way free takes a card; `cards_left` returns how many there are. No card is given back,
    /// unless the kind is `Reusing`.
    ///
    /// Start keys save inserting them: no operation is made for them, and they take none of the cards asked for. Their tree
    /// has a card for each of them, so the number of the last card, which bounds the steps of calls, is the number of cards
    /// asked for plus that of the start keys. `BadCards` is returned exactly if the number of cards is not 1 to 1,000,000,
    /// and `NoMemory` if an allocation fails. Conditions: the keys are strictly ascending, and at most `KEY_MAX`; so are
    /// the start keys, which are among the keys if the kind is `Owned`; there are at most `START_MAX`, 1,000,000, start
    /// keys; and a tree whose cards come back is for 1 to 1,000,000 passes.
    pub fn open(
        alloc: A,
        kind: TreeKind,
        start: &[(u64, u64)],
        keys: &[u64],
        cards: u64,
    ) -> Result<(Tree<FixedMemory<A>>, Pass<FixedMemory<A>>), CardFault>
        requires ascending { IsStrictlyIncreasing keys.now }
        requires real { All (λ k. k ≤ greatest_key) keys.now }
        requires start_ascending { IsStrictlyIncreasing (keys_of start.now) }
        // The start keys are among the keys, or, if the kind shares the others, just real keys.
        requires given { MayStartWith kind keys.now (keys_of start.now) }
        requires few { length start.now ≤ most_start }
        // If cards come back, they do so for 1 to 1,000,000 passes at a time.
        requires passes { HasRoomForPasses kind }
        // It succeeds only with 1 to 1,000,000 cards.
        ensures cards { OnOk result (IsCardCount cards) }
        // The tree has the start pairs, and is what its kind says: it shares each other key, but for `Owned`, and is flat
        // for `Flat` and `Reusing`. The number of its last card is `cards` plus the number of start keys; for `Reusing`
        // that is the number of its last slot, and its last card has the greatest number there is.
        ensures tree { IfOk result (λ made. made.0.plan ≡ opened_plan kind start.now keys.now cards) }
        // The pass owns these keys, of which the start keys are present, has the whole share, and has made no step.
        ensures pass { IfOk result (λ made. IsFirst made.0 made.1) }
        // `BadCards` is returned exactly if the number of cards is not 1 to 1,000,000, and otherwise only `NoMemory`.
        ensures refused { IfErr result (RefusesCards cards) }
    {
        let (table, pass) = CardTable::reserve(alloc, kind, start, keys, cards)?;
        Ok((Tree { table, alloc }, pass))
    }
}
