//! What the owner of a card retires once the card is over: the nodes that the card took out of the tree, and those of
//! its own that never come into it. The word of a slot says which of its card's three nodes are retired, and sets the
//! slot free once all three are. In a table whose cards do not come back this does nothing. The steps are not counted.
ghost use prog.Atomic.{either};
ghost use Rattle.std.specs.Prelude.{◌==◌, ◌≡◌, ◌≢◌, ◌<◌, ◌%◌, ◌⊎◌, ◌||◌, ℕ, IfSome, Some, true, false};
ghost use Rattle.ell_word.specs.Node.{card};
ghost use Rattle.ell_core.specs.declared.fact.Fact.TheVariants.{Backed};
ghost use Rattle.ell_runs.specs.declared.view.Slots.{Slots};
ghost use Rattle.ell_runs.specs.Dead.{HasTakenOut};
ghost use Rattle.ell_runs.specs.Holding.{HasFlagged};
ghost use Rattle.ell_runs.specs.Views.{Knows};
ghost use Rattle.ell_cards.specs.declared.retiring.Whose.TheVariants.{TakenOut};
ghost use Rattle.ell_cards.specs.CardNodes.{RetiresToo, has_node, node_alone};
ghost use Rattle.ell_cards.specs.Ended.{HasCut, HasPut};
ghost use Rattle.ell_cards.specs.Frames.{IsSeatWithSlotOf, KeepsSafeEpoch, LeavesTree, StandsStill};
ghost use Rattle.ell_cards.specs.LettingGo.{CutIsRetired};
ghost use Rattle.ell_cards.specs.RetiringInSlots.{RetiresOnly, HasReadToRetire, MayRetireIn, MayRetireNext, MayRetire, retires_in};
ghost use Rattle.ell_cards.specs.Epochs.{after_retiring, after_retiring_read, after_retire_epoch, slot_word};
ghost use Rattle.ell_cards.specs.Retiring.{is_done, retires_if, with_retired};
ghost use Rattle.ell_cards.specs.Shown.{shown};
ghost use Rattle.ell_cards.specs.SlotWords.{card_by, is_retired, slot_of};
ghost use Rattle.ell_cards.specs.Stepping.{HasSlotOf, LetsGo, MayGoOn};

use crate::card_nodes::CardNodes;
use crate::memory::{Memory, Seat};
use crate::pass::Pass;
use crate::rule::ParticipantTelling;
use crate::slot_words::{generation_in, generation_of, has_slot, slot_of};
use crate::table::CardTable;
use crate::view::SlotRead;
use ell_core::Put;
use ell_runs::Slots;
use ell_word::card_of;
use std::marker::Brand;

/// Which dead nodes a pass retires.
#[derive(Clone, Copy)]
pub(crate) enum Whose {
    /// Nodes that its card in hand has taken out of the tree.
    TakenOut,
    /// Nodes of that card itself, which never come into the tree.
    Own,
}

// Returns whether by the word of a card's slot none of these nodes of the card is left to be retired.
#[inline(always)]
fn is_done(whose: Whose, card: u64, nodes: CardNodes, word: u64) -> bool
    ensures { result ≡ is_done whose card nodes word }
{
    match whose {
        Whose::TakenOut => nodes.are_retired(word),
        Whose::Own => nodes.are_retired(word) || generation_in(word) != generation_of(card),
    }
}

impl<M: Memory> CardTable<M> {
    // Loads the word of the slot of a card of which the pass is to retire nodes, and tells what its caller picked.
    #[inline(always)]
    fn load_retired<J: ParticipantTelling>(
        &self,
        seat: &mut Seat<M>,
        slots: Slots,
        card: u64,
        nodes: CardNodes,
        whose: Whose,
    ) -> u64
        requires seat { IsSeatWithSlotOf self.now slots card seat.old }
        requires rule { MayGoOn self.now.plan seat.old.me.0 (slot_word slots (slot_of card)) (λ n. n) J.then }
        ensures told { J.then result seat.new.me.0.participant }
        ensures leaves { LeavesTree seat.old seat.new }
    {
        let _ = (nodes, whose);
        self.epoch_load::<J>(seat, self.slot_address(slots, slot_of(card)))
    }

    // Exchanges the word of the slot of a card of which the pass retires nodes for another one, if it is this still,
    // and tells what its caller picked. Returns the word that it found.
    #[inline(always)]
    fn exchange_retired<J: ParticipantTelling>(
        &self,
        seat: &mut Seat<M>,
        slots: Slots,
        card: u64,
        nodes: CardNodes,
        whose: Whose,
        word: u64,
        other: u64,
    ) -> u64
        requires seat { IsSeatWithSlotOf self.now slots card seat.old }
        requires rule { MayGoOn self.now.plan seat.old.me.0 (slot_word slots (slot_of card))
            (λ n. either (n == word) other n) J.then }
        ensures told { J.then result seat.new.me.0.participant }
        ensures leaves { LeavesTree seat.old seat.new }
    {
        let _ = (nodes, whose);
        self.epoch_exchange::<J>(seat, self.slot_address(slots, slot_of(card)), word, other)
    }

    // Reads the word of the slot of a card of which the pass is to retire nodes: nodes that its card in hand has taken
    // out of the tree, of whose numbers it knows the low bits, or nodes of that card that never come. Unless the word
    // shows that none of them is left, the card lies there still.
    fn read_to_retire(
        &self,
        seat: &mut Seat<M>,
        slots: Slots,
        card: u64,
        nodes: CardNodes,
        whose: Whose,
    ) -> u64
        requires seat { IsSeatWithSlotOf self.now slots card seat.old }
        requires retires { MayRetire (shown seat.old.me.0.tree) whose card nodes }
        ensures read { seat.new.me.0.participant ≡
            after_retiring_read whose card nodes result seat.old.me.0.participant }
        ensures may { is_done whose card nodes result ≡ false →
            MayRetireIn seat.old.me.0.tree whose card nodes result }
        ensures leaves { LeavesTree seat.old seat.new }
    {
        self.load_retired::<Brand>(seat, slots, card, nodes, whose)
    }

    // Retires such nodes by another word of the slot, which leaves one of the three at least, if its word is the one
    // that was read. Returns the word that it found: if that is another one, the pass has read it by that.
    fn retire_more(
        &self,
        seat: &mut Seat<M>,
        slots: Slots,
        card: u64,
        nodes: CardNodes,
        whose: Whose,
        word: u64,
        retired: u64,
    ) -> u64
        requires seat { IsSeatWithSlotOf self.now slots card seat.old }
        requires may { HasReadToRetire seat.old.me.0 whose card nodes word }
        requires too { RetiresToo nodes word retired }
        requires left { retired % 8 ≢ 0 }
        ensures participant { seat.new.me.0.participant ≡
            after_retiring (result == word) whose card nodes result seat.old.me.0.participant }
        ensures next { MayRetireNext seat.old.me.0.tree whose card nodes word result }
        ensures leaves { LeavesTree seat.old seat.new }
    {
        self.exchange_retired::<Brand>(seat, slots, card, nodes, whose, word, retired)
    }

    // Sets the slot free instead, as these are the last of its card's nodes.
    fn retire_last(
        &self,
        seat: &mut Seat<M>,
        slots: Slots,
        card: u64,
        nodes: CardNodes,
        whose: Whose,
        word: u64,
    ) -> u64
        requires seat { IsSeatWithSlotOf self.now slots card seat.old }
        requires may { HasReadToRetire seat.old.me.0 whose card nodes word }
        requires last { (i : ℕ) → i < 3 → (is_retired word i ≡ true) ⊎ (has_node nodes i ≡ true) }
        ensures participant { (epoch : ℕ) ×
            (seat.new.me.0.participant ≡ after_retiring (result == word) whose card nodes result
            (after_retire_epoch (card_by (slot_of card) word) epoch seat.old.me.0.participant)) }
        ensures next { MayRetireNext seat.old.me.0.tree whose card nodes word result }
        ensures leaves { LeavesTree seat.old seat.new }
    {
        let epoch = self.retire_epoch(seat, slots, slot_of(card), word);
        self.exchange_retired::<Brand>(seat, slots, card, nodes, whose, word, 8 * epoch)
    }

    // Retires such nodes by an exchange of the word that was read, which leaves some of them, for one by which they are
    // retired too, or that sets the slot free as all three are. Returns the word that it found: if that is another one,
    // the pass has read it by that.
    fn retire_word(
        &self,
        seat: &mut Seat<M>,
        slots: Slots,
        card: u64,
        nodes: CardNodes,
        whose: Whose,
        word: u64,
    ) -> u64
        requires seat { IsSeatWithSlotOf self.now slots card seat.old }
        requires may { HasReadToRetire seat.old.me.0 whose card nodes word }
        ensures still { StandsStill seat.old.me.0.participant seat.new.me.0.participant }
        ensures retired { seat.new.me.0.participant.retired ≡
            retires_if (result == word || is_done whose card nodes result) whose nodes
            seat.old.me.0.participant.retired }
        ensures read { result ≢ word →
            seat.new.me.0.participant.read ≡ Some (record { slot = slot_of card; word = result }) }
        ensures next { MayRetireNext seat.old.me.0.tree whose card nodes word result }
        ensures keeps { KeepsSafeEpoch seat.old.me.0.participant seat.new.me.0.participant }
        ensures leaves { LeavesTree seat.old seat.new }
    {
        let retired = nodes.retired_in(word);
        if retired % 8 == 0 {
            self.retire_last(seat, slots, card, nodes, whose, word)
        } else {
            self.retire_more(seat, slots, card, nodes, whose, word, retired)
        }
    }

    // Retires such nodes in the word of their card's slot. If another pass changes the word meanwhile, it goes on by
    // the word that it found: that happens at most twice, as more of the three nodes are retired by each such word.
    fn retire_dead(
        &self,
        seat: &mut Seat<M>,
        slots: Slots,
        card: u64,
        nodes: CardNodes,
        whose: Whose,
    )
        requires seat { IsSeatWithSlotOf self.now slots card seat.old }
        requires retires { MayRetire (shown seat.old.me.0.tree) whose card nodes }
        ensures still { StandsStill seat.old.me.0.participant seat.new.me.0.participant }
        ensures retired { seat.new.me.0.participant.retired ≡
            with_retired whose nodes seat.old.me.0.participant.retired }
        ensures keeps { KeepsSafeEpoch seat.old.me.0.participant seat.new.me.0.participant }
        ensures leaves { LeavesTree seat.old seat.new }
    {
        let mut word = self.read_to_retire(seat, slots, card, nodes, whose);
        for _ in 0..3u64 {
            if is_done(whose, card, nodes, word) {
                return;
            }
            let found = self.retire_word(seat, slots, card, nodes, whose, word);
            if found == word {
                return;
            }
            word = found;
        }
    }

    // Retires nodes of one card: nodes that the card in hand, which is over, has taken out of the tree, of which the
    // pass knows the low 38 bits, and so of their card the low 41; or nodes of the card in hand that never come. It
    // retires all by one exchange, or by up to three if other passes change the word meanwhile.
    fn retire_nodes(&self, pass: &mut Pass<M>, card: u64, nodes: CardNodes, whose: Whose)
        requires own { pass.old.table ≡ self.now.id }
        requires retires { MayRetire pass.old.view whose card nodes }
        ensures same { RetiresOnly pass.old pass.new }
        ensures retired { IfSome self.now.plan.slots (λ s. pass.new.memory.retired ≡
            retires_in s whose card nodes pass.old.memory.retired) }
    {
        let Some(slots) = self.slots else {
            return;
        };
        if has_slot(slots, card) {
            self.retire_dead(&mut pass.seat, slots, card, nodes, whose);
        }
    }

    // Retires a node that the card in hand has taken out: its parent if it is an internal node, else its leaf.
    fn retire_taken_out(&self, pass: &mut Pass<M>, node: u64)
        requires own { pass.old.table ≡ self.now.id }
        requires taken { HasTakenOut pass.old.view node }
        ensures same { RetiresOnly pass.old pass.new }
        ensures retired { IfSome self.now.plan.slots (λ s. pass.new.memory.retired ≡
            retires_in s TakenOut (card node) (node_alone (node % 4)) pass.old.memory.retired) }
    {
        self.retire_nodes(pass, card_of(node), CardNodes::only(node), Whose::TakenOut);
    }

    // Retires the parent and the leaf that the card in hand of a delete has cut out, by one step where they lie on one
    // card.
    fn retire_cut(&self, pass: &mut Pass<M>, card: u64, parent: u64, leaf: u64)
        requires own { pass.old.table ≡ self.now.id }
        requires cut { HasCut parent leaf pass.old.view card }
        ensures same { RetiresOnly pass.old pass.new }
        ensures retired { (s : Slots) → self.now.plan.slots ≡ Some s →
            CutIsRetired s pass.old.view pass.new.memory.retired card }
    {
        let above = card_of(parent);
        if card_of(leaf) == above {
            let both = CardNodes::only(parent).and(CardNodes::only(leaf));
            self.retire_nodes(pass, above, both, Whose::TakenOut);
        } else {
            self.retire_taken_out(pass, parent);
            self.retire_taken_out(pass, leaf);
        }
    }

    /// Retires what the card in hand of an insert or a swap, which is over, made dead, given the node where its search
    /// ended, with its key. Above a node of another key it took nothing out, and its leaf of that node's key is not
    /// used. Else it took that node out, which is a leaf, and of its own nodes the right leaf alone came.
    pub fn retire_put(&self, pass: &mut Pass<M>, card: u64, what: Put, node: u64, key: u64)
        requires own { pass.old.table ≡ self.now.id }
        requires put { HasPut what node key pass.old.view card }
        requires slot { HasSlotOf self.now.plan card pass.old }
        // What the pass knows of the tree is as it was, and it has made no step that is counted.
        ensures same { RetiresOnly pass.old pass.new }
        // The pass may let its card go.
        ensures lets_go { LetsGo self.now.plan pass.new }
    {
        if key != what.key {
            let unused = CardNodes {
                internal: false,
                left: key < what.key,
                right: what.key < key,
            };
            self.retire_nodes(pass, card, unused, Whose::Own);
            return;
        }
        self.retire_taken_out(pass, node);
        let left_out = CardNodes {
            internal: true,
            left: true,
            right: false,
        };
        self.retire_nodes(pass, card, left_out, Whose::Own);
    }

    /// Retires what the card in hand of a delete that has cut made dead: the parent and the leaf that it took out, and
    /// its own nodes, none of which comes.
    pub fn retire_deleted(&self, pass: &mut Pass<M>, card: u64, parent: u64, leaf: u64)
        requires own { pass.old.table ≡ self.now.id }
        requires cut { HasCut parent leaf pass.old.view card }
        requires slot { HasSlotOf self.now.plan card pass.old }
        // What the pass knows of the tree is as it was, and it has made no step that is counted.
        ensures same { RetiresOnly pass.old pass.new }
        // The pass may let its card go.
        ensures lets_go { LetsGo self.now.plan pass.new }
    {
        self.retire_cut(pass, card, parent, leaf);
        self.retire_nodes(pass, card, CardNodes::all(), Whose::Own);
    }

    /// Retires what the card in hand of a delete that lost its mark made dead: its own nodes, none of which comes.
    pub fn retire_backed(&self, pass: &mut Pass<M>, card: u64)
        requires own { pass.old.table ≡ self.now.id }
        requires hand { HasFlagged pass.old.view card }
        requires backed { Knows pass.old.view (Backed card) }
        requires slot { HasSlotOf self.now.plan card pass.old }
        // What the pass knows of the tree is as it was, and it has made no step that is counted.
        ensures same { RetiresOnly pass.old pass.new }
        // The pass may let its card go.
        ensures lets_go { LetsGo self.now.plan pass.new }
    {
        self.retire_nodes(pass, card, CardNodes::all(), Whose::Own);
    }
}
