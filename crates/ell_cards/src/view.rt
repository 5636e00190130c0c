//! What a pass knows, as contracts see it.
use crate::card_nodes::CardNodes;
use ell_runs::{Sight, Slots, View};
use std::alloc::Allocator;
use std::marker::Model;

/// What a pass knows of epochs. No value of this type is made.
#[derive(Clone, Copy)]
pub struct Participant {
    /// Its announcement, unless it has none.
    pub announcement: Option<u64>,
    /// Another announcement that it has, to give it to another pass or to give it back, and what is announced there.
    pub other: Option<u64>,
    pub other_says: Option<u64>,
    /// The epoch that it announces, while it is pinned.
    pub announced: Option<u64>,
    /// What the global epoch was when it announced that: that one at least. Nobody reads it.
    pub began: u64,
    /// The epoch that it read last.
    pub epoch: Option<u64>,
    /// The least of that epoch and of what it saw announced since.
    pub least: u64,
    /// How many announcements it has looked at since.
    pub looked: u64,
    /// Its safe epoch: every pass that is pinned was pinned when the epoch was this at least.
    pub safe_epoch: u64,
    /// What it saw when it looked at all announcements last.
    pub surveyed: Survey,
    /// The word of a slot that it read last.
    pub read: Option<SlotRead>,
    /// The card that it is about to set free, as its nodes are dead, or it was discarded.
    pub retire_epoch: Option<RetireEpoch>,
    /// The card whose slot it has taken last.
    pub slot: Option<u64>,
    /// What it has retired since of the nodes that this card made dead.
    pub retired: Retired,
    /// The card whose flag it lost last, which was discarded.
    pub lost: Option<u64>,
}

/// What a pass saw when it looked at all announcements last.
#[derive(Clone, Copy)]
pub struct Survey {
    /// The epoch with which it began.
    pub epoch: u64,
    /// The least of that and of all epochs that it saw announced.
    pub least: u64,
}

/// What a pass has retired of the nodes that its card in hand made dead, once that is over.
#[derive(Clone, Copy)]
pub struct Retired {
    /// The parent that the card of a delete took out of the tree.
    pub parent: bool,
    /// The leaf that the card took out.
    pub leaf: bool,
    /// Nodes of the card itself, which never come into the tree.
    pub own: CardNodes,
}

/// The word of a slot as a pass has read it.
#[derive(Clone, Copy)]
pub struct SlotRead {
    pub slot: u64,
    pub word: u64,
}

/// A card whose nodes are dead, or which was discarded, and an epoch since that was so.
#[derive(Clone, Copy)]
pub struct RetireEpoch {
    pub card: u64,
    pub epoch: u64,
}

/// What a pass knows: of the tree, of epochs, and of the history. No value of this type is made.
#[derive(Drop)]
pub struct Known {
    pub tree: View,
    pub participant: Participant,
    pub sight: Sight,
}

/// What a table is opened with. A table keeps the number of its last card; the keys go to its first pass, and the start keys into
/// its words.
#[derive(Drop)]
pub struct Plan<A: Allocator + Copy> {
    /// The keys that may have owners, strictly ascending.
    pub keys: Vec<u64, A>,
    /// The start keys, those of them that are present before the first operation, strictly ascending, with their values.
    pub start: Vec<(u64, u64), A>,
    /// The number of the last card: how many cards there are besides card 0.
    pub last_card: u64,
    /// Whether every other key up to `KEY_MAX` is shared: any pass may change it.
    pub shared: bool,
    /// Whether the tree is flat.
    pub flat: bool,
    /// How many cards have words, and how many announcements for passes there are, if cards come back.
    pub slots: Option<Slots>,
}

impl<A: Allocator + Copy> Model for Plan<A> {
    ghost use Rattle.ell_runs.specs.Plans.{TablePlan};

    ghost Value = { TablePlan };

    ghost view = { λ p. record { keys = p.keys.items; start = p.start.items; last_card = p.last_card; shared = p.shared; flat = p.flat; slots = p.slots } };
}
