//! What a pass knows, as contracts see it.
use crate::glance::Glance;
use ell_core::{Exchange, Fact, WorkerView};
use ell_layout::Field;
use ell_ops::{Op, Reply};
use ell_word::Update;
use std::collections::LinkedList;

/// What a pass was told, and what never changes.
#[derive(Clone, Copy)]
pub enum Told {
    /// The pass has met this node, which came into the tree.
    Met(u64),
    /// A way led the pass to this node, which it has met, by so many internal nodes.
    Depth(u64, u64),
    /// This node has this key.
    Key(u64, u64),
    /// This leaf has this value.
    Value(u64, u64),
    /// This field of this card says this: of the leaf's its node.
    Info(u64, Field, u64),
    /// This card expects this tag of the child word that it is to exchange.
    Expects(u64, u64),
    /// The parent that this card marked has on this side (true is right) this child.
    Frozen(u64, bool, u64),
}

/// What was in the way of an operation that a pass had in hand.
#[derive(Clone, Copy)]
pub enum Hindrance {
    /// Another pass took this card first.
    Claim(u64),
    /// This update stood where the operation was to act: its search had read it there, or a lost flag or mark found it.
    Found(Update),
}

/// An operation and what was answered to it.
#[derive(Clone, Copy)]
pub struct Answered {
    pub op: Op,
    pub said: Reply,
    /// The card that the pass had in hand for it then.
    pub card: Option<u64>,
    /// The value that it took, if it is a delete that took one, as the pass was told.
    pub took: Option<u64>,
}

/// What a pass knows. No value of this type is made.
#[derive(Drop)]
pub struct View {
    /// The worker of the machine that the pass is.
    pub worker: WorkerView,
    /// What it was told, the last first.
    pub told: LinkedList<Told>,
    /// The key of the node where it stands, once it was told.
    pub here: Option<u64>,
    /// The claim word, once it was read in this try. The reading stays when the operation is given up; of two passes
    /// that are joined, the later one does.
    pub next: Option<u64>,
    /// What the card in hand is to say, by its claim.
    pub planned: LinkedList<(Field, u64)>,
    /// What was stored of the card in hand, the last first.
    pub stores: LinkedList<(Field, u64)>,
    /// The word that the last exchange found, except that of the claim word.
    pub found: Option<u64>,
    /// The exchanges that it won, each by its kind and its card, the last first. When a pass is split, the left part keeps them.
    pub won: LinkedList<(Exchange, u64)>,
    /// The operation that it answered last, until another begins, or the pass is split or joined.
    pub answered: Option<Answered>,
    /// The operation that it gave up last without an answer, until another begins, or the pass is split or joined.
    pub given_up: Option<Op>,
    /// The share that it has of its table. The first pass has the whole; a split gives a part of the share to the right part, and a join adds
    /// the shares.
    pub share: u64,
    /// What it knew when its search began, the last first.
    pub knew_before: LinkedList<Fact>,
    /// The claim word is this at least, by the claims that it tried: one more than the last card that it won or lost.
    pub next_at_least: u64,
    /// What was in its way, the last first.
    pub hindrances: LinkedList<Hindrance>,
    /// What was in the way of the try in hand, the last first.
    pub met: LinkedList<Hindrance>,
    /// How many tries it gave up that were hindered by something that was over by then.
    pub hindered: u64,
    /// Where the look that it began last has come to, the last first: nowhere once that ends, an operation begins, or the
    /// pass is split or joined.
    pub glances: LinkedList<Glance>,
    /// How many looks it began.
    pub looks: u64,
    /// How many step calls it made. A split is a step of its left part, and the right part begins with none. A join is a step too: it
    /// adds the counts of both passes.
    pub made: u64,
}

/// What one atomic step is in the history of a table: the pass in a seat begins an operation; or it answers one by a
/// reply and, if that is a delete that took a value, by the value; or it begins a look; or it does none of these. No
/// value of this type is made.
#[derive(Clone, Copy)]
pub enum Event {
    Begins(u64, Op),
    Ends(u64, Reply, Option<u64>),
    Looks(u64),
    Quiet,
}

/// A call that a pass answered, by the numbers of the events before its begin and before its end. No value of this type
/// is made.
#[derive(Clone, Copy)]
pub struct Act {
    pub begin: u64,
    pub end: u64,
    pub op: Op,
    pub said: Reply,
    /// The value that it took, if it is a delete that took one.
    pub took: Option<u64>,
}

/// What a pass knows of its table's history. No value of this type is made.
#[derive(Drop)]
pub struct Sight {
    /// The longest beginning of the history that it has seen.
    pub seen: LinkedList<Event>,
    /// The number of events before the operation that it began last, if it has begun one since it came from a split.
    pub begun: Option<u64>,
    /// The number of events before the look that it began last, if it has begun one since it came from a split.
    pub looked: Option<u64>,
    /// The calls that it answered, the last first. When a pass is split, the left part keeps them, and the right part has
    /// none; a join puts those of the right one behind those of the left one.
    pub mine: LinkedList<Act>,
}

/// The words of a table for cards and for passes.
#[derive(Clone, Copy)]
pub struct Slots {
    /// The number of the last card that has words.
    pub last: u64,
    /// How many announcements stand behind the cards: at most one pass has each.
    pub announcements: u64,
}
