//! Laws of grace periods. Each is the contract of a function that does nothing.
ghost use Rattle.ell_grace.specs.Gone.{EveryStateHasOuts};
ghost use Rattle.ell_grace.specs.Operations.{OperationsMeetNothingGone};
ghost use Rattle.ell_grace.specs.Looks.{LooksMeetNothingGone};
ghost use Rattle.ell_grace.specs.Since.{StatesComeFromThemselves, EventsLeadOn, ChildrenWereNotGone};
ghost use Rattle.ell_grace.specs.Dead.{EveryStateHasUses, UsesBegin, EventsKeepUses, DeadStaysDead, DeadCardsHaveEnded, NeverComesStaysOut, TakenOutHadCome, ChildrenWereNotDead, WhatCameIsInOrOut};
ghost use Rattle.ell_grace.specs.Tags.{EveryStateHasTags, TagsBegin, TagsLeadOn, TagsRiseByCards, TagsLagLittle};
ghost use Rattle.ell_grace.specs.Edges.{EdgeNodeIsGone};
ghost use Rattle.ell_grace.specs.epochs.Sound.{GraceStarts, GraceGoesOn, TakenCardsWereGone};
ghost use Rattle.ell_grace.specs.Premises.{BeginsWhenGone, TakesWhenBusy};

/// A node is gone for good once a card that took it out of the tree has ended. A worker that begins an operation at the root
/// and goes on with it, and acts only for cards that had not ended when it began, comes to know no node that was gone then,
/// and of no card that had ended then, in every run.
pub fn operations_meet_nothing_gone()
    // In every state of every run what was taken out is not in the tree, and one card has taken it out. While a delete that
    // has cut has its flag, the sibling of its leaf stands under the grandparent.
    ensures outs { EveryStateHasOuts }
    // In every run in which a worker begins at the root and goes on with one operation: it comes to no node that was gone
    // when it began, and none lies on its walk; it learns of no card that had ended then; and where such a card goes was not
    // gone then, but for the internal node above which an insert had put its own.
    ensures operations { OperationsMeetNothingGone }
    // No look from node 0 comes to a node that was gone when it began.
    ensures looks { LooksMeetNothingGone }
{}

/// What comes from an earlier state: whoever knows an internal node that was not gone then may load each child of it, whatever
/// the child is by now, since that was not gone then either.
pub fn children_were_not_gone()
    // A state comes from itself, as far as its cards have come.
    ensures begins { StatesComeFromThemselves }
    // Each event of each worker leads on from a state that comes from the earlier one.
    ensures events { EventsLeadOn }
    // A child of an internal node that was not gone in the earlier state was not gone there.
    ensures children { ChildrenWereNotGone }
{}

/// Dead nodes: a node is dead that is gone, or that never comes into the tree, since its card has ended and did not bring it,
/// or nobody uses it. What is dead stays dead. Whoever knows an internal node that was not dead may load each child of it,
/// whatever the child is by now, since that was not dead either.
pub fn dead_nodes_stay_dead()
    // In every state of every run no internal node that came into the tree has a child that nobody uses, nor was such a leaf
    // taken out. While an insert that has made its child exchange has its flag, the node that it brought stands under the parent.
    ensures uses { EveryStateHasUses }
    // A state comes from itself, and each event leads on from a state that comes from an earlier one: what was dead is dead.
    ensures begins { UsesBegin }
    ensures keeps { EventsKeepUses }
    ensures stays { DeadStaysDead }
    // A card whose internal node is dead has ended, or is one of the opening tree's.
    ensures ended { DeadCardsHaveEnded }
    // A node that never comes is not in the tree, is no internal node that came into it, and is no child of one.
    ensures out { NeverComesStaysOut }
    // No node dies twice: what a card has taken out is no node that never comes.
    ensures once { TakenOutHadCome }
    // A child of an internal node that was not dead in the earlier state was not dead there.
    ensures children { ChildrenWereNotDead }
    // A node that came into the tree with a card that is not of the opening tree is in the tree, or a card has taken it
    // out, or nobody uses it.
    ensures came { WhatCameIsInOrOut }
{}

/// Why the law leaves out the internal node above which an insert has put its own: that node is in the tree still, and a delete
/// may take it out while the insert goes on.
pub fn edge_nodes_may_be_gone()
    // There is a state of a run in which the node that an insert's card names is gone, although the card has won its flag and
    // has not ended.
    ensures { EdgeNodeIsGone }
{}

/// How far the tag of a child word rises: since an earlier state by the number of the cards that have changed the word, none of
/// which had ended then. So the tag that a card expects is not far from the one that stands there.
pub fn tags_rise_by_cards()
    // In every state of every run the tag where a card has made its child exchange, while its flag stands, is the next one
    // after the one that it expected.
    ensures tags { EveryStateHasTags }
    // A state comes from itself, each event leads on, and so does a run: tags rise by the cards that change their words.
    ensures begins { TagsBegin }
    ensures events { TagsLeadOn }
    ensures runs { TagsRiseByCards }
    // So where a card makes its child exchange that had not ended in the earlier state, the tag is no less than the one that
    // the card expects, and greater by one and the number of such cards at most.
    ensures lags { TagsLagLittle }
{}

/// Epochs: whoever takes the slot of a card that was set free, each pass that is in an operation began that when the
/// card was gone.
pub fn taken_cards_were_gone()
    // A state in which nothing has begun has what the protocol rests on.
    ensures starts { GraceStarts }
    // Each step of the protocol keeps it.
    ensures steps { GraceGoesOn }
    // Where it holds, and a free card's retire epoch is below a safe epoch, each pass that is in an operation began
    // that when the card was gone.
    ensures taken { TakenCardsWereGone }
{}

/// The premises of these laws can be met.
pub fn grace_premises_can_be_met()
    // There is a state of a run in which a worker begins at the root when a node is gone.
    ensures begins { BeginsWhenGone }
    // There is a state of the protocol in which a pass may take the slot of a free card while a pass is in an operation.
    ensures takes { TakesWhenBusy 1 }
{}
