//! The rule of the table for `atomic_table`, and what its steps tell their callers.
use crate::view::{Known, Plan};
use atomic_table::{Join, Play, Split, TableRule};
use std::alloc::Allocator;
use std::marker::{Brand, PhantomData};

/// The rule of a card table.
pub(crate) struct CardRule;

impl<A: Allocator + Copy> TableRule<(), Known, Plan<A>> for CardRule {
    ghost use Rattle.ell_cards.specs.Whole.{IsWhole, first_known};

    ghost holds = { IsWhole };

    ghost first = { first_known };
}

/// What a step tells of the word that it found and of what is shown of what the pass knows of the tree after it. The caller of
/// the step picks it.
pub(crate) trait Telling {
    ghost use Rattle.std.specs.Prelude.{ℕ};
    ghost use Rattle.ell_runs.specs.declared.view.View.{View};

    ghost then: { ℕ → View → Type 0 };
}

impl Telling for Brand {
    ghost use Rattle.std.specs.Prelude.{⊤};

    ghost then = { λ found v. ⊤ };
}

/// A step that tells what its caller picked, leaves what the pass knows of epochs and of the history, and takes no
/// slot.
pub(crate) struct By<J> {
    told: PhantomData<J>,
}

impl<J: Telling> Play<(), Known> for By<J> {
    ghost use Rattle.std.specs.Prelude.{◌≡◌};
    ghost use Rattle.ell_cards.specs.Shown.{shown};

    ghost then = { λ step old found new. J.then found (shown new.0.tree)
        × (new.0.participant ≡ old.0.participant) × (new.1 ≡ old.1) × (new.0.sight ≡ old.0.sight) };
}

/// What a step tells of the word that it found and of what is shown of what the pass knows of the tree after it, and
/// what the pass notes of epochs by that word. The caller of the step picks both.
pub(crate) trait Noting {
    ghost use Rattle.std.specs.Prelude.{ℕ};
    ghost use Rattle.ell_cards.specs.declared.view.Participant.{Participant};
    ghost use Rattle.ell_runs.specs.declared.view.View.{View};

    ghost then: { ℕ → View → Type 0 };

    ghost notes: { ℕ → Participant → Participant };
}

impl Noting for Brand {
    ghost use Rattle.std.specs.Prelude.{⊤};

    ghost then = { λ found v. ⊤ };

    ghost notes = { λ found p. p };
}

/// A step that tells and notes what its caller picked, leaves what the pass knows of the history, and takes no slot.
pub(crate) struct Noted<J> {
    told: PhantomData<J>,
}

impl<J: Noting> Play<(), Known> for Noted<J> {
    ghost use Rattle.std.specs.Prelude.{◌≡◌};
    ghost use Rattle.ell_cards.specs.Shown.{shown};

    ghost then = { λ step old found new. J.then found (shown new.0.tree)
        × (new.0.participant ≡ J.notes found old.0.participant) × (new.1 ≡ old.1) × (new.0.sight ≡ old.0.sight) };
}

/// What a step tells, as `Telling`, and the step call that it is, by which the pass may see more of the history. The caller of
/// the step picks both.
pub(crate) trait Marking {
    ghost use Rattle.std.specs.Prelude.{ℕ};
    ghost use Rattle.ell_runs.specs.declared.call.Call.{Call};
    ghost use Rattle.ell_runs.specs.declared.view.View.{View};

    ghost then: { ℕ → View → Type 0 };

    ghost call: { Call };
}

impl Marking for Brand {
    ghost use Rattle.std.specs.Prelude.{⊤};
    ghost use Rattle.ell_runs.specs.declared.call.Call.TheVariants as call;

    ghost then = { λ found v. ⊤ };

    ghost call = { call.Look };
}

/// A step that tells what its caller picked, by which the pass sees what the step call tells of the history, and that
/// leaves what the pass knows of epochs, and takes no slot.
pub(crate) struct Marked<J> {
    told: PhantomData<J>,
}

impl<J: Marking> Play<(), Known> for Marked<J> {
    ghost use Rattle.std.specs.Prelude.{◌≡◌};
    ghost use Rattle.ell_runs.specs.Seeing.{Marks};
    ghost use Rattle.ell_cards.specs.Shown.{shown};

    ghost then = { λ step old found new. J.then found (shown new.0.tree)
        × (new.0.participant ≡ old.0.participant) × (new.1 ≡ old.1)
        × Marks J.call (shown old.0.tree) old.0.sight new.0.sight };
}

/// What a step tells, as `Telling`, and the plan of the table, whose history the pass sees by it. The caller of the step picks
/// both.
pub(crate) trait TellingAll {
    ghost use Rattle.std.specs.Prelude.{ℕ};
    ghost use Rattle.ell_runs.specs.Plans.{TablePlan};
    ghost use Rattle.ell_runs.specs.declared.view.View.{View};

    ghost then: { ℕ → View → Type 0 };

    ghost plan: { TablePlan };
}

impl TellingAll for Brand {
    ghost use Rattle.std.specs.Prelude.{[], None, ⊤, false};

    ghost then = { λ found v. ⊤ };

    ghost plan = { record { keys = []; start = []; last_card = 0; shared = false; flat = false; slots = None } };
}

/// A step that tells what its caller picked, by which the pass sees all of the table's history, and that leaves what
/// the pass knows of epochs, and takes no slot.
pub(crate) struct All<J> {
    told: PhantomData<J>,
}

impl<J: TellingAll> Play<(), Known> for All<J> {
    ghost use Rattle.std.specs.Prelude.{◌≡◌};
    ghost use Rattle.ell_runs.specs.Seeing.{HasSeenAll, HasSeenMore};
    ghost use Rattle.ell_cards.specs.Shown.{shown};

    ghost then = { λ step old found new. J.then found (shown new.0.tree)
        × (new.0.participant ≡ old.0.participant) × (new.1 ≡ old.1)
        × HasSeenMore old.0.sight new.0.sight × HasSeenAll J.plan (shown old.0.tree) new.0.sight
        × (new.0.sight.begun ≡ old.0.sight.begun) };
}

/// A step of a look that tells what its caller picked, by which the pass sees all of the table's history, and where in
/// it what the look has found stands, and that leaves what the pass knows of epochs, and takes no slot.
pub(crate) struct Looked<J> {
    told: PhantomData<J>,
}

impl<J: TellingAll> Play<(), Known> for Looked<J> {
    ghost use Rattle.std.specs.Prelude.{◌≡◌};
    ghost use Rattle.ell_runs.specs.LookPlaces.{FindsHavePlaces, SeesMoreInLook};
    ghost use Rattle.ell_cards.specs.Shown.{shown};

    ghost then = { λ step old found new. J.then found (shown new.0.tree)
        × (new.0.participant ≡ old.0.participant) × (new.1 ≡ old.1)
        × SeesMoreInLook old.0.sight new.0.sight × FindsHavePlaces J.plan (shown new.0.tree) new.0.sight };
}

/// What a step tells of the word that it found and of what the pass knows of epochs after it. The caller of the step
/// picks it.
pub(crate) trait ParticipantTelling {
    ghost use Rattle.std.specs.Prelude.{ℕ};
    ghost use Rattle.ell_cards.specs.declared.view.Participant.{Participant};

    ghost then: { ℕ → Participant → Type 0 };
}

impl ParticipantTelling for Brand {
    ghost use Rattle.std.specs.Prelude.{⊤};

    ghost then = { λ found p. ⊤ };
}

/// A step that tells what its caller picked, leaves what the pass knows of the tree and of the history, and takes no slot.
pub(crate) struct OnEpochs<J> {
    told: PhantomData<J>,
}

impl<J: ParticipantTelling> Play<(), Known> for OnEpochs<J> {
    ghost use Rattle.std.specs.Prelude.{◌≡◌};

    ghost then = { λ step old found new. J.then found new.0.participant
        × (new.0.tree ≡ old.0.tree) × (new.1 ≡ old.1) × (new.0.sight ≡ old.0.sight) };
}

/// The keys of the left part of a split. The caller picks them.
pub(crate) trait SplitBy {
    ghost use Rattle.std.specs.Prelude.{ℕ, List};

    ghost keys: { List ℕ };
}

impl SplitBy for Brand {
    ghost use Rattle.std.specs.Prelude.{[]};

    ghost keys = { [] };
}

/// A split by the keys that its caller picked. The right part gets the other announcement of the pass.
pub(crate) struct PartedBy<J> {
    parts: PhantomData<J>,
}

impl<J: SplitBy> Split<Known> for PartedBy<J> {
    ghost use Rattle.ell_runs.specs.Changes.{left_view, right_view};
    ghost use Rattle.ell_cards.specs.Epochs.{after_give, given_participant};
    ghost use Rattle.ell_runs.specs.Sights.{given_sight};

    ghost left = { λ k. record k { tree = left_view J.keys k.tree; participant = after_give k.participant } };

    ghost right = { λ k. record {
      tree = right_view J.keys k.tree;
      participant = given_participant k.participant;
      sight = given_sight k.sight;
    } };
}

/// A join: one pass has what two had, and the other nothing.
pub(crate) struct Joined;

impl Join<Known> for Joined {
    ghost use Rattle.ell_cards.specs.Whole.{joined_known, spent_known};

    ghost both = { joined_known };

    ghost spent = { spent_known };
}
