//! What a worker reports of its steps.
ghost use Rattle.ell_cards.specs.StepKinds.{IsOfKind};

use ell_core::Exchange;
use ell_runs::Call;

/// The kinds of step that a worker makes. All but `Begin` are one atomic step each.
#[derive(Clone, Copy, Debug, PartialEq, Eq)]
pub enum StepKind {
    /// The start of a find, insert or delete: no step yet.
    Begin,
    /// Takes an operation in hand, starts its search anew, gives it up or answers it.
    Note,
    /// Reads a word.
    Look,
    /// Writes a word of a card in hand.
    Fill,
    /// Exchanges a word for a card.
    Exchange(Exchange),
}

/// Watches the steps of workers. Its calls return, and no promise rests on what they do.
pub trait StepGate {
    /// Called at the start of a find, insert or delete, and just before each of its atomic steps.
    fn before(&self, worker: u32, kind: StepKind);

    /// Called just before such a call returns. `answered` says whether it returns an answer.
    fn after(&self, worker: u32, answered: bool);
}

/// The gate that does nothing.
#[derive(Clone, Copy, Debug, PartialEq, Eq)]
pub struct NoGate;

impl StepGate for NoGate {
    fn before(&self, _worker: u32, _kind: StepKind) {}

    fn after(&self, _worker: u32, _answered: bool) {}
}

/// Returns the kind of the step that a call makes.
#[inline(always)]
pub(crate) fn kind_of(call: Call) -> StepKind
    ensures { IsOfKind call result }
{
    match call {
        Call::Begin(_) | Call::Again | Call::Leave | Call::Answer(_, _) => StepKind::Note,
        Call::Upd(_)
        | Call::Down(_, _)
        | Call::Next
        | Call::KeyOf(_)
        | Call::ValueOf(_)
        | Call::Info(_, _)
        | Call::FrozenChild(_, _, _)
        | Call::Look
        | Call::LookDown(_, _, _)
        | Call::Rest => StepKind::Look,
        Call::Claim(_, _) => StepKind::Exchange(Exchange::Claim),
        Call::Fill(_, _, _) => StepKind::Fill,
        Call::IFlag(_, _, _) => StepKind::Exchange(Exchange::IFlag),
        Call::IChild(_, _, _, _, _) => StepKind::Exchange(Exchange::IChild),
        Call::IUnflag(_, _) => StepKind::Exchange(Exchange::IUnflag),
        Call::DFlag(_, _, _) => StepKind::Exchange(Exchange::DFlag),
        Call::Mark(_, _, _) => StepKind::Exchange(Exchange::Mark),
        Call::DChild(_, _, _, _, _) => StepKind::Exchange(Exchange::DChild),
        Call::DUnflag(_, _) => StepKind::Exchange(Exchange::DUnflag),
        Call::Backtrack(_, _) => StepKind::Exchange(Exchange::Backtrack),
    }
}
