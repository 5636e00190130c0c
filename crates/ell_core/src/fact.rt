//! What a worker can know of a card.
ghost use Rattle.std.specs.Prelude.{◌≡◌};
ghost use Rattle.ell_core.specs.state.Facts.{told_by};

use ell_word::{State, unpack};

/// A fact about a card, which the fact names. Once it is true, it stays true.
#[derive(Clone, Copy, PartialEq, Eq, PartialOrd, Ord)]
pub enum Fact {
    /// The insert's flag was set.
    IFlagged(u64),
    /// The insert's child exchange was made.
    IChanged(u64),
    /// The insert's flag was taken away.
    IOver(u64),
    /// The delete's flag was set.
    DFlagged(u64),
    /// The delete's parent was marked.
    Marked(u64),
    /// The delete's parent can no longer be marked.
    Unmarkable(u64),
    /// The delete's child exchange was made.
    Cut(u64),
    /// The delete's flag was taken away after its child exchange.
    DOver(u64),
    /// The delete's flag was taken away after its lost mark.
    Backed(u64),
}

/// Returns the fact that an update word tells its reader: a flag or a mark tells that of its card, and a clean word
/// tells none.
pub fn told_by(word: u64) -> Option<Fact>
    // Returns the fact that the update word tells, if it tells one.
    ensures { result ≡ told_by word }
{
    let update = unpack(word);
    match update.state {
        State::IFlag => Some(Fact::IFlagged(update.card)),
        State::DFlag => Some(Fact::DFlagged(update.card)),
        State::Mark => Some(Fact::Marked(update.card)),
        State::Clean => None,
    }
}
