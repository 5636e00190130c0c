//! The update word of an internal node: a state and the card of the operation that set it.
ghost use Rattle.std.specs.Prelude.{◌≡◌, ◌≤◌, ℕ};
ghost use Rattle.ell_word.specs.Node.{greatest_number};
ghost use Rattle.ell_word.specs.Word.{packed, unpacked};
ghost use Rattle.ell_word.specs.declared.update.Update.{Update};

/// The state of an internal node (figure 7 of the paper).
#[derive(Clone, Copy, Debug, PartialEq, Eq)]
pub enum State {
    /// An insert is about to change a child.
    IFlag,
    /// A delete is about to change a child.
    DFlag,
    /// The node is being cut out, and no longer changes.
    Mark,
    /// Nothing is going on.
    Clean,
}

/// What an update word says.
#[derive(Clone, Copy, Debug, PartialEq, Eq)]
pub struct Update {
    pub state: State,
    /// The card of the operation that set the state last; 0 if none did.
    pub card: u64,
}

/// Returns the word of an update: four times the card plus the state's number. Condition: the card is at most
/// `NUMBER_MAX`.
pub fn pack(update: Update) -> u64
    requires { update.card ≤ greatest_number }
    // Returns the word of the card and the state.
    ensures { result ≡ packed update }
{
    let number = match update.state {
        State::IFlag => 0,
        State::DFlag => 1,
        State::Mark => 2,
        State::Clean => 3,
    };
    4 * update.card + number
}

/// Returns what a word says, whichever word it is: packing the result gives the word again.
pub fn unpack(word: u64) -> Update
    // Returns the card and the state that the word says.
    ensures update { result ≡ unpacked word }
    // Packing undoes unpacking.
    ensures again { packed result ≡ word }
{
    let state = match word % 4 {
        0 => State::IFlag,
        1 => State::DFlag,
        2 => State::Mark,
        _ => State::Clean,
    };
    Update {
        state,
        card: word / 4,
    }
}

/// Packing and unpacking undo each other: each update has its own word, and each word is that of one update.
pub fn packs()
    // Unpacking undoes packing, for every card and state.
    ensures back { (update : Update) → unpacked (packed update) ≡ update }
    // Packing undoes unpacking, for every word.
    ensures again { (word : ℕ) → packed (unpacked word) ≡ word }
{}
