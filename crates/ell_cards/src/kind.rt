//! The kinds of trees, and what a table of each opens with.
ghost use Rattle.std.specs.Prelude.{◌≡◌};
ghost use Rattle.ell_cards.specs.Kinds.{is_flat, last_number, shares_others, slots_of};

use ell_runs::Slots;
use ell_word::NUMBER_MAX;

/// What a tree is like, beside its keys and its cards.
#[derive(Clone, Copy)]
pub enum TreeKind {
    /// A tree of the paper whose keys have owners: the given keys alone, which the first pass owns. An internal node has
    /// the greater of the two keys below it when it was added, so keys that come in order make a list.
    Owned,
    /// A tree of the paper in which every key up to `KEY_MAX` that is not among the given keys, which may be none, is
    /// shared: any pass may change it. The first pass owns the given keys.
    Shared,
    /// A tree with shared keys that is flat in whatever order keys come: the key of an internal node is the number between
    /// the two keys below it, when it was added, that has the most trailing zeros. So no internal node is more than 64
    /// deeper than the tree of the start keys, and the most steps of a call do not depend on the number of cards. An insert
    /// may put its node above an internal node.
    Flat,
    /// A flat tree whose cards come back, for at most this many passes at a time, 1 to 1,000,000. A card lies in a slot, of
    /// which there are as many as cards are asked for and start keys given, and one more. Once the nodes of a card are out
    /// of the tree, and no call that might know of them is under way, its slot is free for another card. A slot is held
    /// back while a call that began before it became free goes on, and behind a look or a scan until `end_looks`.
    ///
    /// `Spent` means that a change was not made and found no slot, and it may be made again. If more than `2 * n + 3 *
    /// p + 4 + y` cards were asked for, where the tree has `n` keys, there may be `p` passes, and `y` slots were set
    /// free too lately for the pass, then it returns `Spent` only if numbers are at an end: a slot serves 2^36 cards at
    /// most, one after the other, or is passed over instead. Only deletes take the last two slots, so in a tree that
    /// keys fill they can be taken away. All this, and that slots and announcements come back, is tested, and no clause
    /// says it.
    ///
    /// Each try of a change makes at most `2 * s + 2` steps more than in another flat tree, if `s` is the number of the
    /// last slot, and beside these some that are not counted, by which slots are looked for, set free and taken again.
    /// A split also returns `TooManyPasses` if it finds no announcement for one more pass; a pass that is released, or
    /// joined to another, makes room for one more, and one that is only dropped does not. The tree has no end yet:
    /// `close` is for trees whose cards do not come back.
    Reusing(u64),
}

impl TreeKind {
    // Whether every key that is not among the given keys is shared.
    pub(crate) fn shares_others(self) -> bool
        ensures { result ≡ shares_others self }
    {
        !matches!(self, TreeKind::Owned)
    }

    // Whether the tree is flat.
    pub(crate) fn is_flat(self) -> bool
        ensures { result ≡ is_flat self }
    {
        matches!(self, TreeKind::Flat | TreeKind::Reusing(_))
    }

    // The number of the last card, if this is the last one for which there is room at once.
    pub(crate) fn last_number(self, room: u64) -> u64
        ensures { result ≡ last_number self room }
    {
        match self {
            TreeKind::Owned | TreeKind::Shared | TreeKind::Flat => room,
            TreeKind::Reusing(_) => NUMBER_MAX,
        }
    }

    // The slots and the announcements, if cards come back.
    pub(crate) fn slots(self, room: u64) -> Option<Slots>
        ensures { result ≡ slots_of self room }
    {
        match self {
            TreeKind::Owned | TreeKind::Shared | TreeKind::Flat => None,
            TreeKind::Reusing(announcements) => Some(Slots {
                last: room,
                announcements,
            }),
        }
    }
}
