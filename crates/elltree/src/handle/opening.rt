//! How a handle is opened, makes another, and is given up.
ghost use Rattle.std.specs.Prelude.{◌≡◌, ◌≢◌, ◌≤◌, ◌↔◌, IfOk, IfErr, IsTrue, OnOk};
ghost use Rattle.std.specs.List.{All};
ghost use Rattle.std.specs.Map.{keys_of};
ghost use Rattle.ell_ops.specs.Meaning.{greatest_key};
ghost use Rattle.elltree.specs.Handles.{AnotherRefuses, AreKeys, HasAnother, IsLeast, IsOpened, IsOpenedReusing, IsStart, MayOpen, RefusesTree, as_pairs, handles_for};
ghost use Rattle.elltree.specs.declared.refusal.Refusal.TheVariants.{NoMemory};

use crate::handle::Handle;
use crate::refusal::Refusal;
use ell_cards::is_card_count;
use ell_ops::{all_fit, ascend};
use ell_tree::{Pair, START_MAX, Tree, TreeKind};
use std::alloc::{AllocError, Global};
use std::sync::Arc;

/// The most handles that a tree whose cards come back may be opened for.
pub const HANDLES_MAX: u64 = 1_000_000;

impl Handle {
    /// Opens a flat tree with the given number of cards that has the start keys with their values, and returns its
    /// first handle. Returns `BadStart` if the start keys do not strictly ascend or there are more than `START_MAX`,
    /// then `BadKey` if a start key is above `KEY_MAX`, then `BadCards` if the number of cards is not 1 to 1,000,000,
    /// and only then `NoMemory` if an allocation fails.
    pub fn open(alloc: Global, start: &[Pair], cards: u64) -> Result<Handle, Refusal>
        // The handle is the first of a new flat tree with the start pairs and the cards asked for, has the whole
        // share, and has seen nothing of the tree's history.
        ensures opened { IfOk result (IsOpened (as_pairs start.now) cards) }
        // `BadStart` is returned exactly if the start keys do not strictly ascend or there are more than 1,000,000,
        // then `BadKey` exactly for a key above the greatest one, then `BadCards` exactly if the number of cards is not
        // 1 to 1,000,000, and otherwise only `NoMemory`.
        ensures may { OnOk result (MayOpen (as_pairs start.now) cards) }
        ensures refused { IfErr result (RefusesTree (as_pairs start.now) cards) }
    {
        let pairs = pairs_to_open(alloc, start, cards)?;
        let (tree, pass) = Tree::open(alloc, TreeKind::Flat, &pairs, &[], cards)?;
        let tree = Arc::new(alloc, tree)?;
        Ok(Handle { tree, pass })
    }

    /// Opens a flat tree, as `open` does, whose cards come back, for this many handles, and returns the first of them.
    /// The number of handles is at least one and at most `HANDLES_MAX`; what is outside is taken as the nearest of
    /// these. A card lies in a slot, of which there is one for each card asked for and each start key, and one more.
    /// Once the nodes of a card are out of the tree, and no call that might know of them is under way, its slot is free
    /// for another card. A slot is held back while a call that began before it became free goes on.
    ///
    /// `Spent` means that a change was not made and found no slot, and it may be made again. If more than `2 * n + 3 *
    /// h + 4 + y` cards were asked for, where the tree has `n` keys, there may be `h` handles, and `y` slots were set
    /// free too lately for the call, then it returns `Spent` only as numbers come to an end, once slots were taken, or
    /// passed over as they were in use, 2^36 times (`cards_left`). Only deletes take the last two slots, so in a tree
    /// that keys fill they can be taken away. All this, and that slots and announcements come back, is tested, and no
    /// clause says it. `another` returns `TooManyHandles` if the tree has as many handles as asked for; one that is
    /// released makes room for another. Errors are as for `open`.
    pub fn open_reusing(
        alloc: Global,
        start: &[Pair],
        cards: u64,
        handles: u64,
    ) -> Result<Handle, Refusal>
        // The handle is the first of a new flat tree with the start pairs whose cards come back, with slots for the
        // cards asked for and announcements for the handles asked for, or the nearest number that there may be. It has
        // the whole share, and has seen nothing of the tree's history.
        ensures opened { IfOk result (IsOpenedReusing (as_pairs start.now) cards (handles_for handles)) }
        // `BadStart` is returned exactly if the start keys do not strictly ascend or there are more than 1,000,000,
        // then `BadKey` exactly for a key above the greatest one, then `BadCards` exactly if the number of cards is not
        // 1 to 1,000,000, and otherwise only `NoMemory`.
        ensures may { OnOk result (MayOpen (as_pairs start.now) cards) }
        ensures refused { IfErr result (RefusesTree (as_pairs start.now) cards) }
    {
        let pairs = pairs_to_open(alloc, start, cards)?;
        let kind = TreeKind::Reusing(handles.clamp(1, HANDLES_MAX));
        let (tree, pass) = Tree::open(alloc, kind, &pairs, &[], cards)?;
        let tree = Arc::new(alloc, tree)?;
        Ok(Handle { tree, pass })
    }

    /// Returns this handle and another of its tree. Returns `TooManyHandles` if the handle has the least share: the
    /// first handle of a tree gives more than a million others, and each of those gives fewer. In a tree whose cards
    /// come back it also returns that if it finds no place for one more handle. Otherwise returns `NoMemory` if an
    /// allocation fails. After either error the handle comes back as it was.
    #[tactic(auto, using(crate::proofs::lemmas::Parting::split_refused))]
    pub fn another(self) -> Result<(Handle, Handle), (Handle, Refusal)>
        // The handle goes on as it was, but for its share, and the other one has a piece of that. The other one has
        // seen of the tree's history what the handle has, and has no calls.
        ensures another { IfOk result (λ both. HasAnother self both.0 both.1) }
        // Where no card comes back, `TooManyHandles` is returned exactly if the share is the least one, and otherwise
        // only `NoMemory`. Where cards come back, it is returned in that case too, and may be in others. After either
        // error the handle comes back as it was.
        ensures may { OnOk result (¬ IsLeast self) }
        ensures why { IfErr result (λ refused. AnotherRefuses self refused.1) }
        ensures refused { IfErr result (λ refused. refused.0 ≡ self) }
    {
        if self.has_least_share() {
            return Err((self, Refusal::TooManyHandles));
        }
        let Ok(also) = Arc::try_clone(&self.tree) else {
            return Err((self, Refusal::NoMemory));
        };
        let Handle { tree, pass } = self;
        match tree.split(pass, &[]) {
            Ok((kept, other)) => {
                let kept = Handle { tree, pass: kept };
                let other = Handle {
                    tree: also,
                    pass: other,
                };
                Ok((kept, other))
            }
            Err((pass, fault)) => {
                let whole = Handle { tree, pass };
                Err((whole, Refusal::from(fault)))
            }
        }
    }

    /// Gives the handle up. In a tree whose cards come back, it makes room for another one; its share stays with
    /// nobody. The tree goes with its last handle.
    pub fn release(self) {
        let Handle { tree, pass } = self;
        tree.release(pass);
    }

    /// Returns whether the handle has the least share of its tree, and so can make no more handles.
    pub fn has_least_share(&self) -> bool
        // Returns `true` exactly if the handle's share is the least one.
        ensures { IsTrue result ↔ IsLeast self.now }
    {
        !self.pass.may_part()
    }
}

// The start pairs of a tree, as the tree has them, if it may be opened with these and the given number of cards.
#[tactic(auto, using(crate::proofs::lemmas::HostPairs::real_keys))]
fn pairs_to_open(alloc: Global, start: &[Pair], cards: u64) -> Result<Vec<(u64, u64)>, Refusal>
    ensures pairs { IfOk result (λ pairs. pairs.items ≡ as_pairs start.now) }
    ensures real { IfOk result (λ pairs. All (λ k. k ≤ greatest_key) (keys_of pairs.items)) }
    ensures may { OnOk result (MayOpen (as_pairs start.now) cards) }
    ensures refused { IfErr result (RefusesTree (as_pairs start.now) cards) }
{
    may_open(start, cards)?;
    Ok(pairs_of(alloc, start)?)
}

// Whether a tree may be opened with these start keys and the given number of cards, and if not, why.
fn may_open(start: &[Pair], cards: u64) -> Result<(), Refusal>
    ensures may { OnOk result (MayOpen (as_pairs start.now) cards) }
    ensures refused { IfErr result (λ why. RefusesTree (as_pairs start.now) cards why × (why ≢ NoMemory)) }
{
    if !is_start(start) {
        return Err(Refusal::BadStart);
    }
    if !are_keys(start) {
        return Err(Refusal::BadKey);
    }
    if !is_card_count(cards) {
        return Err(Refusal::BadCards);
    }
    Ok(())
}

// Whether a tree may begin with these start keys.
fn is_start(start: &[Pair]) -> bool
    ensures { IsTrue result ↔ IsStart (as_pairs start.now) }
{
    start.len() <= START_MAX && ascend(start)
}

// Whether these start keys are keys.
fn are_keys(start: &[Pair]) -> bool
    ensures { IsTrue result ↔ AreKeys (as_pairs start.now) }
{
    all_fit(start)
}

// The pairs of a host, as the tree has them.
fn pairs_of(alloc: Global, pairs: &[Pair]) -> Result<Vec<(u64, u64)>, AllocError>
    ensures { IfOk result (λ out. out.items ≡ as_pairs pairs.now) }
{
    pairs
        .iter()
        .map(|pair| (pair.key, pair.value))
        .collect(alloc)
}
