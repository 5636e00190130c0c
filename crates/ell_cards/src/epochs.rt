//! Epochs: where a table's cards come back, a pass announces when it is in an operation or a look, and an epoch is safe
//! if every pass that is in one began it when the global epoch was that at least. Their steps are on words of their
//! own, and are not counted.
ghost use Rattle.std.specs.Prelude.{◌≡◌, ℕ, ◌≢◌, ◌⊎◌, ◌≤◌, ◌<◌, ◌+◌, ◌%◌, ◌==◌, max, if◌then◌else◌, is_some, None, Some, true, false, IfSome};
ghost use prog.Atomic.{either};
ghost use Rattle.ell_word.specs.Node.{greatest_card};
ghost use Rattle.ell_grace.specs.epochs.Grace.{least_with};
ghost use Rattle.ell_cards.specs.Models.{LooksAround, unpinned, last_slot_of};
ghost use Rattle.ell_cards.specs.Frames.{IsSeatOf, IsSeatWithSlots, KeepsSafeEpoch, LeavesTree, StandsStill};
ghost use Rattle.ell_cards.specs.Inside.{StandingFits};
ghost use Rattle.ell_runs.specs.Touching.{IsAtRest};
ghost use Rattle.ell_cards.specs.Epochs.{LooksAnew, after_announce, after_retract, after_epoch_read, after_give, after_look_at, after_release, after_take, after_advance, announced_by, epoch_word, last_epoch, announcement_word, slots_size};
ghost use Rattle.ell_cards.specs.Stepping.{MayGoOn};
ghost use Rattle.ell_cards.specs.Shown.{shown};

use crate::memory::{Memory, Seat};
use crate::pass::{Pass, Standing};
use crate::rule::{OnEpochs, ParticipantTelling};
use crate::table::CardTable;
use ell_runs::Slots;
use std::marker::Brand;

/// The epoch stops here, so that an announcement has a word for each epoch, and so has a slot that was set free with
/// it.
const LAST_EPOCH: u64 = 1_152_921_504_606_846_976;

/// Returns the address of the epoch: behind the group of the last card.
#[inline(always)]
pub(crate) fn epoch_word(slots: Slots) -> usize
    requires { slots.last ≤ greatest_card }
    ensures { result ≡ epoch_word slots }
{
    (774 + 768 * (slots.last / 64)) as usize
}

/// Returns the address of an announcement. The first announcement stands at the end.
#[inline(always)]
pub(crate) fn announcement_word(slots: Slots, announcement: u64) -> usize
    requires last { slots.last ≤ greatest_card }
    requires few { slots.announcements ≤ greatest_card }
    ensures { result ≡ announcement_word slots announcement }
{
    epoch_word(slots) + 1 + 8 * slots.announcements.saturating_sub(announcement) as usize
}

/// Returns the announcement at which to look after so many looks at those behind an announcement. The first
/// announcement comes after the last one.
#[inline(always)]
pub(crate) fn announcement_behind(slots: Slots, announcement: u64, looks: u64) -> u64
    requires few { slots.announcements ≤ greatest_card }
    requires looks { looks < slots.announcements }
    ensures there { result < slots.announcements }
    ensures is { result ≡ (announcement % slots.announcements + 1 + looks) % slots.announcements }
{
    (announcement % slots.announcements + 1 + looks) % slots.announcements
}

/// Returns how many words a table whose cards come back has.
pub(crate) fn slots_size(slots: Slots) -> usize
    requires last { slots.last ≤ greatest_card }
    requires few { slots.announcements ≤ greatest_card }
    ensures { result ≡ slots_size slots }
{
    epoch_word(slots) + 9 + 8 * slots.announcements as usize + 64 * (slots.last / 64 + 1) as usize
}

/// Returns the last slot: where cards do not come back each card has one of its own.
pub(crate) fn last_slot(slots: Option<Slots>, last_card: u64) -> u64
    ensures { result ≡ last_slot_of slots last_card }
{
    match slots {
        None => last_card,
        Some(slots) => slots.last,
    }
}

// Returns the least of a number and of what the word of an announcement announces, if it announces something.
fn least_with(least: u64, word: u64) -> u64
    ensures { result ≡ least_with least (announced_by word) }
{
    if word < 2 { least } else { least.min(word - 2) }
}

impl<M: Memory> CardTable<M> {
    /// A law, the contract of a function that does nothing: no pass of a table whose cards do not come back is pinned.
    #[inline(always)]
    pub fn pins_are_in_reusing_trees(&self, pass: &Pass<M>)
        requires own { pass.now.table ≡ self.now.id }
        // Where cards do not come back, the pass is not pinned.
        ensures { self.now.plan.slots ≡ None → pass.now.memory.is_pinned ≡ false }
    {
        let _ = &self.table;
        let _ = &pass.seat;
    }

    // Loads a word of epochs.
    #[inline(always)]
    pub(crate) fn epoch_load<J: ParticipantTelling>(&self, seat: &mut Seat<M>, word: usize) -> u64
        requires seat { IsSeatOf self.now seat.old }
        requires word { word < self.now.id.words }
        requires rule { MayGoOn self.now.plan seat.old.me.0 word (λ n. n) J.then }
        ensures told { J.then result seat.new.me.0.participant }
        ensures leaves { LeavesTree seat.old seat.new }
    {
        self.table.load::<OnEpochs<J>>(seat, word)
    }

    // Stores a word of epochs.
    #[inline(always)]
    fn epoch_store<J: ParticipantTelling>(&self, seat: &mut Seat<M>, word: usize, value: u64)
        requires seat { IsSeatOf self.now seat.old }
        requires word { word < self.now.id.words }
        requires rule { MayGoOn self.now.plan seat.old.me.0 word (λ n. value) (λ n. J.then value) }
        ensures told { J.then value seat.new.me.0.participant }
        ensures leaves { LeavesTree seat.old seat.new }
    {
        self.table.store::<OnEpochs<J>>(seat, word, value)
    }

    // Exchanges a word of epochs.
    #[inline(always)]
    pub(crate) fn epoch_exchange<J: ParticipantTelling>(
        &self,
        seat: &mut Seat<M>,
        word: usize,
        expected: u64,
        value: u64,
    ) -> u64
        requires seat { IsSeatOf self.now seat.old }
        requires word { word < self.now.id.words }
        requires rule { MayGoOn self.now.plan seat.old.me.0 word (λ n. either (n == expected) value n) J.then }
        ensures told { J.then result seat.new.me.0.participant }
        ensures leaves { LeavesTree seat.old seat.new }
    {
        self.table
            .compare_exchange::<OnEpochs<J>>(seat, word, expected, value)
    }

    // Returns the address of the epoch, which is one of the table.
    #[inline(always)]
    pub(crate) fn epoch_address(&self, slots: Slots) -> usize
        requires slots { self.now.plan.slots ≡ Some slots }
        ensures word { result ≡ epoch_word slots }
        ensures inside { result < self.now.id.words }
    {
        let _ = &self.table;
        epoch_word(slots)
    }

    // Returns the address of an announcement, which is one of the table.
    #[inline(always)]
    fn announcement_address(&self, slots: Slots, announcement: u64) -> usize
        requires slots { self.now.plan.slots ≡ Some slots }
        ensures word { result ≡ announcement_word slots announcement }
        ensures inside { result < self.now.id.words }
    {
        let _ = &self.table;
        announcement_word(slots, announcement)
    }

    // Reads the epoch, which never goes back.
    fn read_epoch(&self, seat: &mut Seat<M>, slots: Slots) -> u64
        requires seat { IsSeatWithSlots self.now slots seat.old }
        ensures epoch { seat.new.me.0.participant ≡ after_epoch_read result seat.old.me.0.participant }
        ensures low { result ≤ last_epoch }
        ensures later { (n : ℕ) → seat.old.me.0.participant.epoch ≡ Some n → n ≤ result }
        ensures since { seat.old.me.0.participant.surveyed.epoch ≤ result }
        ensures leaves { LeavesTree seat.old seat.new }
    {
        self.epoch_load::<Brand>(seat, self.epoch_address(slots))
    }

    // Announces an epoch for a pass that announces nothing.
    fn announce(&self, seat: &mut Seat<M>, slots: Slots, announcement: u64, epoch: u64)
        requires seat { IsSeatWithSlots self.now slots seat.old }
        requires announcement { seat.old.me.0.participant.announcement ≡ Some announcement }
        requires epoch { seat.old.me.0.participant.epoch ≡ Some epoch }
        requires low { epoch ≤ last_epoch }
        requires quiet { seat.old.me.0.participant.announced ≡ None }
        ensures announced { (global : ℕ) × (epoch ≤ global) ×
            (seat.new.me.0.participant ≡ after_announce epoch global seat.old.me.0.participant) }
        ensures leaves { LeavesTree seat.old seat.new }
    {
        self.epoch_store::<Brand>(
            seat,
            self.announcement_address(slots, announcement),
            epoch + 2,
        )
    }

    // Takes back what a pass at rest has announced.
    fn retract(&self, seat: &mut Seat<M>, slots: Slots, announcement: u64)
        requires seat { IsSeatWithSlots self.now slots seat.old }
        requires announcement { seat.old.me.0.participant.announcement ≡ Some announcement }
        requires rest { IsAtRest (shown seat.old.me.0.tree) }
        ensures announced { seat.new.me.0.participant ≡ after_retract seat.old.me.0.participant }
        ensures leaves { LeavesTree seat.old seat.new }
    {
        self.epoch_store::<Brand>(seat, self.announcement_address(slots, announcement), 1)
    }

    // Pins a pass, if cards come back and it is not pinned: it reads the epoch, and announces that.
    #[inline(always)]
    pub(crate) fn pin(&self, standing: &mut Standing, seat: &mut Seat<M>)
        requires seat { IsSeatOf self.now seat.old }
        requires fits { StandingFits standing.old seat.old.table_id.words seat.old.me.0.participant }
        ensures inside { is_some seat.new.me.0.participant.announced ≡ is_some self.now.plan.slots }
        ensures fits { StandingFits standing.new seat.new.table_id.words seat.new.me.0.participant }
        ensures keeps { KeepsSafeEpoch seat.old.me.0.participant seat.new.me.0.participant }
        ensures slot { seat.new.me.0.participant.slot ≡ seat.old.me.0.participant.slot }
        ensures retired { seat.new.me.0.participant.retired ≡ seat.old.me.0.participant.retired }
        ensures lost { seat.new.me.0.participant.lost ≡ seat.old.me.0.participant.lost }
        ensures leaves { LeavesTree seat.old seat.new }
    {
        let _ = &self.table;
        if standing.announces {
            return;
        }
        let (Some(slots), Some(announcement)) = (self.slots, standing.announcement) else {
            return;
        };
        let epoch = self.read_epoch(seat, slots);
        self.announce(seat, slots, announcement, epoch);
        standing.announces = true;
    }

    /// Unpins a pass at rest, if it is pinned.
    #[inline(always)]
    pub(crate) fn unpin(&self, pass: &mut Pass<M>)
        requires own { pass.old.table ≡ self.now.id }
        requires rest { IsAtRest pass.old.view }
        // The pass is not pinned. What it knows of the tree is as it was, and it has made no step that is counted.
        ensures { pass.new ≡ record (pass.old) { memory = unpinned pass.old.memory } }
    {
        if !pass.standing.announces {
            return;
        }
        let (Some(slots), Some(announcement)) = (self.slots, pass.standing.announcement) else {
            return;
        };
        self.retract(&mut pass.seat, slots, announcement);
        pass.standing.announces = false;
    }

    // Takes an announcement that no pass has, if it is free. Returns `true` if it was.
    fn take_announcement(&self, seat: &mut Seat<M>, slots: Slots, announcement: u64) -> bool
        requires seat { IsSeatWithSlots self.now slots seat.old }
        requires there { announcement < slots.announcements }
        requires none { seat.old.me.0.participant.other ≡ None }
        ensures taken { result ≡ true → seat.new.me.0.participant ≡
            after_take announcement 0 seat.old.me.0.participant }
        ensures lost { result ≡ false → seat.new.me.0.participant ≡ seat.old.me.0.participant }
        ensures leaves { LeavesTree seat.old seat.new }
    {
        self.epoch_exchange::<Brand>(seat, self.announcement_address(slots, announcement), 0, 1)
            == 0
    }

    // Takes an announcement that no pass has, if cards come back and one is free. It looks at each once, first at the
    // one behind the announcement that was found last, so that many announcements are found in a row with few looks at
    // those that are taken.
    pub(crate) fn find_announcement(&self, seat: &mut Seat<M>, found: u64) -> Option<u64>
        requires seat { IsSeatOf self.now seat.old }
        requires none { seat.old.me.0.participant.other ≡ None }
        ensures taken { IfSome result (λ q. (seat.new.me.0.participant ≡ after_take q 0 seat.old.me.0.participant) ×
            (self.now.plan.slots ≢ None)) }
        ensures lost { result ≡ None → seat.new.me.0.participant ≡ seat.old.me.0.participant }
        ensures leaves { LeavesTree seat.old seat.new }
    {
        let slots = self.slots?;
        for looks in 0..slots.announcements {
            let announcement = announcement_behind(slots, found, looks);
            if self.take_announcement(seat, slots, announcement) {
                return Some(announcement);
            }
        }
        None
    }

    // Gives the other announcement of a pass back, if it has one.
    pub(crate) fn give_back(&self, seat: &mut Seat<M>, announcement: Option<u64>)
        requires seat { IsSeatOf self.now seat.old }
        requires other { seat.old.me.0.participant.other ≡ announcement }
        requires none { self.now.plan.slots ≡ None → announcement ≡ None }
        ensures given { seat.new.me.0.participant ≡
            (if is_some announcement then after_give seat.old.me.0.participant else seat.old.me.0.participant) }
        ensures leaves { LeavesTree seat.old seat.new }
    {
        let (Some(slots), Some(announcement)) = (self.slots, announcement) else {
            return;
        };
        self.epoch_store::<Brand>(seat, self.announcement_address(slots, announcement), 0)
    }

    // Gives the announcement of a pass back that announces nothing, as the pass is given up.
    pub(crate) fn give_back_own(&self, seat: &mut Seat<M>, slots: Slots, announcement: u64)
        requires seat { IsSeatWithSlots self.now slots seat.old }
        requires announcement { seat.old.me.0.participant.announcement ≡ Some announcement }
        requires quiet { seat.old.me.0.participant.announced ≡ None }
        ensures free { seat.new.me.0.participant ≡ after_release seat.old.me.0.participant }
        ensures leaves { LeavesTree seat.old seat.new }
    {
        self.epoch_store::<Brand>(seat, self.announcement_address(slots, announcement), 0)
    }

    // Advances the epoch by one from the one that was read, unless it has advanced since.
    fn advance_from(&self, seat: &mut Seat<M>, slots: Slots, epoch: u64)
        requires seat { IsSeatWithSlots self.now slots seat.old }
        requires read { seat.old.me.0.participant.epoch ≡ Some epoch }
        requires low { epoch < last_epoch }
        ensures participant { seat.new.me.0.participant ≡ after_advance epoch seat.old.me.0.participant }
        ensures leaves { LeavesTree seat.old seat.new }
    {
        self.epoch_exchange::<Brand>(seat, self.epoch_address(slots), epoch, epoch + 1);
    }

    // Reads the epoch, and advances it, unless it stops there: by then it is past what it was when the pass looked at
    // all announcements last.
    pub(crate) fn advance(&self, seat: &mut Seat<M>, slots: Slots)
        requires seat { IsSeatWithSlots self.now slots seat.old }
        ensures on { IfSome seat.new.me.0.participant.epoch (λ n.
            (seat.old.me.0.participant.surveyed.epoch < n) ⊎ (n ≡ last_epoch)) }
        ensures read { seat.new.me.0.participant.epoch ≢ None }
        ensures still { StandsStill seat.old.me.0.participant seat.new.me.0.participant }
        ensures keeps { KeepsSafeEpoch seat.old.me.0.participant seat.new.me.0.participant }
        ensures retired { seat.new.me.0.participant.retired ≡ seat.old.me.0.participant.retired }
        ensures leaves { LeavesTree seat.old seat.new }
    {
        let epoch = self.read_epoch(seat, slots);
        if epoch < LAST_EPOCH {
            self.advance_from(seat, slots, epoch);
        }
    }

    // Looks at the next announcement, and returns its word.
    fn look_at(&self, seat: &mut Seat<M>, slots: Slots, announcement: u64) -> u64
        requires seat { IsSeatWithSlots self.now slots seat.old }
        requires next { announcement ≡ seat.old.me.0.participant.looked }
        requires there { announcement < slots.announcements }
        ensures looked { seat.new.me.0.participant ≡
            after_look_at slots.announcements result seat.old.me.0.participant }
        ensures leaves { LeavesTree seat.old seat.new }
    {
        self.epoch_load::<Brand>(seat, self.announcement_address(slots, announcement))
    }

    // Reads the epoch, and looks at all announcements. Returns the least number that it saw, which is the pass's safe
    // epoch from now on, unless the last one is greater.
    fn scan(&self, seat: &mut Seat<M>, slots: Slots) -> u64
        requires seat { IsSeatWithSlots self.now slots seat.old }
        ensures safe_epoch { seat.new.me.0.participant.safe_epoch ≡ max result seat.old.me.0.participant.safe_epoch }
        ensures least { seat.new.me.0.participant.surveyed.least ≡ result }
        ensures later { (n : ℕ) → seat.old.me.0.participant.epoch ≡ Some n →
            n ≤ seat.new.me.0.participant.surveyed.epoch }
        ensures since { seat.old.me.0.participant.surveyed.epoch ≤ seat.new.me.0.participant.surveyed.epoch }
        ensures low { seat.new.me.0.participant.surveyed.epoch ≤ last_epoch }
        ensures still { StandsStill seat.old.me.0.participant seat.new.me.0.participant }
        ensures retired { seat.new.me.0.participant.retired ≡ seat.old.me.0.participant.retired }
        ensures leaves { LeavesTree seat.old seat.new }
    {
        let _ = &self.table;
        let epoch = self.read_epoch(seat, slots);
        let mut least = epoch;
        for announcement in 0..slots.announcements {
            let word = self.look_at(seat, slots, announcement);
            least = least_with(least, word);
        }
        least
    }

    /// Advances the epoch, and looks at all announcements. Returns the least number that it saw, or the last safe epoch
    /// if that is greater: the pass's safe epoch from now on, which is never less than the last one. As
    /// `safe_epochs_are_safe` says, whenever a pass is pinned, it was pinned when the epoch was this at least. Returns
    /// 0 if the table's cards do not come back. Its steps are not counted.
    pub fn safe_epoch(&self, pass: &mut Pass<M>) -> u64
        requires own { pass.old.table ≡ self.now.id }
        // The pass has this safe epoch, and has looked at the announcements; it is otherwise unchanged, and has made no
        // step that is counted.
        ensures safe_epoch { LooksAround pass.old pass.new × (pass.new.memory.safe_epoch ≡ result) }
        // It is no less than the last one.
        ensures more { pass.old.memory.safe_epoch ≤ result }
        // It is the least that the pass has seen at the announcements, unless the last one is greater.
        ensures least { self.now.plan.slots ≢ None → result ≡
            max pass.new.memory.surveyed.least pass.old.memory.safe_epoch }
        // It has looked at them in this call.
        ensures anew { self.now.plan.slots ≢ None → LooksAnew pass.old.memory.surveyed pass.new.memory.surveyed }
        ensures later { pass.old.memory.surveyed.epoch ≤ pass.new.memory.surveyed.epoch }
        // A table whose cards do not come back has no safe epoch but 0.
        ensures none { self.now.plan.slots ≡ None → (result ≡ 0) × (pass.new ≡ pass.old) }
    {
        let _ = &pass.seat;
        let Some(slots) = self.slots else {
            return 0;
        };
        self.advance(&mut pass.seat, slots);
        let least = self.scan(&mut pass.seat, slots);
        let safe_epoch = least.max(pass.standing.safe_epoch);
        pass.standing.safe_epoch = safe_epoch;
        safe_epoch
    }

    /// Advances the epoch and looks at all announcements, if the pass has not done so yet: no retire epoch is below the
    /// safe epoch 0.
    pub(crate) fn look_first(&self, pass: &mut Pass<M>)
        requires own { pass.old.table ≡ self.now.id }
        ensures same { LooksAround pass.old pass.new }
        ensures more { pass.old.memory.safe_epoch ≤ pass.new.memory.safe_epoch }
        ensures later { pass.old.memory.surveyed.epoch ≤ pass.new.memory.surveyed.epoch }
    {
        if pass.standing.safe_epoch == 0 {
            self.safe_epoch(pass);
        }
    }
}
