//! A worker that is held at each kind of step in turn, while another makes whole calls on the same key.
ghost use Rattle.ell_test_threads.specs.Sharing.{IsMember};

use super::calling::KeyCall::{self, Ask};
use super::calling::{answer, close};
use super::parting::{joined, parted};
use super::telling::opened_for;
use ell_ops::Op::{Delete, Find, Insert};
use ell_ops::Reply;
use ell_ops::Reply::{Found, No, Yes};
use ell_test_gates::{Turns, Until, WorkerTurn, two_threads_meet};
use ell_tree::{Exchange, Kind, Pass, StepGate, Tree};
use std::alloc::Global;
use std::process::Abort;
use std::thread::{Threads, join};

/// A call, and what it answers.
pub type Row = (KeyCall, Reply);

/// Makes calls one after the other, each of which is to be answered as its row says.
pub fn play<G: StepGate>(
    rt: &impl Abort,
    tree: &Tree<Global>,
    pass: Pass<Global>,
    owned: &[u64],
    gate: &G,
    rows: &[Row],
) -> Pass<Global>
    requires { IsMember owned.now tree.now pass }
    ensures { IsMember owned.now tree.now result }
{
    let mut pass = pass;
    for (number, (call, want)) in rows.iter().enumerate() {
        let said = answer(rt, tree, &mut pass, owned, *call, gate);
        let worker = pass.label();
        assert!(rt; said == Ok(*want), "row {number} of worker {worker}");
    }
    pass
}

/// Two workers: worker 0 is held at a step of its calls, until worker 1 has made others. The keys at the start and at the
/// end, with their values; those that have owners, and those of them that worker 0 owns.
#[derive(Clone, Copy)]
pub struct Meeting<'a> {
    pub owned: &'a [u64],
    pub by_zero: &'a [u64],
    pub start: &'a [(u64, u64)],
    pub held: &'a [Row],
    pub rows: &'a [Row],
    pub end: &'a [(u64, u64)],
}

/// Kinds of step, at each of which worker 0 is held until worker 1 has ended so many operations, of which a put or an
/// update makes two or more; and how the two meet.
pub type Meetings<'a> = (&'a [Kind], u64, Meeting<'a>);

/// Has the two meet in each of these ways.
pub fn meet_all<R: Threads + Abort + AllocGlobal + Sync>(rt: &R, rows: &[Meetings]) {
    if !two_threads_meet(rt) {
        return;
    }
    for (kinds, ends, meeting) in rows {
        meet_at_each(rt, kinds, *ends, *meeting);
    }
}

/// Turns in which worker 0 is held at its first step of a kind, until worker 1 has ended so many operations.
pub fn held_at(rt: &(impl Abort + AllocGlobal), at: Kind, ends: u64) -> Vec<WorkerTurn> {
    let mut turns = Vec::new(rt.alloc());
    turns.push((0, Until::Comes(at, 1))).expect(rt, "memory");
    let all = ends.saturating_add(1) as usize;
    turns.resize(all, (1, Until::Ends)).expect(rt, "memory");
    turns
}

fn meet_at_each<R: Threads + Abort + AllocGlobal + Sync>(
    rt: &R,
    kinds: &[Kind],
    ends: u64,
    meeting: Meeting,
) {
    for at in kinds {
        meet_in_turns(rt, &held_at(rt, *at, ends), meeting);
    }
}

/// Has the two make their calls in turns.
pub fn meet_in_turns<R: Threads + Abort + AllocGlobal + Sync>(
    rt: &R,
    turns: &[WorkerTurn],
    meeting: Meeting,
) {
    let gate = Turns::new(turns);
    meet_under(rt, &gate, meeting);
    assert!(rt; gate.are_over());
}

// Has the two make their calls under a gate.
fn meet_under<R: Threads + Abort + AllocGlobal + Sync, G: StepGate + Sync>(
    rt: &R,
    gate: &G,
    meeting: Meeting,
) {
    let (owned, held, rows) = (meeting.owned, meeting.held, meeting.rows);
    let (tree, pass) = opened_for(rt, meeting.start, owned, 100);
    let (zero, mut one) = parted(rt, &tree, pass, owned, meeting.by_zero);
    one.relabel(1);
    let shared = &tree;
    let (zero, one) = join(
        rt,
        move || play(rt, shared, zero, owned, gate, held),
        move || play(rt, shared, one, owned, gate, rows),
    );
    let pass = joined(rt, &tree, owned, zero, one);
    let pairs = close(rt, tree, pass, owned);
    assert!(rt; pairs.as_slice() == meeting.end);
}

/// The kinds of the steps of an insert or a swap up to its flag, and of a delete: until then the key may change.
pub const TO_INSERT: [Kind; 6] = [
    Kind::Begin,
    Kind::Note,
    Kind::Look,
    Kind::Exchange(Exchange::Claim),
    Kind::Fill,
    Kind::Exchange(Exchange::IFlag),
];

pub const TO_DELETE: [Kind; 6] = [
    Kind::Begin,
    Kind::Note,
    Kind::Look,
    Kind::Exchange(Exchange::Claim),
    Kind::Fill,
    Kind::Exchange(Exchange::DFlag),
];

// Worker 0 has not flagged yet: it is as if its insert began behind the others.
const BEFORE_ITS_FLAG: Meeting = Meeting {
    owned: &[],
    by_zero: &[],
    start: &[],
    held: &[(Ask(Insert(5, 50)), No)],
    rows: &[
        (Ask(Find(5)), No),
        (Ask(Insert(5, 51)), Yes),
        (Ask(Find(5)), Found(51)),
        (Ask(Delete(5)), Yes),
        (Ask(Find(5)), No),
        (Ask(Insert(5, 52)), Yes),
    ],
    end: &[(5, 52)],
};

// Its flag stands: a change on the same key makes its exchange for it, and finds the key.
const BEHIND_ITS_FLAG: Meeting = Meeting {
    held: &[(Ask(Insert(5, 50)), Yes)],
    rows: &[
        (Ask(Find(5)), No),
        (Ask(Insert(5, 51)), No),
        (Ask(Find(5)), Found(50)),
        (Ask(Delete(5)), Yes),
        (Ask(Find(5)), No),
        (Ask(Insert(5, 52)), Yes),
    ],
    ..BEFORE_ITS_FLAG
};

// Its exchange is made.
const BEHIND_ITS_EXCHANGE: Meeting = Meeting {
    held: &[(Ask(Insert(5, 50)), Yes)],
    rows: &[
        (Ask(Find(5)), Found(50)),
        (Ask(Insert(5, 51)), No),
        (Ask(Delete(5)), Yes),
        (Ask(Delete(5)), No),
        (Ask(Insert(5, 52)), Yes),
    ],
    ..BEFORE_ITS_FLAG
};

static AN_INSERT: [Meetings<'static>; 3] = [
    (&TO_INSERT, 6, BEFORE_ITS_FLAG),
    (&[Kind::Exchange(Exchange::IChild)], 6, BEHIND_ITS_FLAG),
    (&[Kind::Exchange(Exchange::IUnflag)], 5, BEHIND_ITS_EXCHANGE),
];

#[test]
fn others_go_past_an_insert_of_their_key(rt: HostRuntime) {
    meet_all(&rt, &AN_INSERT);
}

// Worker 0 has not flagged yet: it is as if its delete began behind the others.
const BEFORE_ITS_DELETE: Meeting = Meeting {
    owned: &[],
    by_zero: &[],
    start: &[(3, 30), (5, 50), (7, 70)],
    held: &[(Ask(Delete(5)), No)],
    rows: &[
        (Ask(Find(5)), Found(50)),
        (Ask(Insert(5, 51)), No),
        (Ask(Delete(5)), Yes),
        (Ask(Find(5)), No),
        (Ask(Insert(5, 52)), Yes),
        (Ask(Find(5)), Found(52)),
        (Ask(Delete(5)), Yes),
    ],
    end: &[(3, 30), (7, 70)],
};

// Its flag stands, and its mark too: another delete ends it, and finds no key.
const BEHIND_ITS_DELETE_FLAG: Meeting = Meeting {
    held: &[(Ask(Delete(5)), Yes)],
    rows: &[
        (Ask(Find(5)), Found(50)),
        (Ask(Delete(5)), No),
        (Ask(Find(5)), No),
        (Ask(Insert(5, 51)), Yes),
        (Ask(Find(5)), Found(51)),
    ],
    end: &[(3, 30), (5, 51), (7, 70)],
    ..BEFORE_ITS_DELETE
};

// Its parent is cut out.
const BEHIND_ITS_CUT: Meeting = Meeting {
    rows: &[
        (Ask(Find(5)), No),
        (Ask(Delete(5)), No),
        (Ask(Insert(5, 51)), Yes),
        (Ask(Find(5)), Found(51)),
    ],
    ..BEHIND_ITS_DELETE_FLAG
};

static A_DELETE: [Meetings<'static>; 3] = [
    (&TO_DELETE, 7, BEFORE_ITS_DELETE),
    (
        &[
            Kind::Exchange(Exchange::Mark),
            Kind::Exchange(Exchange::DChild),
        ],
        5,
        BEHIND_ITS_DELETE_FLAG,
    ),
    (&[Kind::Exchange(Exchange::DUnflag)], 4, BEHIND_ITS_CUT),
];

#[test]
fn others_go_past_a_delete_of_their_key(rt: HostRuntime) {
    meet_all(&rt, &A_DELETE);
}

// Between the flag of worker 0 and its mark, worker 1 adds a neighbor at its place: so the mark is lost. Worker 0 is
// held again before it takes its flag back, and then deletes what it finds.
static BEHIND_A_LOST_MARK: Meeting = Meeting {
    held: &[(Ask(Delete(5)), Yes)],
    rows: &[
        (Ask(Insert(6, 60)), Yes),
        (Ask(Find(5)), Found(50)),
        (Ask(Delete(5)), Yes),
        (Ask(Find(5)), No),
        (Ask(Insert(5, 51)), Yes),
    ],
    end: &[(3, 30), (6, 60), (7, 70)],
    ..BEFORE_ITS_DELETE
};

const TURNS: [WorkerTurn; 8] = [
    (0, Until::Comes(Kind::Exchange(Exchange::Mark), 1)),
    (1, Until::Ends),
    (0, Until::Comes(Kind::Exchange(Exchange::Backtrack), 1)),
    (1, Until::Ends),
    (1, Until::Ends),
    (1, Until::Ends),
    (1, Until::Ends),
    (0, Until::Ends),
];

#[test]
fn others_go_past_a_delete_that_lost_its_mark(rt: HostRuntime) {
    if two_threads_meet(&rt) {
        meet_in_turns(&rt, &TURNS, BEHIND_A_LOST_MARK);
    }
}
