//! Reports of runs. `tests/texts` has those that need no gate.
use ell_command::carry_out;
use ell_run::{Exchange, Kind};
use ell_test_gates::Until::{Comes, Ends};
use ell_test_gates::{Turns, two_threads_meet};

// Of two workers one has the inserts of 7 and 9, and meets at its first try what the other, which inserts 6, has begun. With one try
// both are late.
const THREE_INSERTS: &str = "insert 6\ninsert 7\ninsert 9\n";

const THREE_KEYS: &str = "yes\nyes\nyes\nkeys 3\n6\n7\n9\n";

static TRIES: [([&str; 4], &str); 2] = [
    (["run", "--workers=2", "--tries=1", "--report"], "late 2\n"),
    (["run", "--workers=2", "--tries=2", "--report"], "late 0\n"),
];

#[test]
fn a_report_tells_what_tries_were_too_few_for(rt: HostRuntime) {
    if !two_threads_meet(&rt) {
        return;
    }
    for (words, late) in TRIES.iter() {
        let turns = [(0, Comes(Kind::Exchange(Exchange::IChild), 1)), (1, Ends)];
        let gate = Turns::new(&turns);
        let (mut out, mut err) = (Vec::new(rt.alloc()), Vec::new(rt.alloc()));
        let mut input = THREE_INSERTS.as_bytes();
        let carried = carry_out(
            &rt,
            rt.alloc(),
            words,
            &mut input,
            &mut out,
            &mut err,
            &gate,
        );
        assert!(rt; carried.is_ok() && gate.are_over(), "{late}");
        assert!(rt; out.as_slice() == THREE_KEYS.as_bytes(), "{late}");
        assert!(rt; err.as_slice() == late.as_bytes());
    }
}
