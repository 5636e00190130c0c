//! Runs of a text, as a gate is told of them: how often an operation is tried.
use ell_run::{Parting, Settings, run_bytes};
use ell_test_gates::Until::{Comes, Ends};
use ell_test_gates::{Turns, two_threads_meet};
use ell_tree::{Exchange, Kind};

const ALONE: Settings = Settings {
    workers: 1,
    parting: Parting::Stripe,
    cards: None,
    tries: 1,
};

const TEXT: &[u8] = b"version 2\ninsert 6 60\ninsert 7 70\nfind 7\ninsert 9 90\n";

const ANSWER: &[u8] = b"yes\nyes\nyes 70\nyes\nkeys 3\n6 60\n7 70\n9 90\n";

#[test]
fn a_text_is_tried_as_often_as_its_settings_say(rt: HostRuntime) {
    if !two_threads_meet(&rt) {
        return;
    }
    // The first try of worker 1 meets the flag of worker 0, and takes it away; the second finds nothing in its way.
    for (tries, late) in [(1, 3), (2, 0)] {
        assert!(rt; 1 <= tries && tries <= 2);
        let settings = Settings {
            workers: 2,
            tries,
            ..ALONE
        };
        let turns = [(0, Comes(Kind::Exchange(Exchange::IChild), 1)), (1, Ends)];
        let gate = Turns::new(&turns);
        let (mut reader, mut out) = (TEXT, Vec::new(rt.alloc()));
        let report = run_bytes(&rt, rt.alloc(), &mut reader, &mut out, settings, &gate);
        let is_so = match report {
            Ok(report) => report.late == late,
            Err(_) => false,
        };
        assert!(rt;
            is_so && gate.are_over() && out.as_slice() == ANSWER,
            "{tries} tries"
        );
    }
}
