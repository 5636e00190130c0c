//! Runs and replays over a writer that cannot be flushed. `tests/texts` has many more texts, and `tests/refusals` writers that
//! take no more.
use super::streams::Unflushed;
use ell_command::elltree;
use std::thread::Threads;

const VALUES: &str = "version 2\nstart 3 33\ninsert 7 70\nfind 7\ndelete 3\nfind 3\n";

const VALUES_ANSWER: &str = "yes\nyes 70\nyes\nno\nkeys 1\n7 70\n";

const REPLAY: &str = "workers 1\ncards 1\nown 0 5\n0 begin find 5\n0 upd\n0 claim\n";

const TRACE: &str = "moved\nmoved\nrefused NotNow\nkeys 0\n";

// The words of a command, a text, its answer, and what stands on standard error at the end.
type End<'a> = (&'a [&'static str], &'a str, &'a str, &'a str);

static UNFLUSHED_ENDS: [End<'static>; 3] = [
    (&["run"], VALUES, VALUES_ANSWER, "elltree: write failed\n"),
    (
        &["run", "--report"],
        VALUES,
        VALUES_ANSWER,
        "late 0\nelltree: write failed\n",
    ),
    (&["replay"], REPLAY, TRACE, "elltree: write failed\n"),
];

// Whether the program ends so where standard output cannot be flushed.
fn ends<R: Threads + Sync + AllocGlobal>(rt: &R, end: &End) -> bool {
    let (words, text, answer, told) = *end;
    let (mut out, mut err) = (Unflushed::new(rt.alloc()), Vec::new(rt.alloc()));
    let mut input = text.as_bytes();
    let status = elltree(rt, rt.alloc(), words, &mut input, &mut out, &mut err);
    status == 4 && out.held.as_slice() == answer.as_bytes() && err.as_slice() == told.as_bytes()
}

#[test]
fn a_flush_that_fails_ends_the_run_and_the_replay_behind_all_else(rt: HostRuntime) {
    for (row, end) in UNFLUSHED_ENDS.iter().enumerate() {
        assert!(rt; ends(&rt, end), "row {row}");
    }
}
