//! A source or a host that fails in the middle of a call.
use crate::run::{
    READY, WORKFLOW, call, init, replied, replies_behind, run, source_of, with_store,
};
use nova_mem::MemHost;
use std::alloc::{AllocError, Global};
use std::test::Fail;

/// The sessions of two calls, the second of which opens the store that the first one left.
const SESSION: &str = "load raw\n+1\t/a\t1\n.\nrun all\nrun count\nshow tally\n";

const SESSION_BEHIND: &str = "load raw\n+2\t/a\t2\n.\nrun all\nrun count\nshow sums\n";

/// The replies to the first command, to the first two and so on.
const LOADED: &str = "loaded raw 1\n";

const RAN: &str = "loaded raw 1\nran all 1\n";

const COUNTED: &str = "loaded raw 1\nran all 1\nran count 1\n";

const SHOWN: &str = "loaded raw 1\nran all 1\nran count 1\n+/a\t1\nshown tally 1 1\n";

const LOADED_AGAIN: &str =
    "loaded raw 1\nran all 1\nran count 1\n+/a\t1\nshown tally 1 1\nloaded raw 2\n";

const RAN_AGAIN: &str =
    "loaded raw 1\nran all 1\nran count 1\n+/a\t1\nshown tally 1 1\nloaded raw 2\nran all 2\n";

const COUNTED_AGAIN: &str =
    "loaded raw 1\nran all 1\nran count 1\n+/a\t1\nshown tally 1 1\nloaded raw 2\nran all 2\nran count 2\n";

const ALL: &str =
    "loaded raw 1\nran all 1\nran count 1\n+/a\t1\nshown tally 1 1\nloaded raw 2\nran all 2\nran count 2\n+/a\t2\t3\t2\nshown sums 2 1\n";

/// What a later call is asked, which goes on from the state that the last whole run of `count` left,
/// and what it shows behind no command, one load, a run of each task, and both of each.
const LATER: &str = "show raw\nshow tally\nshow sums\nrun count\nshow sums\n";

const NOTHING: &str =
    "shown raw 0 0\nshown tally 0 0\nshown sums 0 0\nran count 1\nshown sums 1 0\n";

const ONE_LOAD: &str =
    "+1\t/a\t1\nshown raw 1 1\nshown tally 0 0\nshown sums 0 0\nran count 1\n+/a\t1\t1\t1\nshown sums 1 1\n";

const ONE_RUN: &str =
    "+1\t/a\t1\nshown raw 1 1\n+/a\t1\nshown tally 1 1\nshown sums 0 0\nran count 1\n+/a\t1\t1\t1\nshown sums 1 1\n";

const ONE_COUNT: &str =
    "+1\t/a\t1\nshown raw 1 1\n+/a\t1\nshown tally 1 1\n+/a\t1\t1\t1\nshown sums 1 1\nran count 2\n+/a\t1\t1\t1\nshown sums 2 1\n";

const TWO_LOADS: &str =
    "+1\t/a\t1\n+2\t/a\t2\nshown raw 2 2\n+/a\t1\nshown tally 1 1\n+/a\t1\t1\t1\nshown sums 1 1\nran count 2\n+/a\t2\t3\t2\nshown sums 2 1\n";

const TWO_RUNS: &str =
    "+1\t/a\t1\n+2\t/a\t2\nshown raw 2 2\n+/a\t2\nshown tally 2 1\n+/a\t1\t1\t1\nshown sums 1 1\nran count 2\n+/a\t2\t3\t2\nshown sums 2 1\n";

const TWO_COUNTS: &str =
    "+1\t/a\t1\n+2\t/a\t2\nshown raw 2 2\n+/a\t2\nshown tally 2 1\n+/a\t2\t3\t2\nshown sums 2 1\nran count 3\n+/a\t2\t3\t2\nshown sums 3 1\n";

#[test]
fn failed_read_ends_behind_whole_commands(rt: HostRuntime) -> Result<(), Fail> {
    // the first piece ends inside the show
    let mut source = source_of(rt.alloc(), SESSION.as_bytes(), 40)?;
    source.fail_at(1)?;
    let mut host = with_store(rt.alloc())?;
    assert_eq!(rt;
        call(rt.alloc(), "run", &mut host, &mut source)?,
        2,
        "status"
    );
    assert!(rt; replied(&host, COUNTED), "replies");
    Ok(())
}

#[test]
fn failed_read_of_a_workflow_makes_no_store(rt: HostRuntime) -> Result<(), Fail> {
    // the first piece ends inside the columns
    let mut source = source_of(rt.alloc(), WORKFLOW.as_bytes(), 40)?;
    source.fail_at(1)?;
    let mut host = MemHost::new(rt.alloc());
    assert_eq!(rt;
        call(rt.alloc(), "init", &mut host, &mut source)?,
        2,
        "status"
    );
    assert!(rt; host.replies().is_empty(), "replies");
    assert!(rt; host.file(0).is_none() && host.file(1).is_none(), "files");
    assert_eq!(rt;
        run(rt.alloc(), &mut host, "show raw\n")?,
        6,
        "a later call"
    );
    Ok(())
}

/// What a later call may show behind these reply lines: the commands that they tell, or one more.
fn may_show(lines: &[u8]) -> [&'static str; 2] {
    if lines.len() < LOADED.len() {
        [NOTHING, ONE_LOAD]
    } else if lines.len() < RAN.len() {
        [ONE_LOAD, ONE_RUN]
    } else if lines.len() < COUNTED.len() {
        [ONE_RUN, ONE_COUNT]
    } else if lines.len() < SHOWN.len() {
        [ONE_COUNT, ONE_COUNT]
    } else if lines.len() < LOADED_AGAIN.len() {
        [ONE_COUNT, TWO_LOADS]
    } else if lines.len() < RAN_AGAIN.len() {
        [TWO_LOADS, TWO_RUNS]
    } else if lines.len() < COUNTED_AGAIN.len() {
        [TWO_RUNS, TWO_COUNTS]
    } else {
        [TWO_COUNTS, TWO_COUNTS]
    }
}

/// What two calls did of which the host's next call but so many failed.
struct Outcome {
    status: u8,
    lines: Vec<u8>,
    host: MemHost,
}

fn sessions_where_fails(alloc: Global, calls: u64) -> Result<Outcome, AllocError> {
    let mut host = with_store(alloc)?;
    host.fail_at(host.calls().saturating_add(calls))?;
    let mut status = run(alloc, &mut host, SESSION)?;
    if status == 0 {
        status = run(alloc, &mut host, SESSION_BEHIND)?;
    }
    let lines = replies_behind(&host, READY.len()).to_vec(alloc)?;
    Ok(Outcome {
        status,
        lines,
        host,
    })
}

#[test]
fn each_failed_call_leaves_a_front_of_the_sessions(rt: HostRuntime) -> Result<(), Fail> {
    let mut of_replies = 0_u64;
    let mut of_files = 0_u64;
    let mut is_done = false;
    for calls in 0..192 {
        let Outcome {
            status,
            lines,
            mut host,
        } = sessions_where_fails(rt.alloc(), calls)?;
        assert!(rt;
            ALL.as_bytes().starts_with(&lines),
            "replies where call {calls} fails"
        );
        assert_eq!(rt;
            status == 0,
            lines.as_slice() == ALL.as_bytes(),
            "end where call {calls} fails"
        );
        match status {
            0 => is_done = true,
            3 => of_files = of_files.saturating_add(1),
            _ => {
                assert_eq!(rt; status, 4, "status where call {calls} fails");
                of_replies = of_replies.saturating_add(1);
            }
        }
        if is_done {
            break;
        }
        let length = host.replies().len();
        let later = run(rt.alloc(), &mut host, LATER)?;
        assert_eq!(rt; later, 0, "a later call where call {calls} fails");
        let shown = replies_behind(&host, length);
        let [told, next] = may_show(&lines);
        assert!(rt;
            shown == told.as_bytes() || shown == next.as_bytes(),
            "the store where call {calls} fails"
        );
    }
    assert!(rt; is_done, "in the end no call fails");
    assert!(rt; of_files > 8, "calls on files fail");
    assert_eq!(rt; of_replies, 8, "each of the eight replies fails once");
    Ok(())
}

#[test]
fn each_failed_call_of_init_leaves_no_store_or_a_new_one(rt: HostRuntime) -> Result<(), Fail> {
    let mut of_replies = 0_u64;
    let mut of_files = 0_u64;
    let mut is_done = false;
    for calls in 0..32 {
        let mut host = MemHost::new(rt.alloc());
        host.fail_at(calls)?;
        match init(rt.alloc(), &mut host)? {
            0 => is_done = true,
            3 => of_files = of_files.saturating_add(1),
            status => {
                assert_eq!(rt; status, 4, "status where call {calls} fails");
                of_replies = of_replies.saturating_add(1);
            }
        }
        if is_done {
            break;
        }
        let is_marked = host.file(1).is_some();
        let length = host.replies().len();
        let later = run(rt.alloc(), &mut host, LATER)?;
        let (status, shown) = if is_marked { (0, NOTHING) } else { (6, "") };
        assert_eq!(rt; later, status, "a later call where call {calls} fails");
        assert_eq!(rt;
            replies_behind(&host, length),
            shown.as_bytes(),
            "the store where call {calls} fails"
        );
    }
    assert!(rt; is_done, "in the end no call fails");
    assert!(rt; of_files > 4, "calls on files fail");
    assert_eq!(rt; of_replies, 1, "the reply fails");
    Ok(())
}
