//! Tests of the parser for lines of events, and of the lines that answer them.

use interleaving::{BadEventLine, EventLine, EventLines, Reply, push_reply, push_summary};
use job_bodies::{Plan, Pool};
use pool_machine::{Event, Outcome};
use std::alloc::Global;
use std::test::Fail;
use support::Counter;

fn plan_of_p_and_q(alloc: Global) -> Result<Plan, Fail> {
    let mut pools = Vec::new(alloc);
    for name in ["p", "q"] {
        pools.push(Pool {
            name: String::from_str(alloc, name)?,
            core: 1,
            max: 1,
            queue: 2,
            prestart: false,
            may_reject: false,
            unbounded: false,
            core_timeout: false,
        })?;
    }
    Ok(Plan::build(alloc, pools, Vec::new(alloc), Vec::new(alloc))?)
}

const BAD_LINES: &[&str] = &[
    "",
    "client",
    "client ",
    "client 01",
    "client 1000000001",
    "client +1",
    "client 1 ",
    "client 1\r",
    " client 1",
    "Job 1",
    "take z",
    "stuck",
    "stuck ",
    "stuck 0  1",
];

const EVENTS_READ: &[Event] = &[
    Event::Client(0),
    Event::Job(1_000_000_000),
    Event::Take(1),
    Event::Retire(0),
];

/// Tests that each form of line is parsed. A line with none of the forms is reported at its place
/// in the text, and the lines before and after it are parsed.
#[test]
fn lines_that_are_read(rt: HostRuntime) -> Result<(), Fail> {
    let plan = plan_of_p_and_q(rt.alloc())?;
    let text = b"client 0\njob 1000000000\ntake q\nretire p\nstuck 0 1";
    let mut lines = EventLines::new(&plan, text);
    for event in EVENTS_READ.iter().copied() {
        let line = lines.next();
        assert!(rt; matches!(line, Some(Ok(EventLine::Perform(happens))) if happens == event));
    }
    let Some(Ok(EventLine::Stuck(members))) = lines.next() else {
        return Err(Fail::from("the line asks nothing"));
    };
    assert_eq!(rt; members.to_vec(rt.alloc())?.as_slice(), [0, 1].as_slice());
    assert!(rt; lines.next().is_none());
    assert!(rt; EventLines::new(&plan, b"").next().is_none());
    for line in BAD_LINES.iter().copied() {
        let text = format!(in rt.alloc(); "client 0\n{line}\nclient 0\n")?;
        let mut lines = EventLines::new(&plan, text.as_bytes());
        assert!(rt; matches!(lines.next(), Some(Ok(_))), "{line}");
        assert!(rt; matches!(lines.next(), Some(Err(BadEventLine))), "{line}");
        assert!(rt; matches!(lines.next(), Some(Ok(_))), "{line}");
        assert!(rt; lines.next().is_none(), "{line}");
    }
    Ok(())
}

#[test]
fn lines_that_answer(rt: HostRuntime) -> Result<(), Fail> {
    let plan = plan_of_p_and_q(rt.alloc())?;
    let replies = [
        Reply::Performed(Outcome::Started(0)),
        Reply::Performed(Outcome::Queued(1)),
        Reply::Performed(Outcome::Refused(1)),
        Reply::Performed(Outcome::Rejected(0, 7)),
        Reply::Performed(Outcome::Worked(3)),
        Reply::Performed(Outcome::Got(0)),
        Reply::Performed(Outcome::Looped),
        Reply::Performed(Outcome::Finished(0)),
        Reply::Performed(Outcome::Took(1)),
        Reply::Performed(Outcome::Retired),
        Reply::Stuck(true),
        Reply::Stuck(false),
        Reply::NotPossible,
    ];
    let mut text = String::new(rt.alloc());
    let mut number = Counter::new(rt.alloc());
    for reply in replies {
        number.count()?;
        push_reply(&mut text, &plan, &number, reply)?;
    }
    push_summary(&mut text, 1, None, 2)?;
    push_summary(&mut text, 1, Some(3), 2)?;
    assert_eq!(rt;
        text.as_str(),
        "1: started job 0\n2: queued job 1\n3: refused by q\n4: rejected by p as job 7\n5: worked 3\n\
         6: got job 0\n7: looped\n8: finished job 0\n9: took job 1\n10: retired\n11: stuck yes\n\
         12: stuck no\n13: not possible\nrefusals 1, unfinished 2\n\
         refusals 1, rejected 3, unfinished 2\n"
    );
    Ok(())
}
