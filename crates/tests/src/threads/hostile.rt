//! Tests of runs whose gate fails.

use crate::threads::gates::Counting;
use crate::threads::plans::{NESTED, totals};
use locked_runner::RunFault;
use std::test::Fail;

// The first round has 8 events before the second round begins, and the second round has 10. The
// gate is called for the work of the inner job. Two events of the first round precede this call:
// the submits of the client and of the outer job. In a later round, the takes of both jobs precede
// it, too.
#[test]
fn a_gate_that_fails_ends_the_run_where_it_stands(rt: HostRuntime) -> Result<(), Fail> {
    for (call, events) in [(1, 2), (2, 12), (3, 22)] {
        let run = totals(&rt, rt.alloc(), NESTED, 3, &Counting::failing_at(call));
        let fault = RunFault { number: 43, events };
        assert_eq!(rt; run, Err(fault), "at call {call}");
    }
    let run = totals(&rt, rt.alloc(), NESTED, 3, &Counting::failing_at(4));
    assert_eq!(rt; run, Ok((6, 3)));
    Ok(())
}
