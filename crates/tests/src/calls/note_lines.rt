//! Tests of the lines that describe failing conditions, for each section of a certificate and each
//! place.

use plan_text::read_plan;
use refusal_notes::{Note, Section, line};
use std::test::*;
use weights::{Place, Rule};

const TWO_POOLS: &str = "
    pool = [{ name = 'front', core = 1, max = 1, queue = 2 }, { name = 'back', core = 1, max = 1, queue = 2 }]
    class = [
        { name = 'ask', pool = 'front', body = ['submit look as x', 'get x'] },
        { name = 'look', pool = 'back', body = ['work 1'] },
    ]
    client = [{ name = 'caller', count = 1, repeat = true, body = ['submit ask as x', 'get x'] }]
";

/// A case: the parts of a failing condition, and the line that describes it.
type Case = (Section, Place, Rule, u64, u64, &'static str);

const LINES: &[Case] = &[
    (
        Section::Ranks,
        Place::Class(1),
        Rule::K1,
        1,
        0,
        "ranks, class look: K1 1 above 0",
    ),
    (
        Section::Ranks,
        Place::ClassAction(0, 1),
        Rule::K2,
        2,
        1,
        "ranks, class ask action 1: K2 2 above 1",
    ),
    (
        Section::Standing(0),
        Place::Client(0),
        Rule::V7,
        1,
        0,
        "pool front standing, client caller: V7 1 above 0",
    ),
    (
        Section::Standing(1),
        Place::ClientAction(0, 0),
        Rule::V3,
        1_000_000_001,
        1_000_000_000,
        "pool back standing, client caller action 0: V3 1000000001 above 1000000000",
    ),
    (
        Section::Lifetime(0),
        Place::Worker(1),
        Rule::L1,
        10,
        0,
        "pool front lifetime, workers back: L1 10 above 0",
    ),
    (
        Section::Lifetime(1),
        Place::Total,
        Rule::L3,
        4,
        3,
        "pool back lifetime, total: L3 4 above 3",
    ),
    (
        Section::Blocked(0),
        Place::ClassAction(0, 1),
        Rule::B1,
        1,
        0,
        "pool front blocked, class ask action 1: B1 1 above 0",
    ),
    (
        Section::Blocked(1),
        Place::Total,
        Rule::B2,
        99,
        0,
        "pool back blocked, total: B2 99 above 0",
    ),
    (
        Section::Blocked(2),
        Place::Class(2),
        Rule::V4,
        1,
        0,
        "pool  blocked, class : V4 1 above 0",
    ),
];

#[test]
fn lines_of_notes(rt: HostRuntime) -> Result<(), Fail> {
    let plan = read_plan(rt.alloc(), TWO_POOLS.as_bytes())?;
    for (section, place, rule, left, right, wanted) in LINES.iter().copied() {
        let note = Note {
            section,
            place,
            rule,
            left,
            right,
        };
        let text = line(rt.alloc(), &note, &plan)?;
        assert_eq!(rt; text.as_str(), wanted);
    }
    Ok(())
}
