//! Plans that are built from lists, without a text.

use crate::plan_texts::answers::line_of;
use job_bodies::{Action, Class, Client, Plan, PlanFault, Pool};
use plan_text::{read_plan, write_plan};
use std::alloc::{AllocError, Global};

/// Returns the plan that is built from the lists in `lines`, or the fault of the lists, in one
/// line.
pub fn built(alloc: Global, lines: &[u8]) -> Result<String, AllocError> {
    line_of(alloc, plan_of(alloc, lines)?)
}

/// Builds a plan from the lists in `lines`, and returns the text that is written for this plan. If
/// the lists have a fault, returns the fault. As a test, parses the text and writes the parsed plan
/// again:
///
/// - If the text has a fault, returns this fault instead.
/// - If the second text differs from the first, returns both texts.
pub fn written(alloc: Global, lines: &[u8]) -> Result<String, AllocError> {
    let text = match plan_of(alloc, lines)? {
        Ok(plan) => write_plan(alloc, &plan)?,
        Err(fault) => return fault.to_string(alloc),
    };
    let again = match read_plan(alloc, text.as_bytes()) {
        Ok(plan) => write_plan(alloc, &plan)?,
        Err(fault) => return fault.to_string(alloc),
    };
    if again != text {
        return format!(in alloc; "{text} and then {again}");
    }
    Ok(text)
}

// Parses the plan of the lists. Each entry is one of these lines:
//
// - `pool NAME CORE MAX QUEUE`, which may end with some of the words `prestarted`, `core_timeout`,
//   `may_reject` and `unbounded`;
// - `class NAME POOL BODY`;
// - `client NAME COUNT BODY` for clients that repeat, and any other first word with `NAME COUNT BODY`
//   for clients that do not.
fn plan_of(alloc: Global, lines: &[u8]) -> Result<Result<Plan, PlanFault>, AllocError> {
    let lines = String::from_utf8_lossy(alloc, lines)?;
    let mut pools = Vec::new(alloc);
    let mut classes = Vec::new(alloc);
    let mut clients = Vec::new(alloc);
    for line in lines.lines() {
        let words = line.split(' ').collect::<Vec<&str>>(alloc)?;
        match words.as_slice() {
            ["pool", name, sizes @ ..] => pools.push(pool_of(alloc, name, sizes)?)?,
            ["class", name, pool, body @ ..] => classes.push(Class {
                name: String::from_str(alloc, name)?,
                pool: place(pool),
                body: body_of(alloc, body)?,
            })?,
            [kind, name, count, body @ ..] => clients.push(Client {
                name: String::from_str(alloc, name)?,
                count: number(count),
                repeat: *kind == "client",
                body: body_of(alloc, body)?,
            })?,
            _ => {}
        }
    }
    Ok(Plan::build(alloc, pools, classes, clients))
}

fn pool_of(alloc: Global, name: &str, sizes: &[&str]) -> Result<Pool, AllocError> {
    let size = |at: usize| number(sizes.get(at).copied().unwrap_or(""));
    Ok(Pool {
        name: String::from_str(alloc, name)?,
        core: size(0),
        max: size(1),
        queue: size(2),
        prestart: sizes.contains(&"prestarted"),
        may_reject: sizes.contains(&"may_reject"),
        unbounded: sizes.contains(&"unbounded"),
        core_timeout: sizes.contains(&"core_timeout"),
    })
}

fn body_of(alloc: Global, words: &[&str]) -> Result<Vec<Action>, AllocError> {
    let mut body = Vec::new(alloc);
    for pair in words.chunks(2) {
        match pair {
            ["work", units] => body.push(Action::Work(units.parse::<u32>().unwrap_or(0)))?,
            ["submit", class] => body.push(Action::Submit(place(class)))?,
            ["get", position] => body.push(Action::Get(place(position)))?,
            _ => {}
        }
    }
    Ok(body)
}

fn number(word: &str) -> u64 {
    word.parse::<u64>().unwrap_or(0)
}

fn place(word: &str) -> usize {
    word.parse::<usize>().unwrap_or(0)
}
