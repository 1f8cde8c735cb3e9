//! Sample certificates, each for a sample plan. The newlines in them are removed before use.

use std::alloc::{AllocError, Global};

// A certificate for a plan without pools, classes and clients.
const EMPTY: &str = r#"{"version":1,"pools":[],"ranks":{"pools":[],"reach":[],"levels":[]}}"#;

// A certificate for a plan with one pool. Each client has at most one job at a time, whose weight
// is 1 until its get.
const STANDING: &str = r#"{"version":1,"pools":[
{"standing":{"workers":[0],"classes":[[1,1,1,1]],"clients":[[1,0,1]]},
"blocked":{"workers":[0],"classes":[[0,0,0,0]],"clients":[[0,0,0]]}}],
"ranks":{"pools":[0],"reach":[0],"levels":[0]}}"#;

// A certificate for the plan `nested`. The outer job passes its weight to the inner job, and the
// get returns the weight.
const NESTED: &str = r#"{"version":1,"pools":[
{"standing":{"workers":[0],"classes":[[1,1,0,1,1],[1,1,1,1]],"clients":[[1,0,1]]},
"blocked":{"workers":[0],"classes":[[1,1,1,1,1],[0,0,0,0]],"clients":[[1,0,1]]}}],
"ranks":{"pools":[0],"reach":[0,0],"levels":[1,0]}}"#;

// A certificate for the plan `fan_out`, in which the outer job submits three inner jobs.
const FAN_OUT: &str = r#"{"version":1,"pools":[
{"standing":{"workers":[0],"classes":[[3,3,2,1,0,1,2,3,3],[1,1,1,1]],"clients":[[3,0,3]]},
"blocked":{"workers":[0],"classes":[[1,1,1,1,1,1,1,1,1],[0,0,0,0]],"clients":[[1,0,1]]}}],
"ranks":{"pools":[0],"reach":[0,0],"levels":[1,0]}}"#;

// A certificate for the plan `front_and_back`. In the standing vector of `back`, each worker of
// `front` passes its weight to its job.
const FRONT_AND_BACK: &str = r#"{"version":1,"pools":[
{"standing":{"workers":[0,0],"classes":[[1,1,1,1,1],[0,0,0,0]],"clients":[[1,0,1]]},
"blocked":{"workers":[0,0],"classes":[[0,0,0,0,0],[0,0,0,0]],"clients":[[0,0,0]]}},
{"standing":{"workers":[1,0],"classes":[[0,1,0,1,0],[1,1,1,1]],"clients":[[0,0,0]]},
"blocked":{"workers":[0,0],"classes":[[0,0,0,0,0],[0,0,0,0]],"clients":[[0,0,0]]}}],
"ranks":{"pools":[1,0],"reach":[1,0],"levels":[1,0]}}"#;

// A certificate for the plan `two_pools`, in which jobs of each pool wait for jobs of the other. No
// get in the first pool is counted.
const TWO_POOLS: &str = r#"{"version":1,"pools":[
{"standing":{"workers":[0,0],"classes":[[1,1,1,1,1],[0,0,0,0],[1,1,0,1,1],[1,1,1,1]],
"clients":[[1,0,1],[1,0,1]]},
"blocked":{"workers":[0,0],"classes":[[0,0,0,0,0],[0,0,0,0],[0,0,0,0,0],[0,0,0,0]],
"clients":[[0,0,0],[0,0,0]]}},
{"standing":{"workers":[0,0],"classes":[[1,1,0,1,1],[1,1,1,1],[1,1,1,1,1],[0,0,0,0]],
"clients":[[1,0,1],[1,0,1]]},
"blocked":{"workers":[0,0],"classes":[[0,0,0,0,0],[0,0,0,0],[1,1,1,1,1],[0,0,0,0]],
"clients":[[0,0,0],[1,0,1]]}}],
"ranks":{"pools":[1,0],"reach":[1,0,1,1],"levels":[1,0,1,0]}}"#;

// A certificate for the plan `there_and_back`, in which a job waits for a job of another pool,
// which waits for a job of the first pool again. The get of the first job is counted, but its
// weight there is 0.
const THERE_AND_BACK: &str = r#"{"version":1,"pools":[
{"standing":{"workers":[0,0],"classes":[[1,1,0,1,1],[1,1,0,1,1],[1,1,1,1]],"clients":[[1,0,1]]},
"blocked":{"workers":[0,0],"classes":[[0,0,0,0,0],[0,0,0,0,0],[0,0,0,0]],"clients":[[0,0,0]]}},
{"standing":{"workers":[0,0],"classes":[[1,1,0,1,1],[1,1,1,1,1],[0,0,0,0]],"clients":[[1,0,1]]},
"blocked":{"workers":[0,0],"classes":[[1,1,0,1,1],[1,1,1,1,1],[0,0,0,0]],"clients":[[1,0,1]]}}],
"ranks":{"pools":[1,0],"reach":[1,1,1],"levels":[2,1,0]}}"#;

// A certificate for a plan with one pool and clients that submit a job and never get it.
const ONE_SHOT: &str = r#"{"version":1,"pools":[
{"standing":{"workers":[0],"classes":[[1,1,1,0]],"clients":[[1,0]]},
"blocked":{"workers":[0],"classes":[[0,0,0,0]],"clients":[[0,0]]}}],
"ranks":{"pools":[0],"reach":[0],"levels":[0]}}"#;

// A certificate for a plan with one pool and clients that run their bodies once, and so submit one
// job each.
const LIFETIME: &str = r#"{"version":2,"pools":[
{"lifetime":{"workers":[0],"classes":[[1,1,1,1]],"clients":[[1,0,0]]},
"blocked":{"workers":[0],"classes":[[0,0,0,0]],"clients":[[0,0,0]]}}],
"ranks":{"pools":[0],"reach":[0],"levels":[0]}}"#;

/// Returns the text of a sample certificate with some replacements. `words` has these parts:
///
/// - The first word is the name of the certificate. The result is `None` if there is no such
///   certificate.
/// - The other words are pairs of an old and a new text. For each pair, the first occurrence of the
///   old text is replaced by the new text.
pub fn sample_cert(alloc: Global, words: &str) -> Result<Option<String>, AllocError> {
    let (name, changes) = words.split_once(' ').unwrap_or((words, ""));
    let Some(template) = template(name) else {
        return Ok(None);
    };
    let mut text = String::new(alloc);
    for line in template.lines() {
        text.push_str(line)?;
    }
    let changes = changes.split(' ').collect::<Vec<&str>>(alloc)?;
    for change in changes.chunks(2) {
        if let [old, new] = change {
            text = changed(alloc, &text, old, new)?;
        }
    }
    Ok(Some(text))
}

// Returns the text with `new` in place of the first occurrence of `old`, if there is one.
fn changed(alloc: Global, text: &str, old: &str, new: &str) -> Result<String, AllocError> {
    let (before, behind) = match text.split_once(old) {
        Some(around) => around,
        None => return String::from_str(alloc, text),
    };
    format!(in alloc; "{before}{new}{behind}")
}

fn template(name: &str) -> Option<&'static str> {
    match name {
        "empty_cert" => Some(EMPTY),
        "standing_cert" => Some(STANDING),
        "nested_cert" => Some(NESTED),
        "fan_out_cert" => Some(FAN_OUT),
        "front_and_back_cert" => Some(FRONT_AND_BACK),
        "two_pools_cert" => Some(TWO_POOLS),
        "there_and_back_cert" => Some(THERE_AND_BACK),
        "one_shot_cert" => Some(ONE_SHOT),
        "lifetime_cert" => Some(LIFETIME),
        _ => None,
    }
}
