//! The rules of plans. If the plan parser reports a fault that the checks of this crate do not
//! find, the message is the rule that the plan violates.

use support::number::*;

/// Returns the rule for a fault number. A plan with a fault of this number violates the rule.
pub(crate) fn rule_of(number: u8) -> &'static str {
    match number {
        NOT_TOML => "invalid TOML",
        TOO_MANY => {
            "a plan has at most 1048576 bytes, 64 pools, 256 classes and 256 kinds of clients, and a body has at most 256 actions"
        }
        UNKNOWN_KEY => "unknown key",
        MISSING_KEY => "a key is missing",
        WRONG_TYPE => "a value has the wrong type",
        BAD_NAME =>
            "a name has 1 to 32 characters: a lower-case letter, then lower-case letters, digits or _",
        DOUBLE_NAME => "an earlier entry has this name",
        BAD_NUMBER => "a number is not from 1 to 1000000, or max is less than core",
        NO_SUCH_POOL => "unknown pool",
        NO_SUCH_CLASS => "unknown class",
        BAD_ACTION => "an action is work N, submit CLASS, submit CLASS as NAME, or get NAME",
        SLOT_OPEN => "this name is still in use",
        SLOT_EMPTY => "nothing was submitted with this name",
        _ => "the plan is invalid",
    }
}
