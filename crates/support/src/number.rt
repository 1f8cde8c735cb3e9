//! The numbers that identify faults, in code and in messages.

// ---- faults of a plan

/// The text of a plan is not UTF-8, or not TOML.
pub const NOT_TOML: u8 = 1;
/// The text of a plan is too long, one of its lists has too many entries, or a body has too many
/// actions.
pub const TOO_MANY: u8 = 2;
/// A table has a key that is not allowed there.
pub const UNKNOWN_KEY: u8 = 3;
/// A table lacks a required key.
pub const MISSING_KEY: u8 = 4;
/// A value has the wrong type for its key.
pub const WRONG_TYPE: u8 = 5;
/// A name is not valid. A valid name is a lowercase letter, followed by at most 31 lowercase
/// letters, digits and `_`.
pub const BAD_NAME: u8 = 6;
/// Two entries of a list have the same name.
pub const DOUBLE_NAME: u8 = 7;
/// A size, a count or a number of units of work is out of range.
pub const BAD_NUMBER: u8 = 8;
/// A class names a pool that does not exist.
pub const NO_SUCH_POOL: u8 = 9;
/// A submit names a class that does not exist.
pub const NO_SUCH_CLASS: u8 = 10;
/// The text of an action has none of the forms `work N`, `submit CLASS`, `submit CLASS as SLOT` and
/// `get SLOT`.
pub const BAD_ACTION: u8 = 11;
/// A submit fills a slot that is already filled. A slot is a name for a submitted job, until a get
/// of the slot empties it.
pub const SLOT_OPEN: u8 = 12;
/// A get names an empty slot: no submit filled the slot, or a get has emptied it. In a plan that is
/// not read from a text, a get names the position of a submit instead of a slot. The fault is then
/// one of these:
///
/// - The body has no earlier submit at this position.
/// - An earlier get names the same position.
pub const SLOT_EMPTY: u8 = 13;

// ---- out of memory

/// Memory ran out.
pub const MEMORY: u8 = 20;

// ---- faults of a certificate

/// The text of a certificate is not UTF-8, or not JSON.
pub const NOT_JSON: u8 = 30;
/// A key of a certificate is missing or unknown, or a value has the wrong type, length or range for
/// its key.
pub const WRONG_SHAPE: u8 = 31;
/// A number of a certificate is above 1,000,000,000.
pub const WEIGHT_TOO_LARGE: u8 = 32;
/// The version of a certificate is not supported.
pub const VERSION: u8 = 33;
/// The text of a certificate is too long.
pub const CERT_TOO_LONG: u8 = 34;

// ---- faults of a run

/// A run exceeds one of its limits.
pub const RUN_TOO_LARGE: u8 = 40;
/// A client or a pool has a wrong receipt. A receipt is a thread's record of an event that the
/// thread performed. A receipt is wrong if its event belongs to another client or pool, or does not
/// match the history: the list of the events of a run, in order.
pub const STRANGE: u8 = 41;
/// The results of several threads contradict each other. In a run, the history and the receipts are
/// not those of a complete run. In a search, the results of its threads are inconsistent, or the
/// check does not confirm the certificate that the search found.
pub const MIXED: u8 = 42;
/// A gate failed in a run, or stopped a search or a check. In a run, a gate is the code that does
/// the declared work. In a search or a check, it is the hook that is called before each pool.
pub const GATE: u8 = 43;

// ---- faults of an input

/// No line of the input is the separator `%%` between the plan and the text after it.
pub const NO_SEPARATOR: u8 = 50;
/// An event line is malformed, or names a pool that does not exist.
pub const BAD_EVENT: u8 = 51;
/// The whole input is too long, or its event lines together are too long.
pub const INPUT_TOO_LONG: u8 = 52;
/// A line of a recording is malformed, or breaks a rule of recordings.
pub const BAD_RECORDING: u8 = 53;

// ---- input and output

/// Reading an input failed.
pub const READ_FAILED: u8 = 60;
/// Writing an output failed.
pub const WRITE_FAILED: u8 = 61;
