//! The names of the faults.

ghost use Rattle.std.specs.Prelude.{◌≡◌};
ghost use Rattle.support.specs.Name as spec;

use crate::number::*;

/// Returns the name of the fault with this number, such as `BadName` for 6, or `Unknown` if no
/// fault has the number.
pub fn name_of(number: u8) -> &'static str
    ensures { result.now ≡ spec.name_of number }
{
    match number {
        NOT_TOML => "NotToml",
        TOO_MANY => "TooMany",
        UNKNOWN_KEY => "UnknownKey",
        MISSING_KEY => "MissingKey",
        WRONG_TYPE => "WrongType",
        BAD_NAME => "BadName",
        DOUBLE_NAME => "DoubleName",
        BAD_NUMBER => "BadNumber",
        NO_SUCH_POOL => "NoSuchPool",
        NO_SUCH_CLASS => "NoSuchClass",
        BAD_ACTION => "BadAction",
        SLOT_OPEN => "SlotOpen",
        SLOT_EMPTY => "SlotEmpty",
        MEMORY => "Memory",
        NOT_JSON => "NotJson",
        WRONG_SHAPE => "WrongShape",
        WEIGHT_TOO_LARGE => "WeightTooLarge",
        VERSION => "Version",
        CERT_TOO_LONG => "CertTooLong",
        RUN_TOO_LARGE => "RunTooLarge",
        STRANGE => "Strange",
        MIXED => "Mixed",
        GATE => "Gate",
        NO_SEPARATOR => "NoSeparator",
        BAD_EVENT => "BadEvent",
        INPUT_TOO_LONG => "InputTooLong",
        BAD_RECORDING => "BadRecording",
        READ_FAILED => "ReadFailed",
        WRITE_FAILED => "WriteFailed",
        _ => "Unknown",
    }
}
