//! The part of a recording from which bodies are learned.

/// The part of a recording from which bodies are learned. Everything else in the plan is always
/// learned from the whole recording.
#[derive(Clone, Copy)]
pub enum Extent {
    /// The complete lines in the first [`START_BYTES`] bytes, or the whole recording if it has at
    /// most that many bytes. No plan is learned if an actor that begins in these lines matches no
    /// learned body.
    Start,
    /// The whole recording.
    Whole,
}

/// The maximum length of the part that [`Extent::Start`] selects, in bytes. That many bytes usually
/// contain each path of the recording several times. A few passes over them take little time
/// compared with one pass over a long recording.
pub const START_BYTES: usize = 65_536;

/// A prefix of a recording. If the prefix ends within a line, this last line is not read.
#[derive(Clone, Copy)]
pub(crate) struct RecordingPart<'a> {
    pub(crate) text: &'a [u8],
    /// True if the recording continues after the part. An actor that is open at the end of the part
    /// may then have further steps.
    pub(crate) is_cut: bool,
}

impl Extent {
    /// Returns the part of the recording from which bodies are learned.
    pub(crate) fn of(self, recording: &[u8]) -> RecordingPart<'_> {
        match self {
            Extent::Start if recording.len() > START_BYTES => RecordingPart {
                text: &recording[..START_BYTES],
                is_cut: true,
            },
            _ => RecordingPart {
                text: recording,
                is_cut: false,
            },
        }
    }
}
