//! The state of a client.

/// The state of a client: the number of its client kind, and its position in the body of this kind.
#[derive(Clone, Copy)]
pub struct ClientState {
    pub kind: usize,
    pub position: usize,
}
