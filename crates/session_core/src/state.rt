/// How far the connection of a session is.
#[derive(Clone, Copy, Debug, PartialEq, Eq)]
pub enum SessionState {
    /// There is no connection.
    NotConnected,
    /// There is a connection, and the peer has not described itself yet.
    Handshake,
    /// Both ends have described themselves.
    Standing,
}
