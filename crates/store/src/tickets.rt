// Tickets: what a transaction goes by.
use map::Identifier;

/// An open transaction. It is spent by commit or abandon.
pub struct OpenTicket {
    pub(crate) id: Identifier,
}

/// A committed transaction. It is spent by settle, and by nothing else.
pub struct WaitingTicket {
    pub(crate) id: Identifier,
}
