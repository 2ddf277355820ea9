/// The transaction status that ReadyForQuery tells (PostgreSQL manual, "Message Formats", ReadyForQuery).
#[derive(Clone, Copy, Debug, PartialEq, Eq)]
pub enum TransactionStatus {
    /// `I`: no transaction is open.
    Idle,
    /// `T`: a transaction is open.
    Transaction,
    /// `E`: the open transaction has failed, and only its end is accepted.
    Error,
}
