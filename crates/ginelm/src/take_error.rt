use dots::Refusal;
use thiserror::Error;

/// Why a message was not taken in; then nothing changed.
#[derive(Clone, Copy, Debug, PartialEq, Eq, Error)]
pub enum TakeError {
    /// The message knows a write of the replica's own name that the replica does not know: the name is used by two, or was used before and
    /// its memory is lost. The replica takes a new name (`Replica::new_from`).
    #[error("the name of the replica was used without its memory")]
    LostMemory,
    /// The bytes spell no message, or no memory was found.
    #[error("refused: {0}")]
    Refused(Refusal),
}
