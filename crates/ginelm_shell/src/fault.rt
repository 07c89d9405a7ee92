use ginelm::Refusal;
use replica_store::StoreError;
use std::alloc::AllocError;
use std::io;

/// Why a line was not carried out.
#[derive(Debug, Drop)]
pub(crate) enum Fault {
    /// Its words are not those that the call takes.
    Words,
    /// The replica refused it.
    Refused(Refusal),
    /// A message knows a write of the replica's name that the replica does not know.
    Lost,
    /// The call is of a file, and the replica is kept in none.
    Unkept,
    /// The file failed, so that nothing more is carried out.
    Failed(StoreError),
    /// The answer could not be written.
    Output(io::Error),
}

impl From<Refusal> for Fault {
    fn from(refusal: Refusal) -> Fault {
        Fault::Refused(refusal)
    }
}

impl From<StoreError> for Fault {
    fn from(error: StoreError) -> Fault {
        match error {
            StoreError::Refused(refusal) => Fault::Refused(refusal),
            StoreError::LostMemory => Fault::Lost,
            _ => Fault::Failed(error),
        }
    }
}

impl From<AllocError> for Fault {
    fn from(_error: AllocError) -> Fault {
        Fault::Refused(Refusal::OutOfMemory)
    }
}

impl From<io::Error> for Fault {
    fn from(error: io::Error) -> Fault {
        Fault::Output(error)
    }
}
