ghost use Rattle.std.specs.Prelude.{◌≡◌};
ghost use Rattle.dots.specs.Refusal.{number_of, word_of};
ghost use Rattle.dots.specs.declared.refusal.Refusal.TheVariants.{OutOfMemory};

use std::alloc::{AllocError, AllocFailed};
use thiserror::Error;

/// Why a call was refused. A refused call changes nothing, but where a call says otherwise.
#[derive(Clone, Copy, Debug, PartialEq, Eq, Hash, Error)]
pub enum Refusal {
    /// A growth was refused by the allocator, or a count is full: of the owners of a part, or of keys.
    #[error("OutOfMemory")]
    OutOfMemory,
    /// A key, a field or a value of more than 65,535 bytes.
    #[error("TooLong")]
    TooLong,
    /// A write on a read-only map.
    #[error("ReadOnly")]
    ReadOnly,
    /// No number above those that were used is left.
    #[error("NumbersSpent")]
    NumbersSpent,
    /// Eight sessions are open already.
    #[error("SessionsFull")]
    SessionsFull,
    /// The bytes spell no message.
    #[error("NotAMessage")]
    NotAMessage,
    /// No place is left for another client, or the object that a client calls was taken out.
    #[error("NoPlace")]
    NoPlace,
    /// A replica of that name is there already.
    #[error("NameTaken")]
    NameTaken,
    /// No replica has that name.
    #[error("UnknownReplica")]
    UnknownReplica,
    /// No message has that number.
    #[error("UnknownMessage")]
    UnknownMessage,
    /// The line is no command.
    #[error("BadLine")]
    BadLine,
    /// The reader failed, or was called too often.
    #[error("Input")]
    Input,
    /// The writer failed.
    #[error("Output")]
    Output,
}

impl Refusal {
    /// The refusal's number, from 1 to 13.
    pub fn number(self) -> u8
        ensures { result ≡ number_of self }
    {
        match self {
            Refusal::OutOfMemory => 1,
            Refusal::TooLong => 2,
            Refusal::ReadOnly => 3,
            Refusal::NumbersSpent => 4,
            Refusal::SessionsFull => 5,
            Refusal::NotAMessage => 6,
            Refusal::NoPlace => 7,
            Refusal::NameTaken => 8,
            Refusal::UnknownReplica => 9,
            Refusal::UnknownMessage => 10,
            Refusal::BadLine => 11,
            Refusal::Input => 12,
            Refusal::Output => 13,
        }
    }

    /// The refusal's name, as it is written here.
    pub fn word(self) -> &'static str
        ensures { result.now ≡ word_of self }
    {
        match self {
            Refusal::OutOfMemory => "OutOfMemory",
            Refusal::TooLong => "TooLong",
            Refusal::ReadOnly => "ReadOnly",
            Refusal::NumbersSpent => "NumbersSpent",
            Refusal::SessionsFull => "SessionsFull",
            Refusal::NotAMessage => "NotAMessage",
            Refusal::NoPlace => "NoPlace",
            Refusal::NameTaken => "NameTaken",
            Refusal::UnknownReplica => "UnknownReplica",
            Refusal::UnknownMessage => "UnknownMessage",
            Refusal::BadLine => "BadLine",
            Refusal::Input => "Input",
            Refusal::Output => "Output",
        }
    }
}

impl From<AllocError> for Refusal {
    ghost from_gives = { λ _ e. e ≡ OutOfMemory };

    fn from(_e: AllocError) -> Refusal {
        Refusal::OutOfMemory
    }
}

impl<T: Drop> From<AllocFailed<T>> for Refusal {
    ghost from_gives = { λ _ e. e ≡ OutOfMemory };

    fn from(_e: AllocFailed<T>) -> Refusal {
        Refusal::OutOfMemory
    }
}
