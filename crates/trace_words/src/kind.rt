use hash_path::Prefix;

/// The kind of a message, as an answer tells it.
#[derive(Clone, Copy, Debug, PartialEq, Eq)]
pub enum Kind {
    /// What a replica made since it last sent.
    Delta,
    /// The first message of a synchronisation.
    Hello,
    /// The answer to a hello.
    Opening,
    /// An ask for the page at this prefix.
    Ask(Prefix),
    /// The page at this prefix.
    Page(Prefix),
    /// The answer that a synchronisation is not kept.
    Gone,
}
