/// What comes into the inbox of a node that is served by `Channels`.
#[derive(Drop)]
pub enum Letter {
    /// The bytes of a message.
    Mail(Vec<u8>),
    /// It is served no longer.
    Stop,
}
