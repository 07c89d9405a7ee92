// What becomes of a reply that is to be sent.
#[derive(Clone, Copy, Drop)]
pub(crate) enum Sending {
    Sent,
    // The post did not send it.
    Unsent,
    // There is no memory for its bytes.
    Lost,
}
