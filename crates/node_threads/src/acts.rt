// The calls of a client that write.
mod asking;
mod batching;
mod delivering;
mod flushing;
mod writing;

pub use asking::{Abandoning, Asking, Retrying};
pub use batching::Batching;
pub use delivering::Delivering;
pub use flushing::{Flushing, FlushingBytes};
pub use writing::Writing;
