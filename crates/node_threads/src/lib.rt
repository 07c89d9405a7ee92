// A node: a replica that threads share. Its clients read what is published and wait for nobody, and take turns to write.
// Offered to the crates above: one history a node; each reply is that of a replica of one thread after a front of it, which begins with
// all that the client saw, learnt or wrote.
#![tactic(auto)]

mod acts;
mod channels;
mod deed;
mod frames;
mod frames_end;
mod inspecting;
mod laws;
mod letter;
mod looks;
mod missed;
mod named;
mod node;
mod node_event;
mod opening;
mod passing;
mod post;
mod renewing;
mod resent;
mod running;
mod sending;
mod serving;
mod showing;
mod timed_channels;
mod timed_post;
mod timed_served;
mod timed_serving;
mod work;
mod written;

pub use acts::{
    Abandoning, Asking, Batching, Delivering, Flushing, FlushingBytes, Retrying, Writing,
};
pub use channels::Channels;
pub use deed::Deed;
pub use frames::Frames;
pub use frames_end::FramesEnd;
pub use inspecting::{Checkpointing, Knowing, SessionListing, Waiting};
pub use laws::no_dot_and_no_number_comes_twice;
pub use letter::Letter;
pub use looks::{Containing, Digesting, FieldListing, Getting, KeyListing, Sharing, Sizing};
pub use named::{Named, Naming, Root};
pub use node::{Client, Lock, Node, Receipt, Snapshot};
pub use node_event::NodeEvent;
pub use opening::{new_node, node_of};
pub use post::Post;
pub use renewing::send_again;
pub use resent::Resent;
pub use running::each_client;
pub use serving::{Served, serve};
pub use timed_channels::TimedChannels;
pub use timed_post::TimedPost;
pub use timed_served::TimedServed;
pub use timed_serving::serve_timed;
pub use work::Work;
pub use written::Written;
