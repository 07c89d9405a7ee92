// The words of the trace language: the command that a line is, and the text of each answer. Offered to the crates that
// carry the commands out.
#![tactic(auto)]

mod answer;
mod command;
mod kind;
mod reply;
mod sent;
mod word;

pub use answer::{
    context_answer, digest_answer, erased_answer, fields_answer, get_answer, is_fault, map_answer,
    pin_answer, push_entry, put_answer, reply_of, session_answer, size_answer,
};
pub use command::{Command, parse};
pub use kind::Kind;
pub use reply::Reply;
pub use sent::push_message;
