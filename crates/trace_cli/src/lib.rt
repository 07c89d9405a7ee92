// The trace language, read from bytes and answered in text. Offered to the program above: what `run` writes is a
// stated function of what it reads. The streams are watched: how often they were asked, whether they failed, and whether
// all that was written was flushed.
#![tactic(auto)]

mod flushing;
mod laws;
mod running;
mod sink;
mod source;
mod status;
mod trace_run;
mod watched;
mod writing;

pub use laws::a_trace_is_given_one_text;
pub use running::{run, run_bytes};
pub use sink::Sink;
pub use source::Source;
pub use status::run_to_status;
pub use watched::Watched;
