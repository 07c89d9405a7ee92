// Each trace is given a text: every line of it is answered, whatever it says and whatever came before it. No product code.
// Offered to the crates above: that these laws hold.
#![tactic(auto)]

mod laws;

pub use laws::{
    each_command_comes_to_an_outcome, each_line_is_answered, each_read_comes_to_an_outcome,
    each_trace_is_given_a_text, known_dots_are_numbered,
};
