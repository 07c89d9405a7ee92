// The tests of `root_cell`, through public calls alone. They stand in a crate of their own, so that a check of them does not prove it a second
// time, and beside those of nodes, which come later.
#![tactic(auto)]

#[cfg(test)]
mod cells;
