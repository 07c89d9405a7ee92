// The tests of `node_threads` and of `shared_object`, through public calls alone. They stand in a crate of their own, so that a check of
// them proves neither a second time.
#![tactic(auto)]

#[cfg(test)]
mod called;
#[cfg(test)]
mod caller;
#[cfg(test)]
mod frames;
#[cfg(test)]
mod nodes;
#[cfg(test)]
mod streams;
#[cfg(test)]
mod tests;
