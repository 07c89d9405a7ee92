// What clients of a node are told, and how it ends.
use std::process::Abort;

pub(crate) mod batch;
pub(crate) mod beside;
pub(crate) mod kept;
pub(crate) mod meanwhile;
pub(crate) mod resumed;
pub(crate) mod running;
pub(crate) mod served;
pub(crate) mod sessions;
pub(crate) mod slow;
pub(crate) mod timed;

// The delta of replica 1 that puts x on a.
const DELTA: &[u8] = &[
    1, 1, 0, 0, 0, 0, 0, 0, 0, 1, 0, 0, 0, 0, 0, 0, 0, 1, 0, 0, 0, 0, 0, 0, 0, 1, 0, 0, 0, 0, 0, 0,
    0, 0, 0, 0, 0, 0, 0, 0, 0, 1, 0, 1, 97, 0, 0, 0, 0, 0, 0, 0, 1, 0, 0, 0, 0, 0, 0, 0, 1, 0, 0,
    0, 0, 0, 0, 0, 1, 0, 1, 120,
];

// The one client.
fn only<'a, C>(rt: &impl Abort, clients: &'a mut [C]) -> &'a mut C {
    match clients {
        [client] => client,
        _ => panic!(rt; "one client"),
    }
}

// The two clients.
fn both<'a, C>(rt: &impl Abort, clients: &'a mut [C]) -> (&'a mut C, &'a mut C) {
    match clients {
        [first, second] => (first, second),
        _ => panic!(rt; "two clients"),
    }
}
