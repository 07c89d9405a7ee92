// What the tests ask of a client. They see it as no more than this, whatever stands behind it, as a check of what holds a client grows with
// the depth of its type.
use node_threads::{Post, Root, Served, TimedPost, TimedServed, Written};
use replica_core::Delivered;
use saved_form::Saved;
use std::alloc::Global;
use std::process::Abort;
use std::sync::Wait;
use std::sync::atomic::AtomicU64;
use wire_form::Message;

// A client, which calls and looks by bytes. Where a call is refused, the test ends.
pub(crate) trait Caller {
    // Puts a value on a field of a key: the number of its dot.
    fn put<T: Wait + Abort>(
        &mut self,
        rt: &T,
        alloc: Global,
        key: &[u8],
        field: &[u8],
        value: &[u8],
    ) -> u64;

    // Takes a message in.
    fn deliver<T: Wait + Abort>(&mut self, rt: &T, alloc: Global, message: &Message) -> Delivered;

    // Opens a synchronisation with the replica of this name, which is not 0: its number, and the hello.
    fn ask<T: Wait + Abort>(&mut self, rt: &T, alloc: Global, peer: u64) -> (u64, Message);

    // Takes in what comes by the post, until that ends.
    fn serve<P: Post + Copy, T: Wait>(&mut self, rt: &T, alloc: Global, post: &P) -> Served;

    // How many of its calls were accepted.
    fn operations(&self) -> u64;

    // Whether the field of the key has this one value, or with None no value.
    fn has<T: Abort>(
        &mut self,
        rt: &T,
        alloc: Global,
        key: &[u8],
        field: &[u8],
        value: Option<&[u8]>,
    ) -> bool;

    // Whether the key holds a value.
    fn contains<T: Abort>(&mut self, rt: &T, alloc: Global, key: &[u8]) -> bool;

    // How many keys hold a value.
    fn size<T: Abort>(&mut self, rt: &T) -> u64;

    // Looks until the number is 2, for a while, once it has made it 1. Whether it came to be 2.
    fn look_slowly<T: Abort>(&mut self, rt: &T, state: &AtomicU64) -> bool;

    // How many events it sees.
    fn events<T: Abort>(&mut self, rt: &T) -> u64;

    // A snapshot of what it sees.
    fn share<T: Abort>(&mut self, rt: &T) -> Root;
}

// What a client calls and looks at by itself.
pub(crate) trait Calling {
    // Takes a key away: how many writes were observed.
    fn remove<T: Wait + Abort>(&mut self, rt: &T, alloc: Global, key: &[u8]) -> u64;

    // Takes a field of a key away: how many writes were observed.
    fn remove_field<T: Wait + Abort>(
        &mut self,
        rt: &T,
        alloc: Global,
        key: &[u8],
        field: &[u8],
    ) -> u64;

    // Takes all keys away: how many writes were observed.
    fn clear<T: Wait + Abort>(&mut self, rt: &T, alloc: Global) -> u64;

    // What is to be sent.
    fn flush<T: Wait + Abort>(&mut self, rt: &T, alloc: Global) -> Option<Message>;

    // Sends what a synchronisation waits for again.
    fn retry<T: Wait + Abort>(&mut self, rt: &T, alloc: Global, number: u64) -> Delivered;

    // Gives a synchronisation up. Whether it was open.
    fn abandon<T: Wait + Abort>(&mut self, rt: &T, alloc: Global, number: u64) -> bool;

    // Whether these are the fields of the key, in this order.
    fn has_fields<T: Abort>(&mut self, rt: &T, alloc: Global, key: &[u8], fields: &[&[u8]]) -> bool;
}

// What a client does beside that.
// There are several traits, as a check of a deep type compares all calls of a trait at once.
pub(crate) trait Keeping {
    // Makes these writes at once: puts x on the field f of a, y on its empty field, and takes the field f of a and b away.
    fn write_at_once<T: Wait + Abort>(&mut self, rt: &T, alloc: Global) -> Written;

    // What the replica is to come back from.
    fn saved<T: Wait + Abort>(&mut self, rt: &T, alloc: Global) -> Saved;
}

// What serves a node by a timed post.
pub(crate) trait TimedServing {
    // Whether something waits to be sent.
    fn is_waiting<T: Wait>(&mut self, rt: &T) -> bool;

    // Takes in what comes by the post, and sends by itself each time that is due, until that is over.
    fn serve_timed<P: TimedPost, T: Wait>(
        &mut self,
        rt: &T,
        alloc: Global,
        post: &mut P,
    ) -> TimedServed;
}
