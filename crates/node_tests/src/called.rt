// A client of a node, as the tests call it.
use crate::caller::{Caller, Calling, Keeping, TimedServing};
use crate::nodes::name;
use crate::tests::slow::Slow;
use dots::{Field, Key, Value};
use node_threads::{
    Abandoning, Asking, Batching, Checkpointing, Client, Containing, Delivering, FieldListing,
    Flushing, Getting, Lock, Named, Naming, Post, Receipt, Retrying, Root, Served, Sharing, Sizing,
    TimedPost, TimedServed, Waiting, Writing, Written, serve, serve_timed,
};
use replica_core::{Delivered, Write, Wrote};
use saved_form::Saved;
use shared_object::{Gate, Look, Update};
use std::alloc::Global;
use std::panic::Expect;
use std::process::Abort;
use std::sync::Wait;
use std::sync::atomic::AtomicU64;
use wire_form::Message;

// What a call is answered, and its receipt.
fn noted<K: Naming, G: Gate + Drop, R: Wait + Drop, T: Wait + Abort, U: Update<Named<K>, Global>>(
    rt: &T,
    client: &mut Client<K, Lock<K, G, R>>,
    update: &U,
) -> (U::Reply, Receipt<K>) {
    client.call(rt, update).expect(rt, "a call")
}

// What a call is answered. The receipt is let go.
fn called<K: Naming, G: Gate + Drop, R: Wait + Drop, T: Wait + Abort, U: Update<Named<K>, Global>>(
    rt: &T,
    client: &mut Client<K, Lock<K, G, R>>,
    update: &U,
) -> U::Reply {
    noted(rt, client, update).0
}

// What a look finds.
fn found<K: Naming, G: Gate + Drop, R: Wait + Drop, T: Abort, L: Look<Root>>(
    rt: &T,
    client: &mut Client<K, Lock<K, G, R>>,
    look: &L,
) -> L::Found {
    client.look(look).expect(rt, "a look")
}

fn key_of(rt: &impl Abort, alloc: Global, bytes: &[u8]) -> Key {
    Key::new(alloc, bytes).expect(rt, "a key")
}

fn field_of(rt: &impl Abort, alloc: Global, bytes: &[u8]) -> Field {
    Field::new(alloc, bytes).expect(rt, "a field")
}

fn value_of(rt: &impl Abort, alloc: Global, bytes: &[u8]) -> Value {
    Value::new(alloc, bytes).expect(rt, "a value")
}

// Whether they are this one value, or with None no value.
fn are(values: &[Value], value: Option<&[u8]>) -> bool {
    match (values, value) {
        ([], None) => true,
        ([one], Some(value)) => one.bytes() == value,
        _ => false,
    }
}

fn are_fields(found: &[Field], fields: &[&[u8]]) -> bool {
    found
        .iter()
        .map(|field| field.bytes())
        .eq(fields.iter().copied())
}

impl<K: Naming, G: Gate + Drop, R: Wait + Drop> Caller for Client<K, Lock<K, G, R>> {
    fn put<T: Wait + Abort>(
        &mut self,
        rt: &T,
        alloc: Global,
        key: &[u8],
        field: &[u8],
        value: &[u8],
    ) -> u64 {
        put_noted(rt, alloc, self, key, field, value).0
    }

    fn deliver<T: Wait + Abort>(&mut self, rt: &T, alloc: Global, message: &Message) -> Delivered {
        called(rt, self, &Delivering { alloc, message })
    }

    fn ask<T: Wait + Abort>(&mut self, rt: &T, alloc: Global, peer: u64) -> (u64, Message) {
        let peer = name(rt, peer);
        called(rt, self, &Asking { alloc, peer })
    }

    fn serve<P: Post + Copy, T: Wait>(&mut self, rt: &T, alloc: Global, post: &P) -> Served {
        let mut post = *post;
        serve(rt, alloc, self, &mut post)
    }

    fn operations(&self) -> u64 {
        Client::operations(self)
    }

    fn has<T: Abort>(
        &mut self,
        rt: &T,
        alloc: Global,
        key: &[u8],
        field: &[u8],
        value: Option<&[u8]>,
    ) -> bool {
        let key = key_of(rt, alloc, key);
        let field = field_of(rt, alloc, field);
        let getting = Getting {
            alloc,
            key: &key,
            field: &field,
        };
        let values = found(rt, self, &getting).expect(rt, "memory");
        are(&values, value)
    }

    fn contains<T: Abort>(&mut self, rt: &T, alloc: Global, key: &[u8]) -> bool {
        let key = key_of(rt, alloc, key);
        found(rt, self, &Containing { key: &key })
    }

    fn size<T: Abort>(&mut self, rt: &T) -> u64 {
        found(rt, self, &Sizing)
    }

    fn look_slowly<T: Abort>(&mut self, rt: &T, state: &AtomicU64) -> bool {
        found(rt, self, &Slow { state })
    }

    fn events<T: Abort>(&mut self, rt: &T) -> u64 {
        Client::events(self).expect(rt, "a root")
    }

    fn share<T: Abort>(&mut self, rt: &T) -> Root {
        found(rt, self, &Sharing).expect(rt, "memory")
    }
}

impl<K: Naming, G: Gate + Drop, R: Wait + Drop> Calling for Client<K, Lock<K, G, R>> {
    fn remove<T: Wait + Abort>(&mut self, rt: &T, alloc: Global, key: &[u8]) -> u64 {
        let key = key_of(rt, alloc, key);
        counted(rt, self, alloc, Write::Remove(&key))
    }

    fn remove_field<T: Wait + Abort>(
        &mut self,
        rt: &T,
        alloc: Global,
        key: &[u8],
        field: &[u8],
    ) -> u64 {
        let key = key_of(rt, alloc, key);
        let field = field_of(rt, alloc, field);
        counted(rt, self, alloc, Write::RemoveField(&key, &field))
    }

    fn clear<T: Wait + Abort>(&mut self, rt: &T, alloc: Global) -> u64 {
        counted(rt, self, alloc, Write::Clear)
    }

    fn flush<T: Wait + Abort>(&mut self, rt: &T, alloc: Global) -> Option<Message> {
        called(rt, self, &Flushing { alloc })
    }

    fn retry<T: Wait + Abort>(&mut self, rt: &T, alloc: Global, number: u64) -> Delivered {
        called(rt, self, &Retrying { alloc, number })
    }

    fn abandon<T: Wait + Abort>(&mut self, rt: &T, alloc: Global, number: u64) -> bool {
        called(rt, self, &Abandoning { alloc, number })
    }

    fn has_fields<T: Abort>(
        &mut self,
        rt: &T,
        alloc: Global,
        key: &[u8],
        fields: &[&[u8]],
    ) -> bool {
        let key = key_of(rt, alloc, key);
        let listed = found(rt, self, &FieldListing { alloc, key: &key });
        are_fields(&listed.expect(rt, "memory"), fields)
    }
}

impl<K: Naming, G: Gate + Drop, R: Wait + Drop> Keeping for Client<K, Lock<K, G, R>> {
    fn write_at_once<T: Wait + Abort>(&mut self, rt: &T, alloc: Global) -> Written {
        let (key, other) = (key_of(rt, alloc, b"a"), key_of(rt, alloc, b"b"));
        let (field, empty) = (field_of(rt, alloc, b"f"), Field::empty());
        let (first, second) = (value_of(rt, alloc, b"x"), value_of(rt, alloc, b"y"));
        let writes = [
            Write::Put(&key, &field, &first),
            Write::Put(&key, &empty, &second),
            Write::RemoveField(&key, &field),
            Write::Remove(&other),
        ];
        let batching = Batching {
            alloc,
            writes: &writes,
        };
        let mut snapshot = self.snapshot().expect(rt, "a root");
        let written = called(rt, self, &batching);
        assert!(rt; snapshot.look(&Sizing) == 0);
        self.renew(&mut snapshot).expect(rt, "a root");
        assert!(rt; snapshot.look(&Sizing) == 1);
        written
    }

    fn saved<T: Wait + Abort>(&mut self, rt: &T, alloc: Global) -> Saved {
        let checkpoint = self.inspect(rt, &Checkpointing).expect(rt, "memory");
        checkpoint.saved(alloc).expect(rt, "memory")
    }
}

impl<K: Naming, G: Gate + Drop, R: Wait + Drop> TimedServing for Client<K, Lock<K, G, R>> {
    fn is_waiting<T: Wait>(&mut self, rt: &T) -> bool {
        self.inspect(rt, &Waiting)
    }

    fn serve_timed<P: TimedPost, T: Wait>(
        &mut self,
        rt: &T,
        alloc: Global,
        post: &mut P,
    ) -> TimedServed {
        serve_timed(rt, alloc, self, post)
    }
}

// Puts a value on a field of a key: the number of its dot, and the receipt.
pub(crate) fn put_noted<K: Naming, G: Gate + Drop, R: Wait + Drop, T: Wait + Abort>(
    rt: &T,
    alloc: Global,
    client: &mut Client<K, Lock<K, G, R>>,
    key: &[u8],
    field: &[u8],
    value: &[u8],
) -> (u64, Receipt<K>) {
    let key = key_of(rt, alloc, key);
    let field = field_of(rt, alloc, field);
    let value = value_of(rt, alloc, value);
    let write = Write::Put(&key, &field, &value);
    let (wrote, receipt) = noted(rt, client, &Writing { alloc, write });
    (number_of(wrote), receipt)
}

// Makes a write that is no put: how many it observed.
fn counted<K: Naming, G: Gate + Drop, R: Wait + Drop, T: Wait + Abort>(
    rt: &T,
    client: &mut Client<K, Lock<K, G, R>>,
    alloc: Global,
    write: Write<'_>,
) -> u64 {
    number_of(called(rt, client, &Writing { alloc, write }))
}

// The number that a write was answered: that of its dot, or of those that it observed.
fn number_of(wrote: Wrote) -> u64 {
    match wrote {
        Wrote::Made(dot) => dot.number(),
        Wrote::Counted(number) => number,
    }
}

// Whether a snapshot shows this one value at the key.
pub(crate) fn shows(
    rt: &impl Abort,
    alloc: Global,
    snapshot: &Root,
    key: &[u8],
    value: &[u8],
) -> bool {
    let key = key_of(rt, alloc, key);
    let getting = Getting {
        alloc,
        key: &key,
        field: &Field::empty(),
    };
    let values = getting.look(snapshot).expect(rt, "memory");
    are(&values, Some(value))
}
