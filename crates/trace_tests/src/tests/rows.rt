// Worked traces, with their exact text and the refusal that they end with.
use crate::tests::faults::{TEXT, TRACE};
use dots::Refusal;
use std::alloc::Global;
use std::process::Abort;
use trace_cli::{Watched, run, run_bytes};

// A value travels from one replica to another.
const ONE_VALUE: &str = "node 1
node 2
put 1 a x
flush 1
deliver 1 2
get 2 a
";

const ONE_VALUE_TEXT: &str = "ok
ok
ok 1:1
sent 1:delta
joined
= x
";

// Concurrent values are both shown.
const CONCURRENT: &str = "node 1
node 2
put 1 a x
put 2 a y
flush 1
flush 2
deliver 1 2
deliver 2 1
get 1 a
get 2 a
";

const CONCURRENT_TEXT: &str = "ok
ok
ok 1:1
ok 2:1
sent 1:delta
sent 2:delta
joined
joined
= x y
= x y
";

// Deltas may come in any order.
const ANY_ORDER: &str = "node 1
node 2
put 1 a x
flush 1
put 1 b y
flush 1
put 1 c z
flush 1
deliver 3 2
context 2
deliver 1 2
context 2
deliver 2 2
context 2
deliver 1 2
deliver 2 2
deliver 3 2
context 2
show 2
";

const ANY_ORDER_TEXT: &str = "ok
ok
ok 1:1
sent 1:delta
ok 1:2
sent 2:delta
ok 1:3
sent 3:delta
joined
context +1:3
joined
context 1:1 +1:3
joined
context 1:3
joined
joined
joined
context 1:3
map 3 a 1 x b 1 y c 1 z
";

// A remove may overtake the put that it observed.
const OVERTAKEN: &str = "node 1
node 2
node 3
put 1 a x
flush 1
deliver 1 2
remove 2 a
context 2
flush 2
deliver 2 3
context 3
deliver 1 3
get 3 a
context 3
deliver 2 1
get 1 a
remove 1 a
flush 1
";

const OVERTAKEN_TEXT: &str = "ok
ok
ok
ok 1:1
sent 1:delta
joined
ok 1
context 1:1
sent 2:delta
joined
context 1:1
joined
=
context 1:1
joined
=
ok 0
empty
";

// What was put beside a clear stays.
pub(crate) const BESIDE_A_CLEAR: &str = "node 1
node 2
put 1 a x
flush 1
deliver 1 2
remove 1 a
put 2 a y
flush 1
flush 2
deliver 2 2
deliver 3 1
get 1 a
get 2 a
show 1
clear 1
flush 1
deliver 4 2
size 1
size 2
show 2
";

pub(crate) const BESIDE_A_CLEAR_TEXT: &str = "ok
ok
ok 1:1
sent 1:delta
joined
ok 1
ok 2:1
sent 2:delta
sent 3:delta
joined
joined
= y
= y
map 1 a 1 y
ok 1
sent 4:delta
joined
size 0
size 0
map 0
";

// A remove that was seen by the peer is taken over.
const REMOVE_SYNCHRONISED: &str = "node 1
node 2
put 1 a x
flush 1
deliver 1 2
remove 2 a
context 1
context 2
sync 1 2
deliver 2 2
deliver 3 1
get 1 a
";

const REMOVE_SYNCHRONISED_TEXT: &str = "ok
ok
ok 1:1
sent 1:delta
joined
ok 1
context 1:1
context 1:1
session 1 sent 2:hello
sent 3:opening
done
=
";

// A put that comes while a synchronisation is open is ended by what the peer had seen.
const REMOVE_THROUGH_A_THIRD: &str = "node 1
node 2
node 3
put 3 k x
flush 3
deliver 1 2
remove 2 k
sync 1 2
deliver 1 1
get 1 k
deliver 2 2
deliver 3 1
get 1 k
context 1
";

const REMOVE_THROUGH_A_THIRD_TEXT: &str = "ok
ok
ok
ok 3:1
sent 1:delta
joined
ok 1
session 1 sent 2:hello
joined
= x
sent 3:opening
done
=
context 3:1
";

// Pages are asked for down to the value that is missing.
pub(crate) const PAGES_UNDER_ONE_INDEX: &str = "node 1
node 2
put 2 # v
flush 2
deliver 1 1
put 2 b w
sync 1 2
deliver 2 2
deliver 3 1
deliver 4 2
deliver 5 1
deliver 6 2
deliver 7 1
deliver 8 2
deliver 9 1
show 1
context 1
";

pub(crate) const PAGES_UNDER_ONE_INDEX_TEXT: &str = "ok
ok
ok 2:1
sent 1:delta
joined
ok 2:2
session 1 sent 2:hello
sent 3:opening
sent 4:ask/
sent 5:page/
sent 6:ask/5
sent 7:page/5
sent 8:ask/5/15
sent 9:page/5/15
done
map 2 # 1 v b 1 w
context 2:2
";

// Values are sent only where they are missing.
const VALUES_ONLY_WHERE_MISSING: &str = "node 1
node 2
put 1 a x
flush 1
deliver 1 2
put 2 b y
remove 1 a
sync 1 2
deliver 2 2
deliver 3 1
deliver 4 2
deliver 5 1
deliver 6 2
deliver 7 2
deliver 9 1
deliver 8 1
show 1
context 1
";

const VALUES_ONLY_WHERE_MISSING_TEXT: &str = "ok
ok
ok 1:1
sent 1:delta
joined
ok 2:1
ok 1
session 1 sent 2:hello
sent 3:opening
sent 4:ask/
sent 5:page/
sent 6:ask/5 7:ask/12
sent 8:page/5
sent 9:page/12
sent
done
map 1 b 1 y
context 1:1 2:1
";

// A value that was written beside another is sent.
const CONCURRENT_VALUE_SENT: &str = "node 1
node 2
put 1 a x
put 2 a y
flush 1
deliver 1 2
sync 1 2
deliver 2 2
deliver 3 1
deliver 4 2
deliver 5 1
get 1 a
";

const CONCURRENT_VALUE_SENT_TEXT: &str = "ok
ok
ok 1:1
ok 2:1
sent 1:delta
joined
session 1 sent 2:hello
sent 3:opening
sent 4:ask/
sent 5:page/
done
= x y
";

// Eight sessions are open at most, and the snapshots of the last eight are kept.
pub(crate) const NINTH_SESSION: &str = "node 1
node 2
node 3
put 2 a x
sync 1 2
deliver 1 2
deliver 2 1
sync 3 2
sync 3 2
sync 3 2
sync 3 2
sync 3 2
sync 3 2
sync 3 2
sync 3 2
sync 3 2
deliver 4 2
deliver 5 2
deliver 6 2
deliver 7 2
deliver 8 2
deliver 9 2
deliver 10 2
deliver 11 2
deliver 3 2
deliver 1 2
deliver 21 1
deliver 20 1
retry 1 1
get 1 a
";

pub(crate) const NINTH_SESSION_TEXT: &str = "ok
ok
ok
ok 2:1
session 1 sent 1:hello
sent 2:opening
sent 3:ask/
session 1 sent 4:hello
session 2 sent 5:hello
session 3 sent 6:hello
session 4 sent 7:hello
session 5 sent 8:hello
session 6 sent 9:hello
session 7 sent 10:hello
session 8 sent 11:hello
refused SessionsFull
sent 12:opening
sent 13:opening
sent 14:opening
sent 15:opening
sent 16:opening
sent 17:opening
sent 18:opening
sent 19:opening
sent 20:gone
sent 21:opening
ignored
gone
ignored
=
";

// A repeated hello is answered with the same opening.
const REPEATED_HELLO: &str = "node 1
node 2
put 2 a x
sync 1 2
retry 1 1
deliver 2 2
put 2 a y
deliver 1 2
deliver 4 1
deliver 3 1
retry 1 1
deliver 6 2
deliver 7 1
get 1 a
context 1
deliver 5 2
deliver 8 1
sync 1 2
abandon 1 2
abandon 1 2
deliver 9 2
deliver 10 1
";

const REPEATED_HELLO_TEXT: &str = "ok
ok
ok 2:1
session 1 sent 1:hello
sent 2:hello
sent 3:opening
ok 2:2
sent 4:opening
sent 5:ask/
ignored
sent 6:ask/
sent 7:page/
done
= x
context 2:1
sent 8:page/
ignored
session 2 sent 9:hello
ok
ignored
sent 10:opening
ignored
";

// A digest tells what stands and not what was seen.
const DIGEST_OF_REMOVED: &str = "node 1
node 2
digest 1
put 1 a x
flush 1
deliver 1 2
put 1 b y
remove 1 b
context 1
context 2
digest 1
digest 2
flush 1
deliver 2 2
context 2
";

const DIGEST_OF_REMOVED_TEXT: &str = "ok
ok
-
ok 1:1
sent 1:delta
joined
ok 1:2
ok 1
context 1:2
context 1:1
eaa28b348f2841f2b45ba7b7d92ff0ecdfbfddc7c7d92576b41044c41baaa405
eaa28b348f2841f2b45ba7b7d92ff0ecdfbfddc7c7d92576b41044c41baaa405
sent 2:delta
joined
context 1:2
";

// Fields of a key are written and removed apart.
const FIELDS: &str = "node 1
node 2
putf 1 a f x
put 2 a y
flush 1
flush 2
deliver 1 2
deliver 2 1
get 1 a
getf 1 a f
fields 1 a
show 1
putf 2 a f z
removef 1 a f
flush 2
flush 1
deliver 3 1
deliver 4 2
fields 1 a
remove 1 a
size 1
getf 1 a f
";

const FIELDS_TEXT: &str = "ok
ok
ok 1:1
ok 2:1
sent 1:delta
sent 2:delta
joined
joined
= y
= x
fields 2 # 1 y f 1 x
map 1 a 2 x y
ok 2:2
ok 1
sent 3:delta
sent 4:delta
joined
joined
fields 2 # 1 y f 1 z
ok 2
size 0
=
";

// A pin keeps what is removed afterwards.
const PINNED: &str = "node 1
put 1 a x
pin 1
remove 1 a
look 1 a
get 1 a
clear 1
look 2 a
";

const PINNED_TEXT: &str = "ok
ok 1:1
pin 1
ok 1
= x
=
ok 0
error line 8: BadLine
";

// A trace, its text, and the refusal that it ends with.
const ROWS: &[(&str, &str, Option<Refusal>)] = &[
    ("", "", None),
    ("\n\n", "", None),
    (ONE_VALUE, ONE_VALUE_TEXT, None),
    (CONCURRENT, CONCURRENT_TEXT, None),
    (TRACE, TEXT, None),
    (ANY_ORDER, ANY_ORDER_TEXT, None),
    (OVERTAKEN, OVERTAKEN_TEXT, None),
    (BESIDE_A_CLEAR, BESIDE_A_CLEAR_TEXT, None),
    (REMOVE_SYNCHRONISED, REMOVE_SYNCHRONISED_TEXT, None),
    (REMOVE_THROUGH_A_THIRD, REMOVE_THROUGH_A_THIRD_TEXT, None),
    (PAGES_UNDER_ONE_INDEX, PAGES_UNDER_ONE_INDEX_TEXT, None),
    (
        VALUES_ONLY_WHERE_MISSING,
        VALUES_ONLY_WHERE_MISSING_TEXT,
        None,
    ),
    (CONCURRENT_VALUE_SENT, CONCURRENT_VALUE_SENT_TEXT, None),
    (NINTH_SESSION, NINTH_SESSION_TEXT, None),
    (REPEATED_HELLO, REPEATED_HELLO_TEXT, None),
    (DIGEST_OF_REMOVED, DIGEST_OF_REMOVED_TEXT, None),
    (FIELDS, FIELDS_TEXT, None),
    (PINNED, PINNED_TEXT, Some(Refusal::BadLine)),
    (
        "get 9 a\n",
        "error line 1: UnknownReplica\n",
        Some(Refusal::UnknownReplica),
    ),
    (
        "node 0\n",
        "error line 1: BadLine\n",
        Some(Refusal::BadLine),
    ),
    (
        "node 1\nnode 1\n",
        "ok\nerror line 2: NameTaken\n",
        Some(Refusal::NameTaken),
    ),
    (
        "node 1\ndeliver 1 1\n",
        "ok\nerror line 2: UnknownMessage\n",
        Some(Refusal::UnknownMessage),
    ),
    (
        "deliver 1 1\n",
        "error line 1: UnknownReplica\n",
        Some(Refusal::UnknownReplica),
    ),
    (
        "get 9 a",
        "error line 1: UnknownReplica\n",
        Some(Refusal::UnknownReplica),
    ),
    (
        "node 1\n\nnode 1\nnode 2\n",
        "ok\nerror line 3: NameTaken\n",
        Some(Refusal::NameTaken),
    ),
    (
        "node 1\ndeliver 1 1\nnode 2",
        "ok\nerror line 2: UnknownMessage\n",
        Some(Refusal::UnknownMessage),
    ),
];

// Whether a run of the trace as a stream gives the text, and ends so.
fn streams(alloc: Global, trace: &str, text: &str, refusal: Option<Refusal>) -> bool {
    let mut reader = Watched::new(trace.as_bytes());
    let mut writer = Watched::new(Vec::new(alloc));
    let ended = run(alloc, &mut reader, &mut writer).err();
    let written = writer.into_inner();
    let is_text = written.as_slice() == text.as_bytes();
    let is_end = ended == refusal;
    is_text && is_end
}

// Whether the trace gives the text, as one text and as a stream, and the stream ends so.
fn gives(
    rt: &impl Abort,
    alloc: Global,
    trace: &str,
    text: &str,
    refusal: Option<Refusal>,
) -> bool {
    let whole = run_bytes(alloc, trace.as_bytes()).expect(rt, "memory");
    let is_text = whole.as_slice() == text.as_bytes();
    let is_streamed = streams(alloc, trace, text, refusal);
    is_text && is_streamed
}

#[test]
fn each_row_has_its_text(rt: HostRuntime) {
    for (trace, text, refusal) in ROWS {
        let is_so = gives(&rt, rt.alloc(), trace, text, *refusal);
        assert!(rt; is_so, "{trace}");
    }
}

// A trace that puts on a key which is one byte too long, and goes on.
fn too_long(rt: &impl Abort, alloc: Global) -> String {
    let bytes = vec![in alloc; b'K'; 65536].expect(rt, "memory");
    let key = String::from_utf8(bytes).expect(rt, "a text");
    format!(in alloc; "node 1\nput 1 {key} x\nget 1 a\n").expect(rt, "memory")
}

#[test]
fn a_key_that_is_too_long_is_refused_and_the_trace_goes_on(rt: HostRuntime) {
    let trace = too_long(&rt, rt.alloc());
    let text = "ok\nrefused TooLong\n=\n";
    let is_so = gives(&rt, rt.alloc(), trace.as_str(), text, None);
    assert!(rt; is_so);
}
