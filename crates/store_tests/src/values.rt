// The plain values.
use crate::made::{dot, name};
use dots::{Field, FieldKind, Key, KeyKind, Refusal, Text, ValueKind};
use std::alloc::Global;
use std::fmt::Display;
use std::mem::size_of;
use std::process::Abort;

// So many of this byte.
fn many(rt: &impl Abort, alloc: Global, byte: u8, count: usize) -> Vec<u8> {
    let mut bytes = Vec::new(alloc);
    bytes.resize(count, byte).expect(rt, "memory");
    bytes
}

// Whether the text of these bytes, and its copy, give them back, and the two are equal.
fn is_held<K>(rt: &impl Abort, alloc: Global, bytes: &[u8]) -> bool {
    let text: Text<K> = Text::new(alloc, bytes).expect(rt, "memory");
    let copy = text.copy(alloc).expect(rt, "memory");
    let (is_whole, is_copied) = (text.bytes() == bytes, copy.bytes() == bytes);
    let is_equal = text == copy;
    is_whole && is_copied && is_equal
}

#[test]
fn a_text_and_its_copy_hold_what_came_in(rt: HostRuntime) {
    let past_the_place = b"twenty-three bytes long";
    for bytes in [
        b"".as_slice(),
        b"milk",
        &past_the_place[..22],
        past_the_place,
    ] {
        assert!(rt; is_held::<KeyKind>(&rt, rt.alloc(), bytes), "{bytes:?}");
        assert!(rt; is_held::<ValueKind>(&rt, rt.alloc(), bytes), "{bytes:?}");
    }
    assert!(rt; past_the_place.len() == 23 && size_of::<Key>() == 24);
}

// How long the text of this many zero bytes is, if there is one.
fn length_of_zeros<K>(rt: &impl Abort, alloc: Global, count: usize) -> Result<usize, Refusal> {
    let bytes = many(rt, alloc, 0, count);
    let text: Text<K> = Text::new(alloc, &bytes)?;
    Ok(text.bytes().len())
}

#[test]
fn texts_end_at_65535_bytes(rt: HostRuntime) {
    let alloc = rt.alloc();
    assert!(rt; length_of_zeros::<FieldKind>(&rt, alloc, 65535) == Ok(65535));
    assert!(rt; length_of_zeros::<FieldKind>(&rt, alloc, 65536) == Err(Refusal::TooLong));
    assert!(rt; length_of_zeros::<KeyKind>(&rt, alloc, 65536) == Err(Refusal::TooLong));
    assert!(rt; length_of_zeros::<ValueKind>(&rt, alloc, 65536) == Err(Refusal::TooLong));
}

// Whether the value is printed so.
fn is_printed<T: Display>(rt: &impl Abort, alloc: Global, value: &T, wanted: &str) -> bool {
    let text = format!(in alloc; "{value}").expect(rt, "memory");
    text.as_str() == wanted
}

#[test]
fn a_refusal_is_written_as_its_name(rt: HostRuntime) {
    assert!(rt; is_printed(&rt, rt.alloc(), &Refusal::NotAMessage, "NotAMessage"));
}

// Whether the text of these bytes is printed so.
fn is_text_printed(rt: &impl Abort, alloc: Global, bytes: &[u8], wanted: &str) -> bool {
    let text = Field::new(alloc, bytes).expect(rt, "memory");
    is_printed(rt, alloc, &text, wanted)
}

// Bytes, and how their text is printed.
const PRINTED: &[(&[u8], &str)] = &[
    (b"milk#2", "milk#2"),
    (b"!~", "!~"),
    (b"", "#"),
    (b"#1", "#2331"),
    (b"a b", "#612062"),
    (&[0, 10, 127, 255], "#000a7fff"),
];

#[test]
fn a_text_is_printed_as_itself_or_by_its_bytes(rt: HostRuntime) {
    for (bytes, wanted) in PRINTED {
        assert!(rt; is_text_printed(&rt, rt.alloc(), bytes, wanted), "{wanted}");
    }
}

// How long the text of so many of this byte is printed.
fn printed_length(rt: &impl Abort, alloc: Global, byte: u8, count: usize) -> usize {
    let bytes = many(rt, alloc, byte, count);
    let text = Field::new(alloc, &bytes).expect(rt, "memory");
    let printed = format!(in alloc; "{text}").expect(rt, "memory");
    printed.len()
}

// A byte, how many of it are a text, and how long that is printed.
const LONG: &[(u8, usize, usize)] = &[(b'x', 300, 300), (0, 22, 45), (0, 23, 47), (0, 300, 601)];

#[test]
fn long_texts_are_printed_whole(rt: HostRuntime) {
    for (byte, count, length) in LONG {
        assert!(rt;
            printed_length(&rt, rt.alloc(), *byte, *count) == *length,
            "{length}"
        );
    }
}

// Whether a text is shown for debugging as the list of its bytes.
fn is_shown_by_bytes(rt: &impl Abort, alloc: Global) -> bool {
    let text = Field::new(alloc, b"ab").expect(rt, "memory");
    let shown = format!(in alloc; "{text:?}").expect(rt, "memory");
    shown.as_str() == "[97, 98]"
}

#[test]
fn a_text_is_shown_for_debugging_by_its_bytes(rt: HostRuntime) {
    assert!(rt; is_shown_by_bytes(&rt, rt.alloc()));
}

// A name and a number, and how their dot and the name are printed.
const SHOWN: &[(u64, u64, &str, &str)] = &[
    (2, 17, "2:17", "2"),
    (10, 1_234_567, "10:1234567", "10"),
    (
        u64::MAX,
        u64::MAX,
        "18446744073709551615:18446744073709551615",
        "18446744073709551615",
    ),
];

#[test]
fn a_dot_is_printed_as_its_name_and_its_number(rt: HostRuntime) {
    for (of, number, shown, name_shown) in SHOWN {
        assert!(rt;
            is_printed(&rt, rt.alloc(), &dot(&rt, *of, *number), shown),
            "{shown}"
        );
        assert!(rt;
            is_printed(&rt, rt.alloc(), &name(&rt, *of), name_shown),
            "{shown}"
        );
    }
}
