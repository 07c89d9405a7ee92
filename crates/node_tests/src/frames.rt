// Frames over streams that give and take a few bytes a call.
use crate::streams::{Given, Taken};
use dots::{Name, Refusal};
use node_threads::{Frames, FramesEnd, Post};
use std::alloc::Global;
use std::process::Abort;
use std::sync::Wait;

// A frame that is as long as it may be, and an empty one.
const FRAMES: [u8; 16] = [
    0, 0, 0, 8, b'l', b'e', b't', b't', b'e', b'r', b's', b'.', 0, 0, 0, 0,
];

// A frame for the name 7 with the bytes hello.
const FRAME: [u8; 17] = [
    0, 0, 0, 13, 0, 0, 0, 0, 0, 0, 0, 7, b'h', b'e', b'l', b'l', b'o',
];

#[test]
fn frames_come_one_by_one_until_the_input_ends(rt: HostRuntime) {
    let mut bytes = Vec::new(rt.alloc());
    let mut frames = over(rt.alloc(), &FRAMES, &mut bytes, 0);
    let first = frames.receive(&rt);
    assert!(rt; first.is_some_and(|bytes| bytes.as_slice() == b"letters.".as_slice()));
    let second = frames.receive(&rt);
    assert!(rt; second.is_some_and(|bytes| bytes.is_empty()));
    assert!(rt; frames.end().is_none());
    assert!(rt; frames.receive(&rt).is_none());
    assert!(rt; frames.end() == Some(FramesEnd::Over));
}

#[test]
fn a_frame_that_is_too_long_or_cut_ends_them(rt: HostRuntime) {
    let too_long = [0, 0, 0, 9, 1, 2, 3, 4, 5, 6, 7, 8, 9];
    assert!(rt; end_of(&rt, rt.alloc(), &too_long) == Some(FramesEnd::Refused(Refusal::TooLong)));
    let largest = [255, 255, 255, 255, 0];
    assert!(rt; end_of(&rt, rt.alloc(), &largest) == Some(FramesEnd::Refused(Refusal::TooLong)));
    let cut = [0, 0, 0, 5, 1, 2, 3, 4];
    assert!(rt; end_of(&rt, rt.alloc(), &cut) == Some(FramesEnd::Refused(Refusal::Input)));
    let no_number = [0, 0, 0];
    assert!(rt; end_of(&rt, rt.alloc(), &no_number) == Some(FramesEnd::Refused(Refusal::Input)));
}

#[test]
fn what_goes_out_is_a_frame_with_the_name_that_it_is_for(rt: HostRuntime) {
    let mut bytes = Vec::new(rt.alloc());
    assert!(rt; is_sent(&rt, rt.alloc(), &mut bytes, 100, b"hello"));
    assert!(rt; bytes.as_slice() == FRAME.as_slice());
}

#[test]
fn what_is_too_long_is_not_sent(rt: HostRuntime) {
    let mut bytes = Vec::new(rt.alloc());
    assert!(rt; !is_sent(&rt, rt.alloc(), &mut bytes, 100, b"hello, all"));
    assert!(rt; bytes.is_empty());
}

#[test]
fn an_output_that_takes_no_more_ends_them(rt: HostRuntime) {
    let mut bytes = Vec::new(rt.alloc());
    assert!(rt; !is_sent(&rt, rt.alloc(), &mut bytes, 14, b"hello"));
    assert!(rt; bytes.as_slice() == &FRAME[..14]);
}

// Frames of at most eight bytes that come in, over streams that give this and take so many bytes.
fn over<'a>(
    alloc: Global,
    input: &'a [u8],
    bytes: &'a mut Vec<u8>,
    most: usize,
) -> Frames<Given<'a>, Taken<'a>> {
    Frames::new(alloc, Given { rest: input }, Taken { bytes, most }, 8)
}

// How frames end over this input, once one was asked for.
fn end_of(rt: &(impl Wait + Abort), alloc: Global, input: &[u8]) -> Option<FramesEnd> {
    let mut bytes = Vec::new(alloc);
    let mut frames = over(alloc, input, &mut bytes, 0);
    assert!(rt; frames.receive(rt).is_none());
    frames.end()
}

// Whether this goes out to the name 7 by frames of at most seventeen bytes, over a stream that takes so many.
fn is_sent(
    rt: &(impl Wait + Abort),
    alloc: Global,
    bytes: &mut Vec<u8>,
    most: usize,
    letter: &[u8],
) -> bool {
    let mut frames = Frames::new(alloc, Given { rest: &[] }, Taken { bytes, most }, 17);
    let Some(to) = Name::new(7) else {
        return false;
    };
    frames.send(rt, to, letter)
}
