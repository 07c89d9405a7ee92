// The texts that the last call gave that gives texts, and the words of the answers.
ghost use Rattle.std.specs.Prelude.{◌≡◌, ◌≢◌, ◌<◌, ◌≤◌, Some, length, take};
ghost use Rattle.ginelm_c.specs.Handling.{StaysEmpty};
ghost use Rattle.ginelm_c.specs.Texts.{addressee_at, bytes_at, count_in};
ghost use Rattle.ginelm_c.specs.declared.held.Held.{Held};

use crate::answer::{EMPTY, NO_TEXT, SHORT};
use crate::handle::Handle;
use crate::texts::Texts;
use dots::Refusal;
use std::alloc::Global;

// Copies the bytes where there is room for them, and tells how many there are.
pub(crate) fn copied(bytes: &[u8], out: &mut [u8], needed: &mut usize) -> u32
    ensures needed { needed.new ≡ length bytes.now }
    ensures short { length out.old < length bytes.now → (result ≡ 17) × (out.new ≡ out.old) }
    ensures copied { length bytes.now ≤ length out.old → (result ≡ 0) × (take (length bytes.now) out.new ≡ bytes.now) }
{
    *needed = bytes.len();
    if out.len() < bytes.len() {
        return SHORT;
    }
    out[..bytes.len()].copy_from_slice(bytes);
    0
}

// The text at this place, and whom it is for.
pub(crate) fn text(
    texts: &Texts,
    at: usize,
    to: &mut u64,
    out: &mut [u8],
    needed: &mut usize,
) -> u32
    ensures told { result ≡ 0 → (bytes_at texts.now at ≡ Some (take needed.new out.new)) × (to.new ≡ addressee_at texts.now at) }
    ensures short { result ≡ 17 → length out.old < needed.new }
{
    match texts.bytes(at) {
        Some(bytes) => {
            *to = texts.addressee(at);
            copied(bytes, out, needed)
        }
        None => NO_TEXT,
    }
}

/// Tells how many texts the last call gave that gives texts.
#[unsafe(no_mangle)]
pub extern "C" fn ginelm_count(alloc: Global, here: &mut Handle, count: &mut usize) -> u32
    ensures none { StaysEmpty here.old.value here.new.value result }
    ensures same { here.new.value ≡ here.old.value }
    ensures told { (x : Held) → here.old.value ≡ Some x → (result ≡ 0) × (count.new ≡ count_in x.texts) }
{
    let Some(held) = here.take(alloc) else {
        return EMPTY;
    };
    *count = held.texts.count();
    here.give(held);
    0
}

/// Copies the text at this place, from 0, and tells how many bytes it has, and the name of the replica that it is for, or 0 for everyone. 17
/// where there is too little room: nothing is copied then, and how many bytes it has is told; 18 where there is no text.
#[unsafe(no_mangle)]
pub extern "C" fn ginelm_text(
    alloc: Global,
    here: &mut Handle,
    at: usize,
    to: &mut u64,
    out: &mut [u8],
    needed: &mut usize,
) -> u32
    ensures none { StaysEmpty here.old.value here.new.value result }
    ensures same { here.new.value ≡ here.old.value }
    ensures told { result ≡ 0 → (x : Held) → here.old.value ≡ Some x → (bytes_at x.texts at ≡ Some (take needed.new out.new)) × (to.new ≡ addressee_at x.texts at) }
{
    let Some(held) = here.take(alloc) else {
        return EMPTY;
    };
    let answer = text(&held.texts, at, to, out, needed);
    here.give(held);
    answer
}

fn word_of(number: u32) -> &'static str {
    match number {
        1 => Refusal::OutOfMemory.word(),
        2 => Refusal::TooLong.word(),
        4 => Refusal::NumbersSpent.word(),
        5 => Refusal::SessionsFull.word(),
        6 => Refusal::NotAMessage.word(),
        14 => "Empty",
        15 => "Full",
        16 => "NoName",
        17 => "Short",
        18 => "NoText",
        19 => "LostMemory",
        _ => "",
    }
}

/// Copies the word of an answer, as ginelm_text copies a text: no bytes where no call gives this answer.
#[unsafe(no_mangle)]
pub extern "C" fn ginelm_word(number: u32, out: &mut [u8], needed: &mut usize) -> u32
    ensures short { result ≢ 0 → (result ≡ 17) × (length out.old < needed.new) }
{
    copied(word_of(number).as_bytes(), out, needed)
}
