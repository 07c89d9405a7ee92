// What is written of an event that happened in a world.
ghost use Rattle.std.specs.Prelude.{◌≡◌, ◌+◌, ◌-◌, ◌≤◌, ◌++◌, length, drop, IfOk, OnOk, IsOkUnless};
ghost use Rattle.hash_path.specs.Fnv1a.{fnv1a};
ghost use Rattle.wire_form.specs.Message.{message_of};
ghost use Rattle.replica_model.specs.Mail.{mail_of};
ghost use Rattle.replica_model.specs.World as model;
ghost use Rattle.replica_model.specs.World.{message_at, nothing, Runs};
ghost use Rattle.replica_core.specs.Answered as answered;
ghost use Rattle.replica_world.specs.Happening.{answer_value};
ghost use Rattle.replica_world.specs.Keeping.{past_of};
ghost use Rattle.trace_world.specs.Told.{kind_of, told_text, closed_text, outcome_text, flush_text, sent_text, messages_text, found_text, kind_found};

use dots::Refusal;
use hash_path::Fnv1a;
use replica_core::Outcome;
use replica_world::{Answer, World};
use std::alloc::Allocator;
use trace_words::{Kind, erased_answer, push_message, put_answer, session_answer};
use wire_form::Message;

// What is told of the last event of the world, which was answered so and made the messages from the first number to before the end.
pub(crate) fn tell<A: Allocator + Copy>(
    alloc: A,
    world: &World<Fnv1a, A>,
    answer: Answer,
    first: u64,
    end: u64,
) -> Result<Vec<u8, A>, Refusal>
    ensures ok { IfOk result (λ text. (v : model.World) → Runs fnv1a nothing (past_of world.now) v → 1 ≤ first → end ≡ length v.messages + 1
        → text.items ≡ told_text (answer_value answer) first (drop (first - 1) v.messages)) }
    ensures err { IsOkUnless result Refusal.OutOfMemory }
{
    match answer {
        Answer::Nothing => flushed(alloc, world, first, end),
        Answer::Dot(dot) => Ok(put_answer(alloc, dot)?.into_bytes()),
        Answer::Count(number) => Ok(erased_answer(alloc, number)?.into_bytes()),
        Answer::Number(number) => {
            let text = session_answer(alloc, number)?.into_bytes();
            with_messages(alloc, world, text, first, end)
        }
        Answer::Outcome(outcome) => came(alloc, world, outcome, first, end),
        Answer::Closed(was) => closed(alloc, was),
    }
}

// Of a session that was given up, or was not open.
fn closed<A: Allocator + Copy>(alloc: A, was: bool) -> Result<Vec<u8, A>, Refusal>
    ensures ok { IfOk result (λ text. text.items ≡ closed_text was) }
    ensures err { IsOkUnless result Refusal.OutOfMemory }
{
    let text = Vec::from_slice(
        alloc,
        if was {
            b"ok".as_slice()
        } else {
            b"ignored".as_slice()
        },
    )?;
    Ok(text)
}

// Of a flush.
fn flushed<A: Allocator + Copy>(
    alloc: A,
    world: &World<Fnv1a, A>,
    first: u64,
    end: u64,
) -> Result<Vec<u8, A>, Refusal>
    ensures ok { IfOk result (λ text. (v : model.World) → Runs fnv1a nothing (past_of world.now) v → 1 ≤ first → end ≡ length v.messages + 1
        → text.items ≡ flush_text first (drop (first - 1) v.messages)) }
    ensures err { IsOkUnless result Refusal.OutOfMemory }
{
    if first >= end {
        return Ok(Vec::from_slice(alloc, b"empty")?);
    }
    sent(alloc, world, first, end)
}

// Of a delivery or a retry.
fn came<A: Allocator + Copy>(
    alloc: A,
    world: &World<Fnv1a, A>,
    outcome: Outcome,
    first: u64,
    end: u64,
) -> Result<Vec<u8, A>, Refusal>
    ensures ok { IfOk result (λ text. (v : model.World) → Runs fnv1a nothing (past_of world.now) v → 1 ≤ first → end ≡ length v.messages + 1
        → text.items ≡ outcome_text (answered.outcome_of outcome) first (drop (first - 1) v.messages)) }
    ensures err { IsOkUnless result Refusal.OutOfMemory }
{
    match outcome {
        Outcome::Joined => Ok(Vec::from_slice(alloc, b"joined")?),
        Outcome::Sent => sent(alloc, world, first, end),
        Outcome::Done => Ok(Vec::from_slice(alloc, b"done")?),
        Outcome::Ignored => Ok(Vec::from_slice(alloc, b"ignored")?),
        Outcome::Mismatch => Ok(Vec::from_slice(alloc, b"mismatch")?),
        Outcome::Gone => Ok(Vec::from_slice(alloc, b"gone")?),
    }
}

// That these messages were sent.
fn sent<A: Allocator + Copy>(
    alloc: A,
    world: &World<Fnv1a, A>,
    first: u64,
    end: u64,
) -> Result<Vec<u8, A>, Refusal>
    ensures ok { IfOk result (λ text. (v : model.World) → Runs fnv1a nothing (past_of world.now) v → 1 ≤ first → end ≡ length v.messages + 1
        → text.items ≡ sent_text first (drop (first - 1) v.messages)) }
    ensures err { IsOkUnless result Refusal.OutOfMemory }
{
    let text = Vec::from_slice(alloc, b"sent")?;
    with_messages(alloc, world, text, first, end)
}

// The text, and behind it each message of these numbers with its kind.
fn with_messages<A: Allocator + Copy>(
    alloc: A,
    world: &World<Fnv1a, A>,
    mut text: Vec<u8, A>,
    first: u64,
    end: u64,
) -> Result<Vec<u8, A>, Refusal>
    ensures ok { IfOk result (λ whole. (v : model.World) → Runs fnv1a nothing (past_of world.now) v → 1 ≤ first → end ≡ length v.messages + 1
        → whole.items ≡ text.items ++ messages_text first (drop (first - 1) v.messages)) }
    ensures err { IsOkUnless result Refusal.OutOfMemory }
{
    for number in first..end {
        push_sent(alloc, world, &mut text, number)?;
    }
    Ok(text)
}

// Appends the message of this number with its kind, where there is one. A refusal may leave a part of it there.
fn push_sent<A: Allocator + Copy>(
    alloc: A,
    world: &World<Fnv1a, A>,
    out: &mut Vec<u8, A>,
    number: u64,
) -> Result<(), Refusal>
    ensures ok { OnOk result ((v : model.World) → Runs fnv1a nothing (past_of world.now) v
        → out.new.items ≡ out.old.items ++ found_text number (message_at v.messages number)) }
    ensures err { IsOkUnless result Refusal.OutOfMemory }
{
    match kind_at(world, number)? {
        Some(kind) => push_message(alloc, out, number, kind),
        None => Ok(()),
    }
}

// The kind of the message of this number, if there is one.
fn kind_at<A: Allocator + Copy>(
    world: &World<Fnv1a, A>,
    number: u64,
) -> Result<Option<Kind>, Refusal>
    ensures ok { IfOk result (λ found. (v : model.World) → Runs fnv1a nothing (past_of world.now) v → found ≡ kind_found (message_at v.messages number)) }
    ensures err { IsOkUnless result Refusal.OutOfMemory }
{
    match world.read(number)? {
        Some(message) => {
            let kind = kind_of(&message);
            drop(message);
            Ok(Some(kind))
        }
        None => Ok(None),
    }
}

// The kind of a message.
fn kind_of<A: Allocator + Copy>(message: &Message<A>) -> Kind
    ensures { result ≡ kind_of (mail_of (message_of message.now)) }
{
    match message {
        Message::Delta(_) => Kind::Delta,
        Message::Hello(_, _) => Kind::Hello,
        Message::Opening(_, _, _) => Kind::Opening,
        Message::Ask(_, prefix) => Kind::Ask(*prefix),
        Message::Page(_, sent) => Kind::Page(sent.prefix()),
        Message::Gone(_) => Kind::Gone,
    }
}
