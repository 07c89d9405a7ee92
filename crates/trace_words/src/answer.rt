ghost use Rattle.std.specs.Prelude.{◌≡◌, ◌≢◌, Err, ◌++◌, ◌∷◌, IfOk, OnOk, IsOkUnless, string_bytes, codes};
ghost use Rattle.std.specs.List.{flat_map};
ghost use Rattle.std.specs.Fmt.{decimal};
ghost use Rattle.trace_words.specs.Fault.{is_fault};
ghost use Rattle.trace_words.specs.Answer.{refused_as, answered_as};
ghost use Rattle.trace_words.specs.Text.{put_text, values_text, listed_text, erased_text, size_text, pin_text, digest_text, entry_text, dot_text, context_text, session_text};
ghost use Rattle.trace_words.specs.Reply.{answer_of, TellsFaults};

use crate::reply::Reply;
use crate::word::push_text;
use dots::{Dot, Name, Refusal, Value};
use std::alloc::Allocator;

/// Whether a refusal is a fault, which ends a trace with a line that tells it.
pub fn is_fault(refusal: Refusal) -> bool
    ensures { result ≡ is_fault refusal }
{
    matches!(
        refusal,
        Refusal::NameTaken | Refusal::UnknownReplica | Refusal::UnknownMessage | Refusal::BadLine
    )
}

/// The answer to a put: `ok <name>:<number>`. The one refusal is OutOfMemory.
pub fn put_answer<A: Allocator + Copy>(alloc: A, dot: Dot) -> Result<String<A>, Refusal>
    ensures ok { IfOk result (λ text. string_bytes text ≡ put_text dot) }
    ensures err { IsOkUnless result Refusal.OutOfMemory }
{
    let (name, number) = (dot.name().number(), dot.number());
    Ok(format!(in alloc; "ok {name}:{number}")?)
}

/// The answer to a look at a key: `=`, then a space and the value for each value. Takes time and memory in the values. The one refusal is
/// OutOfMemory.
pub fn get_answer<A: Allocator + Copy>(alloc: A, found: &[Value<A>]) -> Result<Vec<u8, A>, Refusal>
    ensures ok { IfOk result (λ text. text.items ≡ values_text found.now) }
    ensures err { IsOkUnless result Refusal.OutOfMemory }
{
    let mut text = Vec::from_slice(alloc, b"=")?;
    push_values(alloc, &mut text, found)?;
    Ok(text)
}

/// The answer to a remove or a clear: `ok <number of the writes observed>`. The one refusal is OutOfMemory.
pub fn erased_answer<A: Allocator + Copy>(alloc: A, number: u64) -> Result<String<A>, Refusal>
    ensures ok { IfOk result (λ text. string_bytes text ≡ erased_text number) }
    ensures err { IsOkUnless result Refusal.OutOfMemory }
{
    Ok(format!(in alloc; "ok {number}")?)
}

/// The answer to a look at the number of keys: `size <number>`. The one refusal is OutOfMemory.
pub fn size_answer<A: Allocator + Copy>(alloc: A, number: u64) -> Result<String<A>, Refusal>
    ensures ok { IfOk result (λ text. string_bytes text ≡ size_text number) }
    ensures err { IsOkUnless result Refusal.OutOfMemory }
{
    Ok(format!(in alloc; "size {number}")?)
}

/// The answer to a pin: `pin <number>`. The one refusal is OutOfMemory.
pub fn pin_answer<A: Allocator + Copy>(alloc: A, number: u64) -> Result<String<A>, Refusal>
    ensures ok { IfOk result (λ text. string_bytes text ≡ pin_text number) }
    ensures err { IsOkUnless result Refusal.OutOfMemory }
{
    Ok(format!(in alloc; "pin {number}")?)
}

/// The answer to a look at the root digest: its 64 hexadecimal digits, or `-` where there is none. The one refusal is OutOfMemory.
pub fn digest_answer<A: Allocator + Copy>(
    alloc: A,
    digest: Option<[u8; 32]>,
) -> Result<String<A>, Refusal>
    ensures ok { IfOk result (λ text. string_bytes text ≡ digest_text digest) }
    ensures err { IsOkUnless result Refusal.OutOfMemory }
{
    match digest {
        Some(digest) => Ok(hex::encode(alloc, digest)?),
        None => Ok(String::from_str(alloc, "-")?),
    }
}

/// The beginning of the answer to a look at all keys: `map <number of keys>`. The one refusal is OutOfMemory.
pub fn map_answer<A: Allocator + Copy>(alloc: A, number: u64) -> Result<String<A>, Refusal>
    ensures ok { IfOk result (λ text. string_bytes text ≡ codes "map " ++ decimal number) }
    ensures err { IsOkUnless result Refusal.OutOfMemory }
{
    Ok(format!(in alloc; "map {number}")?)
}

/// Appends a key or a field with the number of its values and the values. A refusal may leave a part of it there. Takes time and memory in
/// the values.
/// The one refusal is OutOfMemory.
pub fn push_entry<A: Allocator + Copy>(
    alloc: A,
    out: &mut Vec<u8, A>,
    label: &[u8],
    found: &[Value<A>],
) -> Result<(), Refusal>
    ensures ok { OnOk result (out.new.items ≡ out.old.items ++ entry_text label.now found.now) }
    ensures err { IsOkUnless result Refusal.OutOfMemory }
{
    let number = found.len() as u64;
    let digits: String<A> = format!(in alloc; "{number}")?;
    out.push(b' ')?;
    push_text(alloc, out, label)?;
    out.push(b' ')?;
    out.extend_from_slice(digits.as_bytes())?;
    push_values(alloc, out, found)
}

/// Appends a space and the value for each value. A refusal may leave a part of it there.
fn push_values<A: Allocator + Copy>(
    alloc: A,
    out: &mut Vec<u8, A>,
    found: &[Value<A>],
) -> Result<(), Refusal>
    ensures ok { OnOk result (out.new.items ≡ out.old.items ++ listed_text found.now) }
    ensures err { IsOkUnless result Refusal.OutOfMemory }
{
    for value in found {
        out.push(b' ')?;
        push_text(alloc, out, value.bytes())?;
    }
    Ok(())
}

/// The beginning of the answer to a look at the fields of a key: `fields <number of fields>`. The one refusal is OutOfMemory.
pub fn fields_answer<A: Allocator + Copy>(alloc: A, number: u64) -> Result<String<A>, Refusal>
    ensures ok { IfOk result (λ text. string_bytes text ≡ codes "fields " ++ decimal number) }
    ensures err { IsOkUnless result Refusal.OutOfMemory }
{
    Ok(format!(in alloc; "fields {number}")?)
}

/// The beginning of the answer to a synchronisation that was opened: `session <number> sent`. The one refusal is OutOfMemory.
pub fn session_answer<A: Allocator + Copy>(alloc: A, number: u64) -> Result<String<A>, Refusal>
    ensures ok { IfOk result (λ text. string_bytes text ≡ session_text number) }
    ensures err { IsOkUnless result Refusal.OutOfMemory }
{
    Ok(format!(in alloc; "session {number} sent")?)
}

/// The answer to a look at the known dots: `context`, then a space and each entry of the version vector, then a space, a plus and each dot
/// of the cloud. Takes time and memory in these. The one refusal is OutOfMemory.
pub fn context_answer<A: Allocator + Copy>(
    alloc: A,
    vector: &[(Name, u64)],
    cloud: &[Dot],
) -> Result<Vec<u8, A>, Refusal>
    ensures ok { IfOk result (λ text. text.items ≡ context_text vector.now cloud.now) }
    ensures err { IsOkUnless result Refusal.OutOfMemory }
{
    let mut text = Vec::from_slice(alloc, b"context")?;
    push_vector(alloc, &mut text, vector)?;
    push_cloud(alloc, &mut text, cloud)?;
    Ok(text)
}

/// Appends a space and `<name>:<number>` for each entry of the vector. A refusal may leave a part of it there.
fn push_vector<A: Allocator + Copy>(
    alloc: A,
    out: &mut Vec<u8, A>,
    entries: &[(Name, u64)],
) -> Result<(), Refusal>
    ensures ok { OnOk result (out.new.items ≡ out.old.items ++
        flat_map (λ entry. codes " " ++ dot_text entry.0 entry.1) entries.now) }
    ensures err { IsOkUnless result Refusal.OutOfMemory }
{
    for (name, number) in entries {
        push_dot(alloc, out, b" ", name.number(), *number)?;
    }
    Ok(())
}

/// Appends a space, a plus and `<name>:<number>` for each dot of the cloud. A refusal may leave a part of it there.
fn push_cloud<A: Allocator + Copy>(
    alloc: A,
    out: &mut Vec<u8, A>,
    dots: &[Dot],
) -> Result<(), Refusal>
    ensures ok { OnOk result (out.new.items ≡ out.old.items ++
        flat_map (λ dot. codes " +" ++ dot_text dot.name dot.number) dots.now) }
    ensures err { IsOkUnless result Refusal.OutOfMemory }
{
    for dot in dots {
        push_dot(alloc, out, b" +", dot.name().number(), dot.number())?;
    }
    Ok(())
}

/// Appends the sign and `<name>:<number>`. A refusal may leave a part of it there.
fn push_dot<A: Allocator + Copy>(
    alloc: A,
    out: &mut Vec<u8, A>,
    sign: &[u8],
    name: u64,
    number: u64,
) -> Result<(), Refusal>
    ensures ok { OnOk result (out.new.items ≡ out.old.items ++ (sign.now ++ dot_text name number)) }
    ensures err { IsOkUnless result Refusal.OutOfMemory }
{
    let text: String<A> = format!(in alloc; "{name}:{number}")?;
    out.extend_from_slice(sign)?;
    out.extend_from_slice(text.as_bytes())?;
    Ok(())
}

/// What the refusal of a command is answered: a fault, or a text.
fn refused<A: Allocator + Copy>(alloc: A, refusal: Refusal) -> Result<Reply<A>, Refusal>
    ensures ok { IfOk result (λ reply. answer_of reply ≡ refused_as refusal) }
    ensures faults { IfOk result TellsFaults }
    ensures err { IsOkUnless result Refusal.OutOfMemory }
{
    if is_fault(refusal) {
        return Ok(Reply::Faulted(refusal));
    }
    let mut text = Vec::from_slice(alloc, b"refused ")?;
    text.extend_from_slice(refusal.word().as_bytes())?;
    Ok(Reply::Told(text))
}

/// What a command is answered that came to this: its text, or its refusal. The one refusal is OutOfMemory, which is that of the command too.
pub fn reply_of<A: Allocator + Copy>(
    alloc: A,
    done: Result<Vec<u8, A>, Refusal>,
) -> Result<Reply<A>, Refusal>
    ensures answer { IfOk result (λ reply. (answer_of reply ≡ answered_as done) × (done ≢ Err Refusal.OutOfMemory)) }
    ensures faults { IfOk result TellsFaults }
    ensures err { IsOkUnless result Refusal.OutOfMemory }
{
    match done {
        Ok(text) => Ok(Reply::Told(text)),
        Err(Refusal::OutOfMemory) => Err(Refusal::OutOfMemory),
        Err(refusal) => refused(alloc, refusal),
    }
}
