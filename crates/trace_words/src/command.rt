ghost use Rattle.std.specs.Prelude.{◌≡◌, [], IfOk, IsOkUnless};
ghost use Rattle.std.specs.Option.{option_map};
ghost use Rattle.trace_words.specs.Command.{command_of, one_word_command, two_word_command, three_word_command, four_word_command, session_command, crash_command};
ghost use Rattle.trace_words.specs.Command.{with_text, with_texts, with_three_texts, with_numbers, Get, Put, Deliver, Sync, Retry, Abandon, Remove, RemoveField, Fields, Look};
ghost use Rattle.trace_words.specs.Parsed.{command_value};

use crate::word::{name, number, text, words};
use dots::{Name, Refusal};
use std::alloc::{Allocator, Global};

/// A line of a trace that is a command.
#[derive(Drop)]
pub enum Command<A: Allocator = Global> {
    /// A new replica.
    Node(Name),
    /// A value put at a field of a key, all three in bytes of any length.
    Put {
        name: Name,
        key: Vec<u8, A>,
        field: Vec<u8, A>,
        value: Vec<u8, A>,
    },
    /// The values at a field of a key.
    Get {
        name: Name,
        key: Vec<u8, A>,
        field: Vec<u8, A>,
    },
    /// What the replica made since it last sent, as a message.
    Flush(Name),
    /// A message, delivered to a replica.
    Deliver {
        message: u64,
        name: Name,
    },
    /// A synchronisation, opened by the replica of this name with its peer.
    Sync {
        name: Name,
        peer: Name,
    },
    /// What is to be sent again for the replica's own synchronisation of this number.
    Retry {
        name: Name,
        session: u64,
    },
    /// The replica's own synchronisation of this number, given up.
    Abandon {
        name: Name,
        session: u64,
    },
    /// What a key shows at any of its fields, removed.
    Remove {
        name: Name,
        key: Vec<u8, A>,
    },
    /// What a field of a key shows, removed.
    RemoveField {
        name: Name,
        key: Vec<u8, A>,
        field: Vec<u8, A>,
    },
    /// All that is shown, removed.
    Clear(Name),
    /// The fields of a key with their values.
    Fields {
        name: Name,
        key: Vec<u8, A>,
    },
    /// All keys with their values.
    Show(Name),
    /// The number of keys.
    Size(Name),
    /// The known dots.
    Context(Name),
    /// The map as it is, kept under the next pin's number.
    Pin(Name),
    /// The root digest of the map.
    Digest(Name),
    /// The replica, saved.
    Save(Name),
    /// The replica lost, and back from what was last saved of it.
    Crash(Name),
    /// The values of a key in a map that was kept.
    Look {
        pin: u64,
        key: Vec<u8, A>,
    },
}

/// The command that a line is, or None where it is none. Takes time and memory in the line. The one refusal is
/// OutOfMemory.
pub fn parse<A: Allocator + Copy>(alloc: A, line: &[u8]) -> Result<Option<Command<A>>, Refusal>
    ensures ok { IfOk result (λ found. option_map command_value found ≡ command_of line.now) }
    ensures err { IsOkUnless result Refusal.OutOfMemory }
{
    let words = words(alloc, line)?;
    match words.as_slice() {
        [verb, first] => Ok(with_one_word(verb, first)),
        [verb, first, second] => with_two_words(alloc, verb, first, second),
        [verb, first, second, third] => with_three_words(alloc, verb, first, second, third),
        [verb, first, second, third, fourth] => {
            with_four_words(alloc, verb, first, second, third, fourth)
        }
        _ => Ok(None),
    }
}

fn with_one_word<A: Allocator + Copy>(verb: &[u8], first: &[u8]) -> Option<Command<A>>
    ensures { option_map command_value result ≡ one_word_command verb.now first.now }
{
    let replica = name(first)?;
    if verb == b"node".as_slice() {
        return Some(Command::Node(replica));
    }
    if verb == b"flush".as_slice() {
        return Some(Command::Flush(replica));
    }
    if verb == b"clear".as_slice() {
        return Some(Command::Clear(replica));
    }
    if verb == b"show".as_slice() {
        return Some(Command::Show(replica));
    }
    if verb == b"size".as_slice() {
        return Some(Command::Size(replica));
    }
    if verb == b"context".as_slice() {
        return Some(Command::Context(replica));
    }
    if verb == b"pin".as_slice() {
        return Some(Command::Pin(replica));
    }
    if verb == b"digest".as_slice() {
        return Some(Command::Digest(replica));
    }
    of_a_crash(verb, first)
}

fn of_a_crash<A: Allocator>(verb: &[u8], first: &[u8]) -> Option<Command<A>>
    ensures { option_map command_value result ≡ crash_command verb.now first.now }
{
    let replica = name(first)?;
    if verb == b"save".as_slice() {
        return Some(Command::Save(replica));
    }
    if verb == b"crash".as_slice() {
        return Some(Command::Crash(replica));
    }
    None
}

fn with_two_words<A: Allocator + Copy>(
    alloc: A,
    verb: &[u8],
    first: &[u8],
    second: &[u8],
) -> Result<Option<Command<A>>, Refusal>
    ensures ok { IfOk result (λ found. option_map command_value found ≡ two_word_command verb.now first.now second.now) }
    ensures err { IsOkUnless result Refusal.OutOfMemory }
{
    if verb == b"get".as_slice() {
        return Ok(get_plain(alloc, name(first), text(alloc, second)?));
    }
    if verb == b"remove".as_slice() {
        return Ok(remove(name(first), text(alloc, second)?));
    }
    if verb == b"deliver".as_slice() {
        return Ok(deliver(number(first), name(second)));
    }
    if verb == b"look".as_slice() {
        return Ok(look(number(first), text(alloc, second)?));
    }
    if verb == b"fields".as_slice() {
        return Ok(fields(name(first), text(alloc, second)?));
    }
    Ok(of_a_session(verb, first, second))
}

fn of_a_session<A: Allocator>(verb: &[u8], first: &[u8], second: &[u8]) -> Option<Command<A>>
    ensures { option_map command_value result ≡ session_command verb.now first.now second.now }
{
    if verb == b"sync".as_slice() {
        return sync(name(first), name(second));
    }
    if verb == b"retry".as_slice() {
        return retry(name(first), number(second));
    }
    if verb == b"abandon".as_slice() {
        return abandon(name(first), number(second));
    }
    None
}

fn with_three_words<A: Allocator + Copy>(
    alloc: A,
    verb: &[u8],
    first: &[u8],
    second: &[u8],
    third: &[u8],
) -> Result<Option<Command<A>>, Refusal>
    ensures ok { IfOk result (λ found. option_map command_value found ≡ three_word_command verb.now first.now second.now third.now) }
    ensures err { IsOkUnless result Refusal.OutOfMemory }
{
    if verb == b"put".as_slice() {
        let (key, value) = (text(alloc, second)?, text(alloc, third)?);
        return Ok(put_plain(alloc, name(first), key, value));
    }
    if verb == b"getf".as_slice() {
        return Ok(get(name(first), text(alloc, second)?, text(alloc, third)?));
    }
    if verb == b"removef".as_slice() {
        let (key, field) = (text(alloc, second)?, text(alloc, third)?);
        return Ok(remove_field(name(first), key, field));
    }
    Ok(None)
}

fn with_four_words<A: Allocator + Copy>(
    alloc: A,
    verb: &[u8],
    first: &[u8],
    second: &[u8],
    third: &[u8],
    fourth: &[u8],
) -> Result<Option<Command<A>>, Refusal>
    ensures ok { IfOk result (λ found. option_map command_value found ≡
        four_word_command verb.now first.now second.now third.now fourth.now) }
    ensures err { IsOkUnless result Refusal.OutOfMemory }
{
    if verb == b"putf".as_slice() {
        let (key, field) = (text(alloc, second)?, text(alloc, third)?);
        return Ok(put(name(first), key, field, text(alloc, fourth)?));
    }
    Ok(None)
}

fn get_plain<A: Allocator>(
    alloc: A,
    name: Option<Name>,
    key: Option<Vec<u8, A>>,
) -> Option<Command<A>>
    ensures { option_map command_value result ≡
        with_text (λ name key. Get name key []) name (option_map (λ bytes. bytes.items) key) }
{
    Some(Command::Get {
        name: name?,
        key: key?,
        field: Vec::new(alloc),
    })
}

fn get<A: Allocator>(
    name: Option<Name>,
    key: Option<Vec<u8, A>>,
    field: Option<Vec<u8, A>>,
) -> Option<Command<A>>
    ensures { option_map command_value result ≡
        with_texts Get name (option_map (λ bytes. bytes.items) key) (option_map (λ bytes. bytes.items) field) }
{
    Some(Command::Get {
        name: name?,
        key: key?,
        field: field?,
    })
}

fn fields<A: Allocator>(name: Option<Name>, key: Option<Vec<u8, A>>) -> Option<Command<A>>
    ensures { option_map command_value result ≡ with_text Fields name (option_map (λ bytes. bytes.items) key) }
{
    Some(Command::Fields {
        name: name?,
        key: key?,
    })
}

fn remove_field<A: Allocator>(
    name: Option<Name>,
    key: Option<Vec<u8, A>>,
    field: Option<Vec<u8, A>>,
) -> Option<Command<A>>
    ensures { option_map command_value result ≡
        with_texts RemoveField name (option_map (λ bytes. bytes.items) key) (option_map (λ bytes. bytes.items) field) }
{
    Some(Command::RemoveField {
        name: name?,
        key: key?,
        field: field?,
    })
}

fn remove<A: Allocator>(name: Option<Name>, key: Option<Vec<u8, A>>) -> Option<Command<A>>
    ensures { option_map command_value result ≡ with_text Remove name (option_map (λ bytes. bytes.items) key) }
{
    Some(Command::Remove {
        name: name?,
        key: key?,
    })
}

fn deliver<A: Allocator>(message: Option<u64>, name: Option<Name>) -> Option<Command<A>>
    ensures { option_map command_value result ≡ with_numbers Deliver message name }
{
    Some(Command::Deliver {
        message: message?,
        name: name?,
    })
}

fn sync<A: Allocator>(name: Option<Name>, peer: Option<Name>) -> Option<Command<A>>
    ensures { option_map command_value result ≡ with_numbers Sync name peer }
{
    Some(Command::Sync {
        name: name?,
        peer: peer?,
    })
}

fn retry<A: Allocator>(name: Option<Name>, session: Option<u64>) -> Option<Command<A>>
    ensures { option_map command_value result ≡ with_numbers Retry name session }
{
    Some(Command::Retry {
        name: name?,
        session: session?,
    })
}

fn abandon<A: Allocator>(name: Option<Name>, session: Option<u64>) -> Option<Command<A>>
    ensures { option_map command_value result ≡ with_numbers Abandon name session }
{
    Some(Command::Abandon {
        name: name?,
        session: session?,
    })
}

fn look<A: Allocator>(pin: Option<u64>, key: Option<Vec<u8, A>>) -> Option<Command<A>>
    ensures { option_map command_value result ≡ with_text Look pin (option_map (λ bytes. bytes.items) key) }
{
    Some(Command::Look {
        pin: pin?,
        key: key?,
    })
}

fn put_plain<A: Allocator>(
    alloc: A,
    name: Option<Name>,
    key: Option<Vec<u8, A>>,
    value: Option<Vec<u8, A>>,
) -> Option<Command<A>>
    ensures { option_map command_value result ≡ with_texts (λ name key value. Put name key [] value) name
        (option_map (λ bytes. bytes.items) key) (option_map (λ bytes. bytes.items) value) }
{
    Some(Command::Put {
        name: name?,
        key: key?,
        field: Vec::new(alloc),
        value: value?,
    })
}

fn put<A: Allocator>(
    name: Option<Name>,
    key: Option<Vec<u8, A>>,
    field: Option<Vec<u8, A>>,
    value: Option<Vec<u8, A>>,
) -> Option<Command<A>>
    ensures { option_map command_value result ≡ with_three_texts Put name (option_map (λ bytes. bytes.items) key)
        (option_map (λ bytes. bytes.items) field) (option_map (λ bytes. bytes.items) value) }
{
    Some(Command::Put {
        name: name?,
        key: key?,
        field: field?,
        value: value?,
    })
}
