ghost use Rattle.std.specs.Prelude.{◌≡◌, ◌-◌, ◌+◌, length, Some, None, IfOk, IsOkUnless, if◌then◌else◌, nat_lt};
ghost use Rattle.std.specs.List.{slice_get};
ghost use Rattle.std.specs.Option.{option_copied};
ghost use Rattle.hash_path.specs.Fnv1a.{fnv1a};
ghost use Rattle.trace_words.specs.Command.{command_of};
ghost use Rattle.trace_words.specs.Text.{pin_text};
ghost use Rattle.trace_world.specs.Line.{start, Answers, LineComes};
ghost use Rattle.trace_world.specs.Outcome.{Pinned, Comes, LooksAt, at_replica, pin_at};

use crate::pin::Pin;
use crate::reading::look_at;
use crate::teller::Teller;
use dots::{Name, Refusal};
use std::alloc::{Allocator, Global};
use std::marker::Model;
use trace_words::{Command, Reply, parse, pin_answer, reply_of};

/// The machine behind the trace language: one line in, one reply out. It is seen as the events that it holds and the
/// pins that it made.
#[derive(Drop)]
pub struct Machine<A: Allocator + Copy = Global> {
    alloc: A,
    teller: Teller<A>,
    pins: Vec<Pin<A>, A>,
}

impl<A: Allocator + Copy> Model for Machine<A> {
    ghost use Rattle.trace_world.specs.Line.{Past};
    ghost use Rattle.trace_world.specs.Pins.{pins_of, AllPinned};

    ghost Value = { Past };

    ghost view = { λ m. record { held = m.teller; pins = pins_of m.pins.items } };

    ghost invariant = { λ m. AllPinned m.pins.items };
}

impl<A: Allocator + Copy> Machine<A> {
    ghost use Rattle.trace_words.specs.Reply.{answer_of, TellsFaults};
    ghost use Rattle.trace_words.specs.Parsed.{command_value};
    ghost use Rattle.trace_world.specs.Does.{Brings, In};

    /// A machine to which nothing happened yet. Takes no memory.
    pub fn new(alloc: A) -> Machine<A>
        ensures { result ≡ start }
    {
        Machine {
            alloc,
            teller: Teller::new(alloc),
            pins: Vec::new(alloc),
        }
    }

    /// Carries out one line, given without its end. The one refusal is OutOfMemory. Takes what its command takes.
    pub fn carry_out(&mut self, line: &[u8]) -> Result<Reply<A>, Refusal>
        ensures answer { IfOk result (λ reply. Answers self.old line.now (answer_of reply) self.new) }
        ensures faults { IfOk result TellsFaults }
        ensures refusal { IsOkUnless result Refusal.OutOfMemory }
    {
        if line.is_empty() {
            return Ok(Reply::Silent);
        }
        let done = self.attempt(line);
        reply_of(self.alloc, done)
    }

    /// Carries out a line that has a byte: the text that it is answered, or the refusal that it meets.
    fn attempt(&mut self, line: &[u8]) -> Result<Vec<u8, A>, Refusal>
        ensures { Brings (LineComes self.old (command_of line.now)) self.old self.new result }
    {
        // proof: that the events so far lead to a world.
        let _ = self.teller.moment();
        match parse(self.alloc, line)? {
            Some(command) => self.obey(command),
            None => Err(Refusal::BadLine),
        }
    }

    /// Does what the command asks: the text that it is answered, or the refusal that it meets.
    fn obey(&mut self, command: Command<A>) -> Result<Vec<u8, A>, Refusal>
        ensures { Brings (In self.old.held (λ w. Comes fnv1a w self.old.pins (command_value command))) self.old self.new result }
    {
        match command {
            Command::Pin(name) => self.pin(name),
            Command::Look { pin, key } => self.look(pin, key.as_slice()),
            command => self.teller.obey(command),
        }
    }

    fn pin(&mut self, name: Name) -> Result<Vec<u8, A>, Refusal>
        ensures { Brings (In self.old.held (λ w. at_replica w name (λ o. o ≡ Pinned (pin_text (length self.old.pins + 1)) name))) self.old self.new result }
    {
        let store = self.teller.store(name)?;
        let text = match pin_answer(self.alloc, self.pins.len() as u64 + 1) {
            Ok(text) => text,
            Err(refusal) => {
                drop(store);
                return Err(refusal);
            }
        };
        let past = self.teller.moment();
        self.pins.push(Pin { name, past, store })?;
        Ok(text.into_bytes())
    }

    fn look(&self, pin: u64, key: &[u8]) -> Result<Vec<u8, A>, Refusal>
        ensures { Brings (In self.now.held (λ w. LooksAt fnv1a (pin_at self.now.pins pin) key.now)) self.now self.now result }
    {
        match pin_of(&self.pins, pin) {
            Some(pin) => look_at(self.alloc, &pin.store, key),
            None => Err(Refusal::BadLine),
        }
    }
}

/// The pin of this number, from 1.
fn pin_of<A: Allocator + Copy>(pins: &Vec<Pin<A>, A>, number: u64) -> Option<&Pin<A>>
    ensures { option_copied result ≡ (if nat_lt 0 number then slice_get pins.now.items (number - 1) else None) }
{
    pins.get(number.checked_sub(1)? as usize)
}
