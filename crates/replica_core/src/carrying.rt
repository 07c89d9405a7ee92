// What a replica sends and takes in by bytes, and its open synchronisations.
ghost use Rattle.std.specs.Prelude.{◌≡◌, ◌⊎◌, [], ◌∷◌, map, IfOk, IfErr, OnErr, IsOkUnless};
ghost use Rattle.std.specs.List.Sorted.{IsStrictlySortedBy};
ghost use Rattle.std.specs.Ordering.{nat_cmp};
ghost use Rattle.wire_form.specs.Message.{MessageValue, Spells, SpellsNone, message_of, session_of};
ghost use Rattle.replica_model.specs.Mail.{mail_of};
ghost use Rattle.replica_model.specs.Step.{Do, Ask, Flush, Retry, Take, Came, Nothing, Numbered};
ghost use Rattle.replica_core.specs.Answered.{outcome_of};
ghost use Rattle.replica_core.specs.Carrying.{Sends, letter_of, letter_or_none, letters_of};
ghost use Rattle.replica_core.specs.Meaning.{meaning};
ghost use Rattle.replica_core.specs.Stepping.{Stays, IsRefused};

use crate::letter::Letter;
use crate::letters::Letters;
use crate::outcome::Outcome;
use crate::replica::Replica;
use crate::sessions::named_sessions;
use crate::taken::Taken;
use dots::{Name, Refusal};
use hash_path::PathHash;
use std::alloc::Allocator;
use sync_protocol::Outbox;
use wire_form::{Message, Session, decode};

impl<H: PathHash, A: Allocator + Copy> Replica<H, A> {
    /// The delta of all that it made since the last flush, as a letter to everyone, or None where it made nothing. The letter is spelled
    /// before anything counts as sent.
    ///
    /// Its only refusal is OutOfMemory; a refused call changes nothing. Takes what `flush` takes, and time and memory in the bytes; of one
    /// write alone it copies nothing but these.
    pub fn flush_bytes(&mut self) -> Result<Option<Letter<A>>, Refusal>
        ensures ok { IfOk result (λ sent. Sends H.hash_of self.old self.new (Do Flush) Nothing (letter_or_none sent)) }
        ensures refused { IsOkUnless result Refusal.OutOfMemory }
        ensures unchanged { OnErr result (Stays self.old self.new) }
    {
        let Some(only) = self.group.only() else {
            return self.flush_joined();
        };
        let letter = Letter::of_delta(self.alloc, only)?;
        self.group.clear();
        Ok(Some(letter))
    }

    // The same of any group, whose deltas are joined first.
    fn flush_joined(&mut self) -> Result<Option<Letter<A>>, Refusal>
        ensures ok { IfOk result (λ sent. Sends H.hash_of self.old self.new (Do Flush) Nothing (letter_or_none sent)) }
        ensures refused { IsOkUnless result Refusal.OutOfMemory }
        ensures unchanged { OnErr result (Stays self.old self.new) }
    {
        let mut letters = Letters::new(self.alloc);
        match self.flush_to(&mut letters) {
            Ok(sent) => {
                drop(sent);
                Ok(letters.into_only())
            }
            Err(refusal) => {
                drop(letters);
                Err(refusal)
            }
        }
    }

    /// Opens a synchronisation with a peer, as `ask` does: its number, and its hello as a letter to that peer, which is spelled before the
    /// synchronisation is open.
    ///
    /// Its refusals are those of `ask`; a refused call changes nothing. Takes what `ask` takes, and time and memory in the bytes.
    pub fn ask_bytes(&mut self, peer: Name) -> Result<(u64, Letter<A>), Refusal>
        ensures ok { IfOk result (λ asked. Sends H.hash_of self.old self.new (Do (Ask peer)) (Numbered asked.0) (letter_of asked.1 ∷ [])) }
        ensures refused { IfErr result (IsRefused self.old (Ask peer)) }
        ensures unchanged { OnErr result (Stays self.old self.new) }
    {
        let mut letters = Letters::new(self.alloc);
        match self.ask_to(peer, &mut letters) {
            Ok((number, hello)) => {
                drop(hello);
                match letters.into_only() {
                    Some(letter) => Ok((number, letter)),
                    None => unreachable!(),
                }
            }
            Err(refusal) => {
                drop(letters);
                Err(refusal)
            }
        }
    }

    /// What is to be sent again for the own synchronisation of this number, as letters to its peer: Sent, or Ignored where none of this
    /// number is open.
    ///
    /// Its only refusal is OutOfMemory. Takes what `retry` takes, and time and memory in the bytes.
    pub fn retry_bytes(&self, number: u64) -> Result<(Outcome, Vec<Letter<A>, A>), Refusal>
        ensures ok { IfOk result (λ sent. Sends H.hash_of self.now self.now (Do (Retry number)) (Came (outcome_of sent.0)) (letters_of sent.1.items)) }
        ensures refused { IsOkUnless result Refusal.OutOfMemory }
    {
        let told = self.retry(number)?;
        let mut letters = Letters::new(self.alloc);
        let posted = letters.post_all(self.alloc, told.replies.as_slice());
        let outcome = told.outcome;
        drop(told);
        match posted {
            Ok(()) => Ok((outcome, letters.into_letters())),
            Err(refusal) => {
                drop(letters);
                Err(refusal)
            }
        }
    }

    /// Takes a message in by its bytes, as `deliver` does, and tells what came of it, the synchronisation that it named, and the letters that
    /// are to be sent for it, which are spelled before anything changes.
    ///
    /// Its refusals are NotAMessage, only where the bytes spell no message, and OutOfMemory; a refused call changes nothing. Takes what
    /// `deliver` takes, and time and memory in the bytes that come and go.
    pub fn take_bytes(&mut self, bytes: &[u8]) -> Result<Taken<A>, Refusal>
        ensures ok { IfOk result (λ taken. (message : MessageValue) × Spells bytes.now message × (taken.session ≡ session_of message)
            × Sends H.hash_of self.old self.new (Take (mail_of message)) (Came (outcome_of taken.outcome)) (letters_of taken.letters.items)) }
        ensures refused { IfErr result (λ refusal. (refusal ≡ Refusal.OutOfMemory) ⊎ ((refusal ≡ Refusal.NotAMessage) × SpellsNone bytes.now)) }
        ensures unchanged { OnErr result (Stays self.old self.new) }
    {
        let message = decode(self.alloc, bytes)?;
        self.take(message)
    }

    /// Takes a message over that is decoded, as `take_bytes` does: for who looks at it first, as `has_lost` does.
    ///
    /// Its only refusal is OutOfMemory; a refused call changes nothing. Takes what `deliver` takes, and time and memory in the bytes that go.
    pub fn take(&mut self, message: Message<A>) -> Result<Taken<A>, Refusal>
        ensures session { IfOk result (λ taken. taken.session ≡ session_of (message_of message)) }
        ensures ok { IfOk result (λ taken. Sends H.hash_of self.old self.new (Take (mail_of (message_of message))) (Came (outcome_of taken.outcome)) (letters_of taken.letters.items)) }
        ensures refused { IsOkUnless result Refusal.OutOfMemory }
        ensures unchanged { OnErr result (Stays self.old self.new) }
    {
        match message {
            Message::Delta(delta) => {
                self.take_over(delta)?;
                Ok(Taken::joined(self.alloc))
            }
            message => {
                let taken = self.take_sent(&message);
                drop(message);
                taken
            }
        }
    }

    // Takes a message in of any kind.
    fn take_sent(&mut self, message: &Message<A>) -> Result<Taken<A>, Refusal>
        ensures session { IfOk result (λ taken. taken.session ≡ session_of (message_of message.now)) }
        ensures ok { IfOk result (λ taken. Sends H.hash_of self.old self.new (Take (mail_of (message_of message.now))) (Came (outcome_of taken.outcome)) (letters_of taken.letters.items)) }
        ensures refused { IsOkUnless result Refusal.OutOfMemory }
        ensures unchanged { OnErr result (Stays self.old self.new) }
    {
        let mut letters = Letters::new(self.alloc);
        match self.deliver_to(message, &mut letters) {
            Ok(told) => {
                let outcome = told.outcome;
                drop(told);
                Ok(Taken {
                    outcome,
                    session: message.session(),
                    letters: letters.into_letters(),
                })
            }
            Err(refusal) => {
                drop(letters);
                Err(refusal)
            }
        }
    }

    /// The own synchronisations that are open, at most eight, by number: each has its peer as its answerer.
    ///
    /// Its only refusal is OutOfMemory. Takes time and memory in their number.
    pub fn sessions(&self) -> Result<Vec<Session, A>, Refusal>
        ensures ok { IfOk result (λ found. found.items ≡ map (λ o. o.session) (meaning self.now).sessions) }
        ensures ordered { IfOk result (λ found. IsStrictlySortedBy nat_cmp (map (λ s. s.number) found.items)) }
        ensures refused { IsOkUnless result Refusal.OutOfMemory }
    {
        named_sessions(self.alloc, &self.sessions)
    }
}
