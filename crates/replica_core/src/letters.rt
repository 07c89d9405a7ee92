ghost use Rattle.std.specs.Prelude.{◌≡◌, ◌≤◌, [], length};
ghost use Rattle.replica_core.specs.Carrying.{letter_or_none, letters_of};

use crate::letter::Letter;
use dots::Refusal;
use std::alloc::{Allocator, Global};
use std::marker::Model;
use sync_protocol::Outbox;
use wire_form::Message;

// An outbox of letters: what is posted is spelled at once.
#[derive(Drop)]
pub(crate) struct Letters<A: Allocator + Copy = Global> {
    letters: Vec<Letter<A>, A>,
}

impl<A: Allocator + Copy> Model for Letters<A> {
    ghost use Rattle.std.specs.Prelude.{ℕ, List, Option};
    ghost use Rattle.replica_core.specs.Carrying.{letters_of};

    ghost Value = { List (Option ℕ × List ℕ) };

    ghost view = { λ l. letters_of l.letters.items };
}

impl<A: Allocator + Copy> Outbox<A> for Letters<A> {
    ghost use Rattle.replica_core.specs.Carrying.{Gains};

    ghost gains = { Gains };

    fn post(&mut self, alloc: A, message: &Message<A>) -> Result<(), Refusal> {
        let letter = Letter::of(alloc, message)?;
        self.letters.push(letter)?;
        Ok(())
    }

    fn post_all(&mut self, alloc: A, messages: &[Message<A>]) -> Result<(), Refusal> {
        let mut spelled = Letter::of_all(alloc, messages)?;
        self.letters.append(&mut spelled)?;
        Ok(())
    }
}

impl<A: Allocator + Copy> Letters<A> {
    // No letter.
    pub fn new(alloc: A) -> Letters<A>
        ensures { result ≡ [] }
    {
        Letters {
            letters: Vec::new(alloc),
        }
    }

    // The letters, in the order in which they were posted.
    pub fn into_letters(self) -> Vec<Letter<A>, A>
        ensures { letters_of result.items ≡ self }
    {
        self.letters
    }

    // The letter, where at most one was posted.
    pub fn into_only(self) -> Option<Letter<A>>
        requires { length self ≤ 1 }
        ensures { letter_or_none result ≡ self }
    {
        let mut letters = self.letters;
        letters.pop()
    }
}
