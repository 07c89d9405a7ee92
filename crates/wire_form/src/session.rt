ghost use Rattle.std.specs.Prelude.{◌≡◌, ◌≢◌, ◌≤◌, ◌↔◌, IsSome, IfSome};
ghost use Rattle.wire_form.specs.Session.{session, IsSession};
ghost use Rattle.wire_form.specs.Reading.{Reads};

use crate::spelled::Spelled;
use dots::{Name, Refusal};
use std::alloc::Allocator;
use std::marker::Model;

/// One replica's request to another: the replica that asks, the replica that answers, and the session's number at the
/// asker, from 1 to 2^64 - 1. Sessions are ordered by asker, then by answerer, then by number.
#[derive(Clone, Copy, Debug, PartialEq, Eq, PartialOrd, Ord, Hash)]
pub struct Session {
    asker: Name,
    answerer: Name,
    number: u64,
}

impl Model for Session {
    ghost use Rattle.std.specs.Prelude.{◌≤◌};
    ghost use Rattle.wire_form.specs.Session.{SessionValue};

    ghost Value = { SessionValue };

    ghost view = { λ s. record { asker = s.asker; answerer = s.answerer; number = s.number } };

    ghost invariant = { λ s. 1 ≤ s.number };

    ghost inverse = { λ s. record { asker = s.asker; answerer = s.answerer; number = s.number } };
}

impl Session {
    /// The session of this asker, answerer and number, or None exactly for the number 0.
    pub fn new(asker: Name, answerer: Name, number: u64) -> Option<Session>
        ensures found { IsSome result ↔ (number ≢ 0) }
        ensures value { IfSome result (λ session. session ≡
            record { asker = asker; answerer = answerer; number = number }) }
    {
        if number == 0 {
            None
        } else {
            Some(Session {
                asker,
                answerer,
                number,
            })
        }
    }

    /// The replica that asks.
    pub fn asker(self) -> Name
        ensures { result ≡ self.asker }
    {
        self.asker
    }

    /// The replica that answers.
    pub fn answerer(self) -> Name
        ensures { result ≡ self.answerer }
    {
        self.answerer
    }

    /// The session's number at its asker, from 1.
    pub fn number(self) -> u64
        ensures value { result ≡ self.number }
        ensures from_one { 1 ≤ result }
    {
        self.number
    }
}

// The session of these numbers, or None where one of them is 0.
fn session_from(asker: u64, answerer: u64, number: u64) -> Option<Session>
    ensures found { IsSome result ↔ ((1 ≤ asker) × (1 ≤ answerer) × (1 ≤ number)) }
    ensures value { IfSome result (λ session. session ≡
        record { asker = asker; answerer = answerer; number = number }) }
{
    Session::new(Name::new(asker)?, Name::new(answerer)?, number)
}

// The session at the front of the bytes, and the rest of them.
pub(crate) fn read_session<A: Allocator + Copy>(
    alloc: A,
    bytes: &[u8],
) -> Result<(Session, &[u8]), Refusal>
    ensures { Reads (λ r. (r.0, r.1.now)) session IsSession bytes.now result }
{
    let (asker, rest) = u64::read(alloc, bytes)?;
    let (answerer, rest) = u64::read(alloc, rest)?;
    let (number, rest) = u64::read(alloc, rest)?;
    match session_from(asker, answerer, number) {
        Some(session) => Ok((session, rest)),
        None => Err(Refusal::NotAMessage),
    }
}
