ghost use Rattle.std.specs.Prelude.{◌≡◌, ◌≢◌, ◌≤◌, ◌↔◌, IsSome, IfSome};

use crate::name::Name;
use std::fmt;
use std::marker::Model;

/// One write of one replica: the replica's name, and the write's number there, from 1 to 2^64 - 1.
/// Dots are ordered by name, then by number. After Almeida, Shoker and Baquero, "Delta State Replicated Data
/// Types" (2018).
#[derive(Clone, Copy, Debug, PartialEq, Eq, PartialOrd, Ord, Hash)]
pub struct Dot {
    name: Name,
    number: u64,
}

impl Model for Dot {
    ghost use Rattle.std.specs.Prelude.{◌≤◌};
    ghost use Rattle.dots.specs.Dot.{DotValue};

    ghost Value = { DotValue };

    ghost view = { λ d. record { name = d.name; number = d.number } };

    ghost invariant = { λ d. 1 ≤ d.number };

    ghost inverse = { λ d. record { name = d.name; number = d.number } };
}

impl Dot {
    /// The dot of this name and number, or None exactly for the number 0.
    pub fn new(name: Name, number: u64) -> Option<Dot>
        ensures found { IsSome result ↔ (number ≢ 0) }
        ensures value { IfSome result (λ dot. dot ≡ record { name = name; number = number }) }
    {
        if number == 0 {
            None
        } else {
            Some(Dot { name, number })
        }
    }

    /// The name of the replica that wrote.
    pub fn name(self) -> Name
        ensures { result ≡ self.name }
    {
        self.name
    }

    /// The number of the write at its replica, from 1.
    pub fn number(self) -> u64
        ensures value { result ≡ self.number }
        ensures from_one { 1 ≤ result }
    {
        self.number
    }
}

/// Its name, a colon and its number, as `2:17`.
impl fmt::Display for Dot {
    ghost use Rattle.std.specs.Prelude.{Some};
    ghost use Rattle.dots.specs.Printed.{dot_text};

    ghost output = { λ dot. Some (dot_text dot) };

    fn fmt<W: fmt::Write>(&self, f: &mut fmt::Formatter<W>) -> fmt::Result {
        let (name, number) = (self.name().number(), self.number());
        write!(f, "{name}:{number}")
    }
}
