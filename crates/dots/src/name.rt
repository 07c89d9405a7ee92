ghost use Rattle.std.specs.Prelude.{◌≡◌, ◌≢◌, ◌<◌, ◌≤◌, ◌↔◌, IsSome, IfSome};

use std::fmt;
use std::marker::Model;

/// A replica's name, a number from 1 to 2^64 - 1.
#[derive(Clone, Copy, Debug, PartialEq, Eq, PartialOrd, Ord, Hash)]
pub struct Name {
    number: u64,
}

impl Model for Name {
    ghost use Rattle.std.specs.Prelude.{ℕ, ◌≤◌};

    ghost Value = { ℕ };

    ghost view = { λ n. n.number };

    ghost invariant = { λ n. 1 ≤ n.number };

    ghost inverse = { λ n. record { number = n } };
}

impl Name {
    /// The name with this number, or None exactly for 0.
    pub fn new(number: u64) -> Option<Name>
        ensures found { IsSome result ↔ (number ≢ 0) }
        ensures value { IfSome result (λ name. name ≡ number) }
    {
        if number == 0 {
            None
        } else {
            Some(Name { number })
        }
    }

    /// The name's number, from 1.
    pub fn number(self) -> u64
        ensures value { result ≡ self }
        ensures from_one { 1 ≤ result }
    {
        self.number
    }
}

/// Its number, in decimal digits.
impl fmt::Display for Name {
    ghost use Rattle.std.specs.Prelude.{Some};
    ghost use Rattle.std.specs.Fmt.{decimal};

    ghost output = { λ name. Some (decimal name) };

    fn fmt<W: fmt::Write>(&self, f: &mut fmt::Formatter<W>) -> fmt::Result {
        let number = self.number();
        write!(f, "{number}")
    }
}
