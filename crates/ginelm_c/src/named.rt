ghost use Rattle.std.specs.Prelude.{◌≡◌};
ghost use Rattle.ginelm_c.specs.Sending.{named};

use wire_form::Session;

/// A synchronisation by the names of the replica that asks and of the one that answers, and by its number at the one that asks; three times
/// 0 for none.
#[repr(C)]
#[derive(Clone, Copy, Debug, PartialEq, Eq)]
pub struct Named {
    /// The name of the replica that asks.
    pub asker: u64,
    /// The name of the replica that answers.
    pub answerer: u64,
    /// The number, from 1.
    pub number: u64,
}

impl Named {
    // The names of this synchronisation, or none.
    pub(crate) fn of(session: Option<Session>) -> Named
        ensures { result ≡ named session }
    {
        match session {
            Some(session) => Named {
                asker: session.asker().number(),
                answerer: session.answerer().number(),
                number: session.number(),
            },
            None => Named {
                asker: 0,
                answerer: 0,
                number: 0,
            },
        }
    }
}
