// A replica that is kept in a file: each call is on the disk before it is answered. Where no memory is left to spell what is to be sent for one
// that is kept already, that is lost as messages may be.
use crate::fault::Fault;
use crate::keeper::Keeper;
use ginelm::{
    Delivered, Letter, Message, Name, Outcome, Refusal, Replica, Session, Taken, Write, Wrote,
    decode,
};
use replica_store::{Store, Written};
use sqlite::Alter;
use std::alloc::Global;

// What came of a message that named this synchronisation, or none.
fn taken(alloc: Global, session: Option<Session>, told: Delivered) -> Result<Taken, Fault> {
    let outcome = told.outcome;
    let letters = Letter::of_all(alloc, told.replies.as_slice());
    drop(told);
    Ok(Taken {
        outcome,
        session,
        letters: letters?,
    })
}

// The hello of a synchronisation, with its number.
fn opened(alloc: Global, number: u64, hello: Message) -> Result<(u64, Letter), Fault> {
    let letter = Letter::of(alloc, &hello);
    drop(hello);
    Ok((number, letter?))
}

// Whether a delivery ended a synchronisation.
fn is_gone(told: Delivered) -> bool {
    let outcome = told.outcome;
    drop(told);
    outcome == Outcome::Gone
}

// The own synchronisation of this number, if it is open.
fn open_session(replica: &Replica, number: u64) -> Result<Option<Session>, Refusal> {
    for session in &replica.sessions()? {
        if session.number() == number {
            return Ok(Some(*session));
        }
    }
    Ok(None)
}

impl<S: Alter> Keeper for Store<S> {
    fn replica(&self) -> &Replica {
        self.replica()
    }

    fn has_failed(&self) -> bool {
        self.is_failed()
    }

    fn make(&mut self, alloc: Global, write: &Write<'_>) -> Result<Written<Wrote>, Fault> {
        Ok(self.write(alloc, write)?)
    }

    fn make_all(
        &mut self,
        alloc: Global,
        writes: &[Write<'_>],
    ) -> Result<Written<Vec<Wrote>>, Fault> {
        Ok(self.write_all(alloc, writes)?)
    }

    // Each write is told as it is made.
    fn unsent(&mut self, _most: Option<u64>) -> Result<Option<Letter>, Fault> {
        Ok(None)
    }

    fn synchronise(&mut self, alloc: Global, peer: Name) -> Result<(u64, Letter), Fault> {
        let (number, hello) = self.ask(alloc, peer)?;
        opened(alloc, number, hello)
    }

    fn receive(&mut self, alloc: Global, bytes: &[u8]) -> Result<Taken, Fault> {
        let message = decode(alloc, bytes)?;
        let session = message.session();
        let told = self.deliver(alloc, &message);
        drop(message);
        taken(alloc, session, told?)
    }

    // It is ended by the message that its peer sends where it keeps no map for it, of which nothing has to be kept.
    fn give_up(&mut self, alloc: Global, number: u64) -> Result<bool, Fault> {
        let Some(session) = open_session(self.replica(), number)? else {
            return Ok(false);
        };
        let gone = Message::gone(session);
        let told = self.deliver(alloc, &gone);
        drop(gone);
        Ok(is_gone(told?))
    }

    fn tidy(&mut self, alloc: Global) -> Result<(), Fault> {
        Ok(self.compact(alloc)?)
    }
}
