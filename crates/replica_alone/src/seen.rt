// What a deed adds to what a replica by itself has seen.
ghost use Rattle.replica_alone.specs.Ended.{EndsAddAlone, JoinsAddAlone, OthersAddNothingAlone, CallsAddAlone};

/// A message that ends a session with Done, whatever else came: it is an opening or a page of the session, an opening of the session was taken, this
/// message or one before, and after it the replica has seen just what it had seen before it, and the operations that this opening stands for.
pub fn an_ended_session_of_a_replica_alone_adds_what_was_opened()
    ensures { EndsAddAlone }
{}

/// And no other deed adds anything, but a delta that is joined, which adds the operations that it carries, and a call, which adds those that it makes.
pub fn other_deeds_of_a_replica_alone_add_what_they_bring()
    ensures joined { JoinsAddAlone }
    ensures others { OthersAddNothingAlone }
    ensures calls { CallsAddAlone }
{}
