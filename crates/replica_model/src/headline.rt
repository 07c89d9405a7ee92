// What replicas hold, over all lists of events: the headline.
ghost use Rattle.replica_model.specs.Answers.{CallsAreTold};
ghost use Rattle.replica_model.specs.Laws.{Headline, SameSeen};

/// After every list of events, unless two pages or two values that one session met have one SHA-256: each replica's live state is that of
/// the set of operations that it has seen, what it is to send is that of what it made since it last sent, and each delta and each opening
/// is that of the set that its message stands for.
pub fn replicas_hold_what_they_have_seen()
    ensures { Headline }
{}

/// And replicas that have seen the same operations hold the same: one state, one map, and one digest at each prefix.
pub fn what_has_seen_the_same_holds_the_same()
    ensures { SameSeen }
{}

/// And calls are answered by what the replica has seen: a put by the dot after the greatest of its name, a remove, of a field or of a key, and
/// a clear by the number of the writes that it observes. A flush sends the delta of what was made since the last one, and nothing where
/// nothing was.
pub fn calls_are_told_by_what_was_seen()
    ensures { CallsAreTold }
{}
