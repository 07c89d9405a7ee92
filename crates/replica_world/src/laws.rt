// What replicas of a world show, over all lists of events; and what crashes leave of these.
ghost use Rattle.replica_world.specs.Held.{HeldSurvives};
ghost use Rattle.replica_world.specs.Showing.{WorldsShow};

/// After every list of events, unless two pages or two values that one session met have one SHA-256, what is read off each replica is told
/// by the set of operations that it has seen alone: the values of each field of each key are those of the writes that it has seen and that
/// no operation it has seen had observed, the fields, the keys and their number are where such values stand, the context has just the dots of
/// these operations, and the digest is that of the map of these values.
pub fn replicas_show_what_they_have_seen()
    ensures { WorldsShow }
{}

/// Whatever occurs, and whichever replicas crash, however often: what a world holds is what crashes left.
pub fn what_is_held_survives()
    ensures { HeldSurvives }
{}
