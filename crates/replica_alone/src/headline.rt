// What a replica by itself holds, whatever it is told besides.
ghost use Rattle.replica_alone.specs.Said.{HeadlineTakenAlone, SameSeenAlone};

/// A replica by itself, to which forged messages come besides. Where each message that was taken, by a join, by a session that went on or by one
/// that ended with all, says what it stands for, no dot was used twice, nor observed by its own write, by the deltas and openings among these and by
/// what the replica made, and no two pages or values that one of its sessions met have one SHA-256: its live state is that of what it has seen, what
/// it is to send is that of what it made since it last sent, and each delta and each opening that it sent is that of the set that it stands for.
/// What it ignored, and what did not fit, may have said anything.
pub fn what_a_replica_alone_does_not_take_may_say_anything()
    ensures { HeadlineTakenAlone }
{}

/// And replicas by themselves that hold what they have seen hold the same where they have seen the same: one state, one map, and one digest at each prefix.
pub fn replicas_alone_that_have_seen_the_same_hold_the_same()
    ensures { SameSeenAlone }
{}
