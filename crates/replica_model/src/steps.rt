// The laws of the step of one replica, and of its histories.
ghost use Rattle.replica_model.specs.Alone.{HeadlineAlone, HistoriesAreSeen};
ghost use Rattle.replica_model.specs.Laws.{StepsAreOne, RefusedMakesNone, SessionsStay, SnapshotsStay, OldestAreDropped};
ghost use Rattle.replica_model.specs.History.{HistoriesAreOne, AfterIsOne, HistoryGoesOn};

/// A step decides the new replica, the answer and what is sent.
pub fn steps_are_one()
    ensures one { StepsAreOne }
    ensures refused { RefusedMakesNone }
{}

/// The replica after a history is one, and so are the answers; and a history goes on by each step.
pub fn histories_are_one()
    ensures answered { HistoriesAreOne }
    ensures after { AfterIsOne }
    ensures goes_on { HistoryGoesOn }
{}

/// A step leaves each open session as it is but the one that it is of: its own map, what it had seen, the opening that it accepted and what it
/// fetched. And it changes no kept snapshot: each that is kept afterwards was kept before, or is that of the hello that it took in. All that it can
/// do to one is to drop it, where it is the oldest of eight and a ninth is kept.
pub fn steps_leave_other_sessions()
    ensures sessions { SessionsStay }
    ensures snapshots { SnapshotsStay }
    ensures dropped { OldestAreDropped }
{}

/// A replica by itself, to which messages come from anywhere. Whatever the messages of a history are said to stand for, there is what it has
/// seen by that. Where each message says what it stands for, no dot was used twice by these and by what the replica made, and no two pages or
/// values that one of its sessions met have one SHA-256, its live state is that of what it has seen, what it is to send is that of what it
/// made since it last sent, and each delta and each opening that it sent is that of the set that it stands for.
pub fn a_replica_alone_holds_what_it_has_seen()
    ensures seen { HistoriesAreSeen }
    ensures holds { HeadlineAlone }
{}
