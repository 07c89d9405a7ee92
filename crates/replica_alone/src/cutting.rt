// A replica by itself that sends what waits in parts.
ghost use Rattle.replica_alone.specs.Cutting.{CutsAreFlushes};

/// A replica that sends the oldest of the deltas that wait, and keeps the others, is as one that had flushed when the last of these was made, and whose
/// message went out later: deeds that are the same but for the flushes lead to the same replica, by which it sent the same messages. So what holds of
/// a replica by itself over all lists of deeds holds of it.
pub fn cuts_are_flushes_that_came_earlier()
    ensures { CutsAreFlushes }
{}
