// What a replica by itself is always, and what can always befall it.
ghost use Rattle.replica_alone.specs.One.{DeedsAreOne, RunsAloneAreOne, RunsAloneGoOn};
ghost use Rattle.replica_alone.specs.Finite.{WithinLimitsAlone, SpelledIsFinite, BefallOrAreRefused, RefusedDoesNotBefall};

/// A deed, a call or a message, decides its answer and what the replica is after it, and so does a list of deeds; and a list goes on by each deed
/// that befalls.
pub fn deeds_of_a_replica_alone_are_one()
    ensures deeds { DeedsAreOne }
    ensures one { RunsAloneAreOne }
    ensures goes_on { RunsAloneGoOn }
{}

/// A replica by itself has at most eight own sessions open and keeps at most eight snapshots, whatever comes to it. The numbers of its open sessions
/// ascend from 1 on, and none is above that of the last that it opened, which is below 2^64.
pub fn replicas_alone_stay_within_limits()
    ensures { WithinLimitsAlone }
{}

/// After deeds whose deltas and openings were finite, whatever they said and whatever pages and values clash: each call befalls the replica or is
/// refused, each message that comes is answered, and no call does both.
pub fn each_deed_befalls_or_is_refused()
    ensures either { BefallOrAreRefused }
    ensures not_both { RefusedDoesNotBefall }
{}

/// Each message that has bytes is finite: its delta shows values at finitely many places and knows finitely many dots, and so does its opening.
pub fn messages_with_bytes_are_finite()
    ensures { SpelledIsFinite }
{}
