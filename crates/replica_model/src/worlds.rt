// The laws of worlds of replicas, over all lists of events.
ghost use Rattle.replica_model.specs.Accounts.{AccountsAreTold, LeadsRun, LeadsGoOn};
ghost use Rattle.replica_model.specs.Laws.{EventsAreOne, WorldsAreOne, RefusedDoesNotHappen, RunsGoOn, Sound};
ghost use Rattle.replica_model.specs.Crashing.{CrashesTakeBack};
ghost use Rattle.replica_model.specs.Laws.{EventsLeave, AbsentHaveSeenNothing, StayWithinLimits, HappenOrAreRefused};

/// An event decides its answer and the world after it, and so does a list of events; an event that is refused does not happen; and a list
/// goes on by each event that happens.
pub fn worlds_are_one()
    ensures events { EventsAreOne }
    ensures one { WorldsAreOne }
    ensures refused { RefusedDoesNotHappen }
    ensures goes_on { RunsGoOn }
{}

/// After every list of events, whatever pages and values clash: no dot is used twice, and what each replica has seen, is to send, keeps
/// and accepted, and each message carries, is part of what was made.
pub fn worlds_are_sound()
    ensures { Sound }
{}

/// An event at one replica leaves each other replica, with what it has seen and is to send; to the messages and to the names it only adds. So one
/// that is not there has seen nothing.
pub fn events_leave_all_else()
    ensures leave { EventsLeave }
    ensures absent { AbsentHaveSeenNothing }
{}

/// A replica has at most eight own sessions open and keeps at most eight snapshots. The numbers of its open sessions ascend from 1 on,
/// and none is above that of the last that it opened, which is below 2^64.
pub fn replicas_stay_within_limits()
    ensures { StayWithinLimits }
{}

/// In every world that a list of events leads to, whatever pages and values clash: each event happens or is refused, and none does both.
pub fn each_event_happens_or_is_refused()
    ensures either { HappenOrAreRefused }
    ensures not_both { RefusedDoesNotHappen }
{}

/// Replicas that crash, and come back from what was last saved of them: whatever occurs, and however often, what runs is the world to which
/// what is left leads. So all that holds after every list of events holds of it.
pub fn crashes_take_back()
    ensures { CrashesTakeBack }
{}

/// The account of what happened is that of the world to which it led: the same replicas are there, and each has seen the same.
pub fn accounts_are_told()
    ensures told { AccountsAreTold }
    ensures runs { LeadsRun }
    ensures goes_on { LeadsGoOn }
{}
