// The laws of a store: what it keeps is what a system of replicas that crash has saved.
ghost use Rattle.replica_store.specs.Rebuilt.{OneReplica};
ghost use Rattle.replica_store.specs.Systems.{AllAreSaved, AllComeBack, CrashesComeBack, EventsAreSaved, EventsComeBack, WritesAreSaved};

/// Strings come to one replica at most, whatever their order, and however often one stands there.
pub fn strings_come_to_one_replica()
    ensures { OneReplica }
{}

/// A write that was acknowledged has occurred, and is saved, in the words of the law of crashes.
pub fn writes_are_saved()
    ensures { WritesAreSaved }
{}

/// What comes back after a crash in the middle of a write is the replica before it, or after it, as the law of crashes has it.
pub fn crashes_come_back()
    ensures { CrashesComeBack }
{}

/// What was acknowledged of any event of a replica, as an ask or a delivery, has occurred, and is saved.
pub fn events_are_saved()
    ensures { EventsAreSaved }
{}

/// What comes back after a crash in the middle of an event is the replica before it, or after it.
pub fn events_come_back()
    ensures { EventsComeBack }
{}

/// Several writes that were acknowledged at once have occurred, and are saved.
pub fn all_are_saved()
    ensures { AllAreSaved }
{}

/// What comes back after a crash in the middle of several writes is the replica without any of them, or with all.
pub fn all_come_back()
    ensures { AllComeBack }
{}
