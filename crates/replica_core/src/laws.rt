// The laws of a replica's sessions and kept snapshots: their turns, and the changes of their lists, are those of the model; what a
// session builds is known to its opening; and what a replica by itself shows.
ghost use Rattle.replica_core.specs.Guarding.{NoneHasLost};
ghost use Rattle.replica_core.specs.Known.{KnownSteps};
ghost use Rattle.replica_core.specs.Showing.{ShowsAlone};
ghost use Rattle.replica_core.specs.Tied.{
  OpeningsAreTied,
  PagesAreTied,
  GonesAreTied,
  RetriesAreTied,
  KeptAreTied,
  KeepingIsTied,
  HellosAreTied,
  AsksAreTied,
  OpensAreFound,
  OpensAreMissed,
  NumbersAreFound,
  NumbersAreMissed,
  AdvancesInPlace,
  ClosesInPlace,
};

use hash_path::PathHash;

/// A session that goes on comes to what the model says, by an opening, by a page, and where it is no longer kept; and what it sends again
/// is what the model sends.
pub fn sessions_turn_as_told<H: PathHash>()
    ensures openings { OpeningsAreTied H }
    ensures pages { PagesAreTied H }
    ensures gones { GonesAreTied H }
    ensures retries { RetriesAreTied H }
{}

/// The snapshots that are kept are found and kept as those of the model, and what hellos and asks are answered off them is what the model
/// answers, where the keys' paths of all of them are by one hash.
pub fn snapshots_answer_as_told<H: PathHash>()
    ensures kept { KeptAreTied H }
    ensures keeping { KeepingIsTied H }
    ensures hellos { HellosAreTied H.hash_of }
    ensures asks { AsksAreTied H.hash_of }
{}

/// A session that is found, by itself or by its number, is the one that the model finds.
pub fn sessions_are_found_as_told<H: PathHash>()
    ensures found { OpensAreFound H }
    ensures missed { OpensAreMissed H }
    ensures numbered { NumbersAreFound H }
    ensures none_numbered { NumbersAreMissed H }
{}

/// A session that goes on or is closed does so at its place alone, where the numbers of all of them are apart, and they stay apart.
pub fn sessions_change_in_place<H: PathHash>()
    ensures advances { AdvancesInPlace H }
    ensures closes { ClosesInPlace H }
{}

/// What a session has built of an opening and of the pages that it took has only dots that the opening knows, once it waits for nothing;
/// until then that is so of what stands under no prefix that it waits for. It is so of pages of any peer, honest or not.
pub fn what_is_built_is_known()
    ensures { KnownSteps }
{}

/// What is read off a replica by itself, to which messages come from anywhere, is told by what it has seen alone: by what it made and by what
/// the messages stand for that it took, where each of these says what it stands for, no dot was used twice by all of them, and no two pages or
/// values that one of its sessions met have one SHA-256. What it ignored, and what did not fit, may have said anything.
pub fn a_replica_alone_shows_what_it_has_seen()
    ensures { ShowsAlone }
{}

/// In a world, where each replica keeps what it did, or comes back from what was saved before it sent, no message knows a write of a replica's
/// name that the replica does not know. So a message that does tells that the name was used without its memory.
pub fn no_message_of_a_world_tells_of_a_lost_memory()
    ensures { NoneHasLost }
{}
