// The laws of the answering end: what it answers is taken by who asked, and what stays of what it keeps.
ghost use Rattle.sync_protocol.specs.Laws.{HellosAreTaken, AsksAreTaken, HashesStay, FewStay, HellosAreKept, RepeatsMoveNothing};

use hash_path::PathHash;

/// The opening that a hello is answered is taken by its asker, where no two of the pages and values of both maps have one SHA-256, and the
/// dots of the snapshot's map are among those that were known with it.
pub fn hellos_are_taken<H: PathHash>()
    ensures { HellosAreTaken H.hash_of }
{}

/// Whatever pages an asker took of a session that is kept: each prefix that it then waits for can be asked for, and the page that
/// is answered is taken.
pub fn asks_are_taken<H: PathHash>()
    ensures { AsksAreTaken H.hash_of }
{}

/// Where the paths of all snapshots and of the store are by one hash, those of all snapshots are after a hello, and of the one
/// that it is told of.
pub fn hashes_stay<H: PathHash>()
    ensures { HashesStay H }
{}

/// There are never more than eight snapshots.
pub fn few_stay<H: PathHash>()
    ensures { FewStay H }
{}

/// The snapshot that a hello is told of is the one that is kept of its session afterwards.
pub fn hellos_are_kept<H: PathHash>()
    ensures { HellosAreKept H }
{}

/// A hello that is repeated moves nothing and is told the same, whatever the replica holds by then.
pub fn repeats_move_nothing<H: PathHash>()
    ensures { RepeatsMoveNothing H }
{}
