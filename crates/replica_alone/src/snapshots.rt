// The snapshots that a replica by itself keeps.
ghost use Rattle.replica_alone.specs.Kept.{SnapshotsAreForAlone, OpeningsAreAlone, TellsPagesAlone};

/// Each snapshot that a replica by itself keeps is what the replica was when it kept it, whatever it wrote since: its map, the dots known with it,
/// and what had been seen. It was kept at a hello of its session that came, and goes by the dots that this hello told. Each opening that the replica
/// sent is that of such a snapshot, with the dots known with it and the root digest of its map. An ask is told the page of the kept snapshot with the
/// values that are not under the dots that its hello told.
pub fn snapshots_of_a_replica_alone_are_what_it_was()
    ensures kept { SnapshotsAreForAlone }
    ensures opened { OpeningsAreAlone }
    ensures told { TellsPagesAlone }
{}
