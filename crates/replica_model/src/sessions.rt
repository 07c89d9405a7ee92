// The laws of the sessions of a world, over all lists of events.
ghost use Rattle.replica_model.specs.Differing.{SessionsFetch, OpeningsAsk, PagesAsk};
ghost use Rattle.replica_model.specs.Laws.{AsksAreOne, Sessions, Openings, Ends, SnapshotsAreFor, SnapshotsKnowWhatWasAsked, TakesOpenings, TakesPages, TellsPages, OtherPagesMismatch, PagesElsewhereAreIgnored};

/// Each open session of a replica is its own, and was opened by an ask, of a map that stood for its live state then, which is below the
/// live state ever since. Where it accepted an opening, that is of a snapshot that its peer took of what it was when it got the hello,
/// and what is built was fetched from it.
pub fn sessions_are_of_asks_and_snapshots()
    ensures { Sessions }
{}

/// Each opening is that of a snapshot, and carries what its answerer had seen then, which dots it knew, and the root digest of its map.
pub fn openings_are_of_snapshots()
    ensures { Openings }
{}

/// A session that ends adds to its asker just what its answerer had seen when the snapshot was taken; and unless two pages or two values
/// that it met have one SHA-256, whatever other sessions met, it took the page of the snapshot, with just the values that it lacked, at just each
/// prefix where the maps differ, once, and it joins into the asker's live state what that of the answerer was then.
pub fn a_session_that_ends_joins_what_its_peer_had()
    ensures { Ends }
{}

/// Each kept snapshot is what its replica was when it kept it, whatever that wrote since: its map and the dots known with it. It is for a hello
/// of its session that was sent, and the dots that it goes by are those that the asker knew when it asked.
pub fn snapshots_are_for_what_askers_knew()
    ensures { SnapshotsAreFor }
{}

/// A session has one ask. So the snapshot that is kept for an open session goes by just the dots that its asker knew when it asked, and the
/// values that an ask is told are those that its asker wants.
pub fn a_session_has_one_ask()
    ensures asks { AsksAreOne }
    ensures known { SnapshotsKnowWhatWasAsked }
{}

/// Unless two pages or two values that an open session itself met have one SHA-256, whatever other sessions met, it takes what it waits for:
/// an opening of it where it accepted none, which is answered Done where the maps differ nowhere; and at each prefix that it waits for the page of
/// the snapshot that it accepted, with the values that it had not seen, which is answered Done where nothing is waited for after it; and the
/// snapshot has such a page. An ask is told the page of the kept snapshot with the values that the asker had not seen.
pub fn sessions_take_what_they_wait_for()
    ensures openings { TakesOpenings }
    ensures pages { TakesPages }
    ensures told { TellsPages }
{}

/// Any other page at a prefix that an open session waits for, from anywhere, is answered Mismatch, unless two pages or two values that the session
/// itself met, with those of this page, have one SHA-256; and a page at a prefix that none waits for is answered Ignored, whatever clashes. Both leave
/// the replica as it was, and nothing is sent.
pub fn sessions_take_no_other_pages()
    ensures others { OtherPagesMismatch }
    ensures elsewhere { PagesElsewhereAreIgnored }
{}

/// Unless two pages or two values that an open session itself met have one SHA-256: it has taken just pages of the snapshot that it accepted,
/// each once, and waits for just the prefixes where that and its own map differ and all above were taken. Where it takes an opening and goes
/// on it asks for the root, and where it takes a page and goes on, for just the children of the page's prefix where the maps differ, by
/// ascending index.
pub fn sessions_ask_for_what_differs()
    ensures fetched { SessionsFetch }
    ensures openings { OpeningsAsk }
    ensures pages { PagesAsk }
{}
