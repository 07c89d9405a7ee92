// The laws of the sessions of a replica by itself, to which messages come from anywhere.
ghost use Rattle.replica_model.specs.SessionsAlone.{SessionsAlone, OneAskAlone, OneOpeningAlone, EndsAlone};

/// Whatever calls, messages and other sessions come, and whatever these messages are: each open session of a replica was opened by an ask
/// of its own, of a map that stood for its live state then, which is below the live state ever since. Where it took an opening, what is
/// built was fetched under that; and for each map that has the root digest of that opening, unless two pages or two values that the session
/// itself met have one SHA-256, it took just pages of that map, and waits for just the prefixes where the maps differ.
pub fn sessions_of_a_replica_alone_are_of_asks()
    ensures { SessionsAlone }
{}

/// And such a session has one ask and takes one opening, of one snapshot, so these are the ask and the opening of the session.
pub fn a_session_of_a_replica_alone_has_one_opening()
    ensures ask { OneAskAlone }
    ensures opening { OneOpeningAlone }
{}

/// And a message that ends a session is an opening or a page of one that is open. For each map that has the root digest of the opening that
/// this session took, unless two pages or two values that it met itself have one SHA-256: it took a page at just each prefix where the maps
/// differ, once; and where each key of that map holds some field, and each field once and some value, it joins the map, under the dots that
/// the opening knows, into the live state as it was just before.
pub fn a_session_of_a_replica_alone_joins_what_its_opening_shows()
    ensures { EndsAlone }
{}
