// The laws of a synchronisation by pages between two replicas, by the sets of operations that they have seen.
ghost use Rattle.sync_model.specs.Sets.{Done, FetchGoesOn, Opens};

/// A session that ends adds just what its peer had seen when it opened: what the asker has built, joined into the state of all that
/// it has seen by then, is the state of that with what its peer had seen.
pub fn a_session_that_ends_adds_what_its_peer_had_seen()
    ensures { Done }
{}

/// A session opens: the peer's opening is taken.
pub fn a_session_opens()
    ensures { Opens }
{}

/// And it goes on: the peer can tell each page that is waited for, by the map that it had when it opened, with the values that the
/// asker had not seen, and the page is taken.
pub fn a_session_goes_on()
    ensures { FetchGoesOn }
{}
