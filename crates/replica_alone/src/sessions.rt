// What the sessions of a replica by itself ask for and take.
ghost use Rattle.replica_alone.specs.Asking.{OpeningsAskAlone, PagesAskAlone};
ghost use Rattle.replica_alone.specs.Taking.{TakesOpeningsAlone, TakesPagesAlone, OtherPagesMismatchAlone};

/// A session of a replica by itself that takes an opening and goes on asks for the root. One that takes a page and goes on sends asks alone. For each map
/// with the root digest of the opening that it took, these are for just the children of the page's prefix where that map and its own one differ, by
/// ascending index, unless two pages or two values of the two maps and of what it took have one SHA-256.
pub fn sessions_of_a_replica_alone_ask_for_what_differs()
    ensures openings { OpeningsAskAlone }
    ensures pages { PagesAskAlone }
{}

/// An open session takes what it waits for, whatever other sessions met and whatever was forged. Where it accepted no opening it takes each one that knows
/// the dots of some map and has its root digest, which is answered Done where that map and its own one differ nowhere. Where it accepted one, each map
/// with its root digest, whose dots it knows, and which has the own value at each dot that both have at one place, has a page at each prefix that is
/// waited for; it takes this, with the values that it had not seen, which is answered Done where nothing is waited for after it. Each is so unless two
/// pages or two values of the two maps and of what it took have one SHA-256.
pub fn sessions_of_a_replica_alone_take_what_they_wait_for()
    ensures openings { TakesOpeningsAlone }
    ensures pages { TakesPagesAlone }
{}

/// For each map with the root digest of the opening that an open session accepted: any page but that map's, at a prefix that is waited for, is answered
/// Mismatch and leaves all as it is, unless two pages or two values of the two maps and of what it took, this page among it, have one SHA-256.
pub fn sessions_of_a_replica_alone_take_no_other_pages()
    ensures { OtherPagesMismatchAlone }
{}
