// What leads to a text of each trace, and that there is one.
ghost use Rattle.trace_texts.specs.Laws.{CommandsComeTo, IsPast, LinesAreAnswered, TracesAreGiven};
ghost use Rattle.trace_texts.specs.Numbered.{KnownDotsAreNumbered};
ghost use Rattle.trace_texts.specs.Reads.{ReplicasAreRead};
ghost use Rattle.trace_world.specs.Line.{start};

/// After every list of events, whatever pages and values clashed: each dot that a replica knows has a number that a dot can have, from 1 on and below 2^64.
pub fn known_dots_are_numbered()
    ensures { KnownDotsAreNumbered }
{}

/// After every list of events, whatever clashed, each read of a replica comes to an outcome: the values at a place, the fields of a key with theirs, the
/// keys with theirs, how many keys there are, the known dots as a version vector and a cloud, and the root digest.
pub fn each_read_comes_to_an_outcome()
    ensures { ReplicasAreRead }
{}

/// Each command comes to an outcome in every world that a list of events leads to, where the events of each pin led to a world: it is done, it makes a
/// pin, or it is refused.
pub fn each_command_comes_to_an_outcome()
    ensures { CommandsComeTo }
{}

/// The start is a past that what occurred led to. After each such past each line is answered, whatever it says, and the past after it is
/// such a one again.
pub fn each_line_is_answered()
    ensures starts { IsPast start }
    ensures answered { LinesAreAnswered }
{}

/// Each trace is given a text, and one fault or none. By the law that it is given one at most there is just one.
pub fn each_trace_is_given_a_text()
    ensures { TracesAreGiven }
{}
