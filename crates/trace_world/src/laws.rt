// Laws of what a line is answered.
ghost use Rattle.trace_world.specs.Laws.{AnswersAreOne, LooksAreSeen, ReadsAreSeen, WritesAreSeen};

/// After given lines before it, a line has one answer.
pub fn a_line_has_one_answer()
    ensures { AnswersAreOne }
{}

/// What `get`, `getf`, `fields`, `show`, `size`, `context` and `digest` are answered is told by the set of operations that the replica has
/// seen alone, after every list of events, unless two pages or two values that one session met have one SHA-256; and what `look` is answered,
/// by what the replica of the pin had seen when it was made.
pub fn reads_tell_what_was_seen()
    ensures reads { ReadsAreSeen }
    ensures looks { LooksAreSeen }
{}

/// And what `put`, `putf`, `remove`, `removef`, `clear` and `flush` are answered where they are not refused, under the same premise: the dot after
/// the greatest that the replica has seen of its name, the number of the writes that it observes, and whether there is something to send, by what it
/// made since it last sent.
pub fn writes_are_told_by_what_was_seen()
    ensures { WritesAreSeen }
{}
