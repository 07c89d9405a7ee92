// The law of what a trace is answered.
ghost use Rattle.trace_cli.specs.Laws.{TracesAreGivenOne};

/// A trace is given one text and one fault or none: what `run` writes is decided by what it reads.
pub fn a_trace_is_given_one_text()
    ensures { TracesAreGivenOne }
{}
