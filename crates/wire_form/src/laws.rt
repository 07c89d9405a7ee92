// The laws of the format: with them the contracts of `encode` and `decode` say that what was encoded is decoded again,
// as what it was.
ghost use Rattle.wire_form.specs.Laws.{OneMessage, OneSpelling, OneDelta};

/// Bytes spell at most one message.
pub fn bytes_spell_one_message()
    ensures { OneMessage }
{}

/// A message has one spelling.
pub fn a_message_has_one_spelling()
    ensures { OneSpelling }
{}

/// Bytes spell at most one delta, so two deltas that the same bytes spell stand for one state.
pub fn bytes_spell_one_delta()
    ensures { OneDelta }
{}
