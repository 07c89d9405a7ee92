// The laws of the format: with them the contracts of `encode_saved` and `decode_saved` say that what was encoded is decoded again, as what it
// was, and that it is no message.
ghost use Rattle.saved_form.specs.Saved.{OneSave, OneSpelling, NoMessage};

/// Bytes say one thing at most that was saved.
pub fn bytes_spell_one_save()
    ensures one { OneSave }
    ensures no_message { NoMessage }
{}

/// What was saved has one spelling.
pub fn what_was_saved_has_one_spelling()
    ensures { OneSpelling }
{}
