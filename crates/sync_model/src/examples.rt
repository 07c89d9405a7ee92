//! A worked example, by computation on the definitions, with something wrong that is refused.

ghost use Rattle.std.specs.Prelude.{◌≡◌, ◌≢◌, false, Some, None};
ghost use Rattle.sync_model.specs.Opened.{opened_at};
ghost use Rattle.sync_model.specs.Examples.{seen, own, theirs, ended, opened};

/// What the asker had seen end is left out, what it had not seen is taken, and what it holds stays where its peer holds it too.
pub fn what_was_seen_to_end_is_left_out()
    ensures left_out { opened_at seen (Some own) (Some theirs) ≡ Some opened }
    ensures not_taken_back { opened_at seen (Some own) (Some theirs) ≢ Some theirs }
    ensures nothing_left { opened_at seen (Some own) (Some ended) ≡ None }
    ensures not_kept { opened_at seen (Some own) (Some ended) ≢ Some own }
    ensures gone { opened_at seen (Some own) None ≡ None }
    ensures new { opened_at (λ _. false) None (Some theirs) ≡ Some theirs }
{}
