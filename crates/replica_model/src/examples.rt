// Worked examples, by computation on the definitions, each with something wrong that is refused. They pin what the definitions mean.
ghost use Rattle.std.specs.Prelude.{◌≡◌, ◌≢◌, ◌∷◌, [], length};
ghost use Rattle.op_model.specs.Examples.{a, x, y};
ghost use Rattle.op_model.specs.Place.{plain};
ghost use Rattle.op_model.specs.Shown.{values};
ghost use Rattle.replica_model.specs.Seen.{account};
ghost use Rattle.replica_model.specs.Examples.{one_put, one_delta, delivered, two_messages, asked, synchronised};

/// What is delivered has been seen, and what is not has not.
pub fn a_delivery_is_seen()
    ensures made { values ((account one_delta one_put).seen 1) (plain a) ≡ x ∷ [] }
    ensures not_yet { values ((account one_delta one_put).seen 2) (plain a) ≡ [] }
    ensures then { values ((account one_delta delivered).seen 2) (plain a) ≡ x ∷ [] }
    ensures flushed { (account one_delta delivered).unsent 1 ≡ [] }
    ensures not_before { (account one_delta one_put).unsent 1 ≢ [] }
{}

/// A synchronisation that ends adds what its peer had seen when it opened, and not what it wrote since.
pub fn a_synchronisation_adds_what_was_seen()
    ensures peer { values ((account two_messages synchronised).seen 1) (plain a) ≡ y ∷ [] }
    ensures not_yet { values ((account two_messages asked).seen 2) (plain a) ≡ [] }
    ensures then { values ((account two_messages synchronised).seen 2) (plain a) ≡ x ∷ [] }
    ensures not_since { values ((account two_messages synchronised).seen 2) (plain a) ≢ y ∷ [] }
    ensures ended { length (account two_messages synchronised).met ≡ 1 }
{}
