// The laws of a synchronisation by pages, between an asker and a peer.
ghost use Rattle.std.specs.Prelude.{ℕ, List, Bool};
ghost use Rattle.dots.specs.Dot.{DotValue};
ghost use Rattle.sync_model.specs.Differ.{Held};
ghost use Rattle.sync_model.specs.Laws.{Fetching, Fitting, Opening};
ghost use Rattle.sync_model.specs.Closing.{Closing};

/// An asker that took an opening of a peer and then pages, where no two of the pages and values met have one SHA-256: each page is
/// the peer's, with just the values that the asker lacked; it waits for just the prefixes where the maps differ and all above
/// which were taken; and once it waits for none it has built just what is to be opened, and has taken each page where the maps
/// differ once, and no other.
pub fn pages_are_fetched()
    ensures { (hash_of : List ℕ → ℕ) (own theirs : Held) (seen opened : DotValue → Bool) → Fetching hash_of own theirs seen opened }
{}

/// The opening of a peer is taken, where it knows the dots of the peer's map.
pub fn openings_fit()
    ensures { (hash_of : List ℕ → ℕ) (own theirs : Held) (seen opened : DotValue → Bool) → Opening hash_of own theirs seen opened }
{}

/// And so is, at each prefix that is waited for, the peer's page with the values that the asker lacked.
pub fn pages_fit()
    ensures { (hash_of : List ℕ → ℕ) (own theirs : Held) (seen opened : DotValue → Bool) → Fitting hash_of own theirs seen opened }
{}

/// Where the asker's own map is below a live pair, what was built joined into that pair, under what the opening knows, is what the
/// peer had when it opened joined in.
pub fn what_was_built_is_what_the_peer_had()
    ensures { Closing }
{}
