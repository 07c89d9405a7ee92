/// An event of a history: a call at the place of a client.
pub trait Placed {
    ghost use Rattle.std.specs.Prelude.{ℕ};

    // The place.
    ghost place: { Self → ℕ };
}
