use crate::placed::Placed;
use root_cell::Brand;

/// What an object of one thread is that clients share, with its roots and the events of its histories.
pub trait Object: Brand<Self::Root, Self::Event> {
    ghost use Rattle.std.specs.Prelude.{List};

    /// The object itself.
    type State: Drop;

    /// What is published of it.
    type Root: Drop;

    /// An event of its histories.
    type Event: Placed;

    // The object is as this history leaves it.
    ghost after: { Self.State → List Self.Event → Type 0 };
}
