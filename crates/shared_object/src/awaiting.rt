// What the code never comes to though no clause says that it cannot: there it waits for good, as no answer would be right.
ghost use Rattle.std.specs.Prelude.{◌≡◌, Some, true};

use std::sync::Wait;
use std::thread;

/// The value. Where there is none it waits for good.
pub(crate) fn awaited<X, T: Wait>(rt: &T, value: Option<X>) -> X
    ensures { value ≡ Some result }
{
    if let Some(value) = value {
        return value;
    }
    for _ in rt.forever() {
        thread::yield_now();
    }
    unreachable!()
}

/// Goes on where this holds. Else it waits for good.
pub(crate) fn go_on_where<T: Wait>(rt: &T, holds: bool)
    ensures { holds ≡ true }
{
    if holds {
        return;
    }
    for _ in rt.forever() {
        thread::yield_now();
    }
    unreachable!()
}
