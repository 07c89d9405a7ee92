ghost use Rattle.std.specs.Prelude.{◌≡◌};
ghost use Rattle.dots.specs.Dot.{DotValue};
ghost use Rattle.causal_context.specs.Growth.{IsGrowthAmong, both};

use dots::Dot;

/// Which dots of another context a context does not have.
#[derive(Clone, Copy, Debug, PartialEq, Eq)]
pub enum Growth {
    /// It has each.
    Nothing,
    /// It has all but this one.
    One(Dot),
    /// It lacks one at least, and more may be.
    More,
}

impl Growth {
    // What is lacking of the dots of either.
    pub(crate) fn and(self, other: Growth) -> Growth
        ensures { result ≡ both self other }
    {
        match (self, other) {
            (Growth::Nothing, growth) | (growth, Growth::Nothing) => growth,
            _ => Growth::More,
        }
    }
}
