// The laws of the representation.
ghost use Rattle.causal_context.specs.Canonical.{EqualSetsAreOne};
ghost use Rattle.causal_context.specs.Equal.{EqualityIsThatOfSets};

/// Equal sets of dots have equal representation.
pub fn equal_sets_are_one()
    ensures { EqualSetsAreOne }
{}

/// What `==` answers at two contexts is whether they have the same dots.
pub fn equality_is_that_of_sets()
    ensures { EqualityIsThatOfSets }
{}
