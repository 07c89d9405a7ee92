// Laws of the histories of a node.
ghost use Rattle.node_threads.specs.Twice.{DotsDiffer, NumbersDiffer};

/// In one history no dot is made twice, and no own synchronisation is opened under a number that was used.
pub fn no_dot_and_no_number_comes_twice()
    ensures dots { DotsDiffer }
    ensures numbers { NumbersDiffer }
{}
