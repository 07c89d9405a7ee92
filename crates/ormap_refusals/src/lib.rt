// Calls that are refused memory: each is made with no memory at all, with a little, and with a little more, until it is made. Each time that
// it is refused, all has to be as it was; and in the end it has to answer what it answers where memory is ample. Beside them, what a replica
// keeps in a small heap.
#![tactic(auto)]

#[cfg(test)]
mod made;
#[cfg(test)]
mod nodes;
#[cfg(test)]
mod tests;
#[cfg(test)]
mod trial;
