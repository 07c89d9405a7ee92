// Tests of the plain values, the contexts, the dot stores and the causal pairs, of the tries and the live pairs, through public calls
// alone. They stand in a crate of their own, so that a check of them proves none of those crates a second time; and in one, as
// each crate of tests has the code of all that it calls put together, and the drops of its types proved, once more.
#![tactic(auto)]

#[cfg(test)]
mod contexts;
#[cfg(test)]
mod forms;
#[cfg(test)]
mod live;
#[cfg(test)]
mod made;
#[cfg(test)]
mod pairs;
#[cfg(test)]
mod stores;
#[cfg(test)]
mod tries;
#[cfg(test)]
mod values;
