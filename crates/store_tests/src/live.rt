// Tests of the stores that are kept as tries, of the live pairs over them and of a put on these.
mod generations;
mod made;
mod operations;
mod pairs;
mod stores;
