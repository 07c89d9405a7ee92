// Tests of the path hashes, the trie, its snapshots and runs of them, and its digests and pages.
mod made;
mod many;
mod mapped;
mod maps;
mod pages;
mod paths;
mod runs;
mod written;
