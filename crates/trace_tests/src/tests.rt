//! What no clause says: the worked traces with their exact text, the order of reads and writes, and failures in mid-stream; what random
//! events of a world come to; and what of a replica stands behind no call of other languages.

mod changes;
mod copies;
mod faults;
mod made;
mod refused;
mod rows;
mod sealing;
mod storm;
mod turns;
mod watched;
