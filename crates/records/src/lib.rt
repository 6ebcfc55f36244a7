// Recorded answers as the gate's programs read them: words of a file, and a tally of what differs.
#![tactic(auto)]

// Words of a record.
pub mod words;
// Counting, and what is printed.
pub mod tally;
// Large arrays.
pub mod rooms;
