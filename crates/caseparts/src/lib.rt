// Stored test cases: their heads, the memory that a case lends, and the parts of the line that answers it. The format
// of the cases and of the lines is described at the head of reference/src/cases.rs. What is printed is tested and not
// proved.
//
// head      Case, what a head says: the call, of a Kind, and what it is made with
// numbers   short_at and long_at, numbers in bytes, low byte first
// memory    lent, a call to which marks and queue are lent
// parts     front, the first elements of a buffer
// lines     Answer and Hex, what a call answers and bytes, as they are printed
#![tactic(auto)]

pub mod head;
pub mod lines;
pub mod memory;
pub mod numbers;
pub mod parts;
