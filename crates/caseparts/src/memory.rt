// Working memory: what it is before a call, and what of it a call has changed against the rules.
ghost use Rattle.std.specs.Prelude.{◌≤◌, length};

use crate::head::Case;
use crate::parts;
use model::Counts;
use planes::Refusal;
use std::array;

// The room for marks and for the queue.
const MEMORY: usize = 320;

// Entry i of marks before a call.
fn mark_at(i: usize) -> u8 {
    ((i % 256) as u8).wrapping_add(1)
}

// Entry i of the queue before a call.
fn queued_at(i: usize) -> u32 {
    3 * (i % 65536) as u32 + 5
}

// How many entries from index `from` on are not as before a call.
fn strays<T: Copy + PartialEq, F: Fn(usize) -> T>(entries: &[T], from: usize, before: F) -> usize
    requires { F.IsAlwaysCallable before }
    ensures { result ≤ length entries.now }
{
    (from..entries.len())
        .filter(|i| entries[*i] != before(*i))
        .count()
}

// The marks and the queue of a call.
#[derive(Drop)]
struct Memory {
    marks: [u8; MEMORY],
    queue: [u32; MEMORY],
}

impl Memory {
    // As they are before a call.
    fn new() -> Self {
        Self {
            marks: array::from_fn(mark_at),
            queue: array::from_fn(queued_at),
        }
    }
}

// What a call on a plane answers to which the marks and the queue of the case are lent too, and how many of the lent
// entries had to stay and did not: after acceptance those from the plane's length on, after refusal all of them.
pub fn lent<F: FnOnce(&mut [u8], &mut [u8], &mut [u32]) -> Result<Counts, Refusal>>(
    case: Case,
    plane: &mut [u8],
    call: F,
) -> (Result<Counts, Refusal>, usize)
    requires { F.IsAlwaysCallable call }
{
    let mut memory = Memory::new();
    let marks = parts::front(&mut memory.marks, case.marks);
    let queue = parts::front(&mut memory.queue, case.queue);
    let answer = call(plane, marks, queue);
    let from = answer.map_or(0, |_| plane.len());
    let count = strays(marks, from, mark_at) + strays(queue, from, queued_at);
    (answer, count)
}
