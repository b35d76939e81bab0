// Numbers for callers in C: results as one signed number, what is told besides in lent numbers, and the refusals that
// come before those of a call.
//
// refused                          a refusal k as -k
// status_number, written_number    the results of intensity and recolouring, and of writing
// counts_refusal                   14 where fewer than two numbers are lent for both counts
// put_counts                       both counts in two lent numbers, or the refusal
// put_header                       width, height and offset in three lent numbers, or the refusal
#![tactic(auto)]

ghost use Rattle.std.specs.Prelude.{◌≡◌, ◌≤◌, IfOk, length};
ghost use Rattle.planes.specs.Refusals.{number_in};
ghost use Rattle.netpbm.specs.Reading.{answer_of};
ghost use Rattle.cnumbers.specs.Numbers.{encoded, status_number, answer_number, counts_after, counts_refusal};
ghost use Rattle.cnumbers.specs.Numbers.{written_number, Short, read_number, numbers_after};

use model::Counts;
use netpbm::Header;
use planes::Refusal;

// A refusal as a number, by its own; 0 for none.
pub fn refused(k: u8) -> i64
    ensures { result ≡ encoded k 0 }
{
    -i64::from(k)
}

// The result of intensity or recolouring as a number.
pub fn status_number(status: Result<(), Refusal>) -> i64
    ensures { result ≡ status_number status }
{
    match status {
        Ok(()) => 0,
        Err(refusal) => refused(refusal.number()),
    }
}

// The result of writing as a number.
pub fn written_number(written: Result<usize, Refusal>) -> i64
    requires { Short written }
    ensures { result ≡ written_number written }
{
    match written {
        Ok(size) => size as i64,
        Err(refusal) => refused(refusal.number()),
    }
}

// How many numbers both counts are.
pub const COUNTS: usize = 2;

// 14 where fewer numbers are lent than both counts are.
#[tactic(auto, using(planes::proofs::Refusals::by_test))]
pub fn counts_refusal(lent: usize) -> Result<(), Refusal>
    ensures { number_in result ≡ counts_refusal lent }
{
    if lent < COUNTS {
        return Err(Refusal::Output);
    }
    Ok(())
}

// The result of a pass, a list or an enhancement: both counts are stored and 0 is answered, or the refusal is.
#[tactic(auto, using(crate::proofs::Numbers::stored))]
pub fn put_counts(numbers: &mut [usize], answer: Result<Counts, Refusal>) -> i64
    requires { IfOk answer (λ counts. 2 ≤ length numbers.old) }
    ensures { (result ≡ answer_number answer)
        × (numbers.new ≡ counts_after answer numbers.old) }
{
    match answer {
        Ok(counts) => {
            numbers[0] = counts.retoned as usize;
            numbers[1] = counts.kept as usize;
            0
        }
        Err(refusal) => refused(refusal.number()),
    }
}

// The result of reading: the numbers of the frame are stored and 0 is answered, or the refusal is, or 14.
#[tactic(auto, using(crate::proofs::Numbers::stored))]
pub fn put_header(numbers: &mut [usize], header: Result<Header, Refusal>) -> i64
    ensures { (result ≡ read_number (answer_of header) (length numbers.old))
        × (numbers.new ≡ numbers_after (answer_of header) numbers.old) }
{
    match header {
        Ok(Header { w, h, offset }) => {
            if numbers.len() < 3 {
                return refused(Refusal::Output.number());
            }
            numbers[0] = w;
            numbers[1] = h;
            numbers[2] = offset;
            0
        }
        Err(refusal) => refused(refusal.number()),
    }
}
