// Stored test cases: reading them from standard input, making the call that each one describes, and printing the line
// that answers it. The format of the cases and of the lines is described at the head of reference/src/cases.rs.
//
// run_cases   answers all cases on standard input
//
// A call is made as any other program makes it: through the public functions of the crates, with parts of buffers that
// have exactly the lengths that the case names. (Where there is less room, a part has what there is, and the line shows
// it.) The run ends with the input. What is read and printed is tested and not proved.
#![tactic(auto)]

mod calls;
mod records;

use caseparts::head::{Case, HEAD, Kind};
use caseparts::parts;
use std::io;
use std::io::{Read, Write};

// Room for a case's bytes and for its plane.
const BYTES: usize = 16416;

const PLANE: usize = 288;

// How many cases are answered at most: no measure falls where an input never ends.
const CASES: usize = 100000;

// Makes the call of a case. Other kinds of cases are not run here; their line is empty.
fn answer<W: Write>(out: &mut W, case: Case, bytes: &[u8], plane: &mut [u8]) -> io::Result<()> {
    match case.kind {
        Some(Kind::Intensity) => calls::intensity(out, case, bytes, plane),
        Some(Kind::Pass) => calls::pass(out, case, plane),
        Some(Kind::Recolour) => calls::recolour(out, case, bytes, plane),
        Some(Kind::Enhance) => calls::enhance(out, case, bytes, plane),
        Some(Kind::List) => calls::list(out, case, bytes, plane),
        Some(Kind::Passes) => calls::passes(out, case, bytes, plane),
        Some(Kind::Read) => calls::read(out, case, bytes),
        Some(Kind::Write) => calls::write(out, case, bytes),
        Some(Kind::House) => calls::house(out, case, bytes, plane),
        Some(Kind::Convert) => calls::convert(out, case, bytes),
        Some(Kind::Program) | None => writeln!(out),
    }
}

// Reads the bytes and the plane of a case and answers it. The length of its plane, which is the one that the case
// before has left, if the case has none of its own.
fn answer_next<R: Read, W: Write>(
    input: &mut R,
    out: &mut W,
    case: Case,
    plane: &mut [u8],
    left: usize,
) -> io::Result<usize> {
    let mut room = [0u8; BYTES];
    let bytes = parts::front(&mut room, case.bytes);
    inputs::read_full(input, bytes);
    inputs::read_full(input, parts::front(plane, case.plane));
    let length = if case.is_same { left } else { case.plane };
    answer(out, case, bytes, parts::front(plane, length))?;
    Ok(length)
}

// Reads the head of a case and answers the case. The length of the plane that it leaves, or none where there was no
// further case.
fn next<R: Read, W: Write>(
    input: &mut R,
    out: &mut W,
    plane: &mut [u8],
    left: usize,
) -> io::Result<Option<usize>> {
    let mut head = [0u8; HEAD];
    if inputs::read_full(input, &mut head) < HEAD {
        return Ok(None);
    }
    let length = answer_next(input, out, Case::from(&head), plane, left)?;
    Ok(Some(length))
}

// Answers all cases of the input.
fn answer_all<R: Read, W: Write>(input: &mut R, out: &mut W) -> io::Result<()> {
    let mut plane = [0u8; PLANE];
    let mut left = 0;
    for _ in 0..CASES {
        let Some(length) = next(input, out, &mut plane, left)? else {
            break;
        };
        left = length;
    }
    Ok(())
}

// Answers all cases on standard input.
pub fn run_cases(rt: &(impl Input + Print)) -> io::Result<()> {
    answer_all(&mut rt.reader(), &mut io::writer(rt))
}
