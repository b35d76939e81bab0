// The parts of a line, as they are printed.
use model::Counts;
use netpbm::Header;
use planes::Refusal;
use std::fmt;

// What a call comes to where it is accepted, as numbers with a space between them.
pub trait Numbers {
    fn print<W: fmt::Write>(&self, f: &mut fmt::Formatter<W>) -> fmt::Result;
}

// Of intensity and recolouring, 0.
impl Numbers for () {
    fn print<W: fmt::Write>(&self, f: &mut fmt::Formatter<W>) -> fmt::Result {
        write!(f, "0")
    }
}

// Of writing and converting, the length.
impl Numbers for usize {
    fn print<W: fmt::Write>(&self, f: &mut fmt::Formatter<W>) -> fmt::Result {
        write!(f, "{self}")
    }
}

// Of a pass, a list or an enhancement, how many components were retoned, and how many kept back.
impl Numbers for Counts {
    fn print<W: fmt::Write>(&self, f: &mut fmt::Formatter<W>) -> fmt::Result {
        write!(f, "{} {}", self.retoned, self.kept)
    }
}

// Of reading, the sides of a frame, and the place of its raster.
impl Numbers for Header {
    fn print<W: fmt::Write>(&self, f: &mut fmt::Formatter<W>) -> fmt::Result {
        write!(f, "{} {} {}", self.w, self.h, self.offset)
    }
}

// What a call answers: its numbers after a plus sign, or its refusal's number after a minus sign.
#[derive(Clone, Copy, Debug, PartialEq, Eq)]
pub struct Answer<T>(pub Result<T, Refusal>);

impl<T: Numbers> fmt::Display for Answer<T> {
    fn fmt<W: fmt::Write>(&self, f: &mut fmt::Formatter<W>) -> fmt::Result {
        match &self.0 {
            Ok(done) => {
                write!(f, "+")?;
                done.print(f)
            }
            Err(refusal) => write!(f, "-{}", refusal.number()),
        }
    }
}

// Bytes in hexadecimal digits.
#[derive(Clone, Copy, Debug, PartialEq, Eq)]
pub struct Hex<'a>(pub &'a [u8]);

impl fmt::Display for Hex<'_> {
    fn fmt<W: fmt::Write>(&self, f: &mut fmt::Formatter<W>) -> fmt::Result {
        for byte in self.0 {
            write!(f, "{byte:02x}")?;
        }
        Ok(())
    }
}
