// The refusals, and the number of each. Each stands in one test, which gives it its meaning; a call refuses by the first
// that applies.

ghost use Rattle.std.specs.Prelude.{◌≡◌};
ghost use Rattle.planes.specs.Refusals.{number};

use std::error::Error;
use std::fmt;

// Why a call is refused, by the requirements' numbers.
#[derive(Clone, Copy, Debug, PartialEq, Eq)]
pub enum Refusal {
    // A side is 0 or too long.
    Sides = 1,
    // More pixels than are allowed.
    Pixels = 2,
    // The plane or the frame does not have the length that is needed.
    Length = 3,
    // Marks or queue are too short.
    Room = 4,
    // The interval's lower end is above its upper end.
    Interval = 5,
    // The least area is 0 or too large.
    Area = 6,
    // The plain rule's ratios are out of order or too large.
    Ratios = 7,
    // The limited rule's clip is too large.
    Clip = 8,
    // The last level is too large.
    Level = 9,
    // The header is malformed or ended.
    Header = 10,
    // The header's third number is not 255.
    Maxval = 11,
    // The raster is short.
    Raster = 12,
    // Bytes follow the raster, or the input is too long.
    Trailing = 13,
    // The output is shorter than needed.
    Output = 14,
    // The list's mark or version is unknown.
    Version = 15,
    // The list's count or length is wrong.
    Count = 16,
    // A record stands for no pass.
    Record = 17,
    // The affine rule's segments or slopes are out of range.
    Slopes = 18,
    // The number of neighbours is neither 4 nor 8.
    Neighbours = 19,
    // Version 1 of a list has no place for a pass with eight neighbours.
    NoPlace = 20,
}

impl Refusal {
    // The requirements' number.
    pub fn number(self) -> u8
        ensures { result ≡ number self }
    {
        self as u8
    }
}

impl fmt::Display for Refusal {
    fn fmt<W: fmt::Write>(&self, f: &mut fmt::Formatter<W>) -> fmt::Result {
        write!(f, "refused {}", self.number())
    }
}

impl Error for Refusal {}
