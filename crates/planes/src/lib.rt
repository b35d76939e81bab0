// Planes: their shape, the limits of their sides and pixels, the tests of what is lent for them, and what every other
// crate cites of pixels, neighbours and components.
//
// Shape            the columns and rows of a plane, and its number of pixels
// side_refusal     1: a side is 0 or too long
// pixel_refusal    2: more pixels than are allowed
// length_refusal   3: a plane or a frame does not have the length that is needed
// room_refusal     4: marks or queue are too short
// output_refusal   14: the output is too short
// size_refusal     1, 2 for w columns and h rows
// shape_refusal    1, 2 for a shape
// lent_refusal     1, 2, 3, 4 for a plane with marks and a queue
//
// Each test that applies is an error, by the refusal of its number.
#![tactic(auto)]

ghost use Rattle.std.specs.Prelude.{◌≡◌, ◌^◌, ◌<◌};
ghost use Rattle.planes.specs.Refusals.{side_refusal, pixel_refusal, length_refusal, room_refusal, output_refusal};
ghost use Rattle.planes.specs.Refusals.{number_in, bad_side, size_refusal};
ghost use Rattle.planes.specs.Shapes.{shape_of, pixels, shape_refusal, lent_refusal};

mod refusal;

pub use refusal::Refusal;

// The greatest side of a plane.
pub const SIDE: usize = 4096;

// The greatest number of pixels of a plane.
pub const PIXELS: usize = 1048576;

// The numbers of neighbours by which components are taken: of the four, and of the eight, among which pixels that touch
// at a corner only are.
pub const FOUR: u8 = 4;

pub const EIGHT: u8 = 8;

// A plane of w columns and h rows.
#[derive(Clone, Copy, Debug, PartialEq, Eq)]
pub struct Shape {
    pub w: usize,
    pub h: usize,
}

impl Shape {
    pub fn new(w: usize, h: usize) -> Self
        ensures { result ≡ shape_of w h }
    {
        Self { w, h }
    }

    // The number of pixels.
    pub fn pixels(self) -> usize
        requires { pixels self < 2 ^ 64 }
        ensures { result ≡ pixels self }
    {
        self.w * self.h
    }
}

// Whether a side is 0 or too long.
fn is_bad_side(x: usize) -> bool
    ensures { result ≡ bad_side x }
{
    x == 0 || SIDE < x
}

// Refused where a side is 0 or too long.
#[tactic(auto, using(crate::proofs::Refusals::by_test), unfolding(crate::specs::Refusals::side_refusal))]
pub fn side_refusal(w: usize, h: usize) -> Result<(), Refusal>
    ensures { number_in result ≡ side_refusal w h }
{
    if is_bad_side(w) || is_bad_side(h) {
        return Err(Refusal::Sides);
    }
    Ok(())
}

// Refused where n pixels are more than `limit`.
#[tactic(auto, using(crate::proofs::Refusals::by_test), unfolding(crate::specs::Refusals::pixel_refusal))]
pub fn pixel_refusal(n: usize, limit: usize) -> Result<(), Refusal>
    ensures { number_in result ≡ pixel_refusal n limit }
{
    if limit < n {
        return Err(Refusal::Pixels);
    }
    Ok(())
}

// Refused where what is lent does not have the length that is needed.
#[tactic(auto, using(crate::proofs::Refusals::by_test), unfolding(crate::specs::Refusals::length_refusal))]
pub fn length_refusal(length: usize, needed: usize) -> Result<(), Refusal>
    ensures { number_in result ≡ length_refusal length needed }
{
    if length != needed {
        return Err(Refusal::Length);
    }
    Ok(())
}

// Refused where marks or queue have fewer than n entries.
#[tactic(auto, using(crate::proofs::Refusals::by_test), unfolding(crate::specs::Refusals::room_refusal))]
pub fn room_refusal(n: usize, marks: usize, queue: usize) -> Result<(), Refusal>
    ensures { number_in result ≡ room_refusal n marks queue }
{
    if marks < n || queue < n {
        return Err(Refusal::Room);
    }
    Ok(())
}

// Refused where the output is shorter than needed.
#[tactic(auto, using(crate::proofs::Refusals::by_test), unfolding(crate::specs::Refusals::output_refusal))]
pub fn output_refusal(output: usize, needed: usize) -> Result<(), Refusal>
    ensures { number_in result ≡ output_refusal output needed }
{
    if output < needed {
        return Err(Refusal::Output);
    }
    Ok(())
}

// Refused by the sides, then where there are more than `limit` pixels.
#[tactic(auto, using(crate::proofs::Refusals::in_order), unfolding(crate::specs::Refusals::size_refusal))]
pub fn size_refusal(w: usize, h: usize, limit: usize) -> Result<(), Refusal>
    ensures { number_in result ≡ size_refusal w h limit }
{
    side_refusal(w, h)?;
    pixel_refusal(w * h, limit)
}

// The same for a shape.
#[tactic(auto, unfolding(crate::specs::Shapes::shape_refusal, crate::specs::Refusals::size_refusal))]
pub fn shape_refusal(shape: Shape) -> Result<(), Refusal>
    ensures { number_in result ≡ shape_refusal shape }
{
    size_refusal(shape.w, shape.h, PIXELS)
}

// Refused by the shape, then for a plane of `plane` bytes, then for so many marks and places of a queue.
#[tactic(auto, using(crate::proofs::Shapes::in_order), unfolding(crate::specs::Shapes::lent_refusal))]
pub fn lent_refusal(shape: Shape, plane: usize, marks: usize, queue: usize) -> Result<(), Refusal>
    ensures { number_in result ≡ lent_refusal shape plane marks queue }
{
    shape_refusal(shape)?;
    let n = shape.pixels();
    length_refusal(plane, n)?;
    room_refusal(n, marks, queue)
}
