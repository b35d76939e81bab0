// The memory that a run works on: a lent plane, marks and a queue, and the plane's shape.
//
// Work   a plane that is lent whole, with room in marks and queue
#![tactic(auto)]

ghost use Rattle.std.specs.Prelude.{length};
ghost use Rattle.planes.specs.Shapes.{Lent};

use planes::Shape;

// A plane of the shape that is lent whole, with as many entries or more in marks and queue.
#[derive(Drop)]
pub struct Work<'a> {
    pub plane: &'a mut [u8],
    pub marks: &'a mut [u8],
    pub queue: &'a mut [u32],
    pub shape: Shape,
    pub ghost lent: { Lent shape (length plane.now) (length marks.now) (length queue.now) },
}
