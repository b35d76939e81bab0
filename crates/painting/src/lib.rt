// Marks and painting: which pixels a section has, and what the pixels of a component get.
//
// mark_section   marks a section's pixels
// paint          gives the pixels of a component their new values and their next marks
// Next           these marks, by the side of the middle that a value is on
// Sides          the sides that values are on
#![tactic(auto)]

ghost use Rattle.std.specs.Prelude.{◌≡◌, cond, ◌≤◌, length};
ghost use Rattle.planes.specs.Lists.{at};
ghost use Rattle.histograms.specs.Histograms.{Distinct};
ghost use Rattle.model.specs.Passes.{within};
ghost use Rattle.painting.specs.Painting.{number, no_sides, joined, Listed, Marked, Painted};

use model::Pass;

// The next marks of treated pixels: `low` for values up to `mid`, `high` for those above.
#[derive(Clone, Copy, Debug, PartialEq, Eq)]
pub struct Next {
    pub mid: u8,
    pub low: u8,
    pub high: u8,
}

// Whether pixels have a value up to the middle, and above it. A flag that is false says that none has.
#[derive(Clone, Copy, Debug, PartialEq, Eq)]
pub struct Sides {
    pub low: bool,
    pub high: bool,
}

impl Sides {
    // Those of pixels that have no value.
    pub fn none() -> Self
        ensures { result ≡ no_sides }
    {
        Sides {
            low: false,
            high: false,
        }
    }

    // Those of these pixels and of others.
    pub fn join(self, other: Self) -> Self
        ensures { result ≡ joined self other }
    {
        Sides {
            low: self.low | other.low,
            high: self.high | other.high,
        }
    }
}

// Marks the first n pixels: 1 for a value in the section of the pass, else 0.
pub fn mark_section(plane: &[u8], marks: &mut [u8], n: usize, pass: Pass)
    requires { (n ≤ length plane.now) × (n ≤ length marks.old) }
    ensures { Marked pass plane.now marks.old marks.new n }
{
    for (p, mark) in marks[..n].iter_mut().enumerate() {
        *mark = u8::from((pass.a..=pass.b).contains(&plane[p]));
    }
}

// The next mark of a pixel of value v.
fn next_mark(v: u8, next: Next) -> u8
    ensures { result ≡ number next v }
{
    if next.mid < v { next.high } else { next.low }
}

// Gives the queue's first m pixels the table's values and their next marks. Which sides of the middle the values are
// on.
pub fn paint(
    plane: &mut [u8],
    marks: &mut [u8],
    queue: &[u32],
    m: usize,
    table: &[u8; 256],
    next: Next,
) -> Sides
    requires { Listed marks.old plane.old queue.now m × Distinct queue.now m }
    ensures { Painted (at table.now) next plane.old marks.old
        queue.now plane.new marks.new m result }
{
    let mut sides = Sides::none();
    for place in &queue[..m] {
        let p = *place as usize;
        let old = plane[p];
        let v = table[usize::from(old)];
        plane[p] = v;
        marks[p] = next_mark(v, next);
        sides.low |= v <= next.mid;
        sides.high |= next.mid < v;
    }
    sides
}
