// The treatment of one component, found and measured, whose values are counted: it is retoned, kept back or left alone,
// and given its next marks.
//
// Treatment     what is told of components
// treat_found   all of it
// is_inert      whether a component is left alone
// left_alone    what is told of one that is
// retone        gives any other its tones and its next marks
//
// A component that is too small, or lone under its rule, is changed neither by the pass nor by any later one on a part
// of the section: it is left as it is, and gets no next marks. A lone one of sufficient area is kept back by all of
// these passes: it is counted once here, and told of as one that leaves.
#![tactic(auto)]

ghost use Rattle.std.specs.Prelude.{◌≡◌, false, List, ℕ, ◌+◌, ◌^◌, ◌≤◌, ◌<◌, length, ltb};
ghost use Rattle.histograms.specs.Histograms.{values, Measured, Gathered};
ghost use Rattle.painting.specs.Painting.{Listed};
ghost use Rattle.retoning.specs.Retoning.{inert, untold, together, alone_by, DoneBy};

use histograms::Measures;
use model::Pass;
use painting::{Next, Sides};

// How many components were retoned, how many of sufficient area were kept back, and how many of these are lone and
// leave: every pass on a part of the section that has them keeps them back too. And the sides of the middle that the
// values are on for which next marks were given.
#[derive(Clone, Copy, Debug, PartialEq, Eq)]
pub struct Treatment {
    pub retoned: u32,
    pub kept: u32,
    pub left: u32,
    pub sides: Sides,
}

impl Treatment {
    // What is told of no component.
    pub fn none() -> Self
        ensures { result ≡ untold }
    {
        Treatment {
            retoned: 0,
            kept: 0,
            left: 0,
            sides: Sides::none(),
        }
    }

    // What is told of these components and others.
    pub fn add(self, other: Self) -> Self
        requires { (self.retoned + other.retoned < 2 ^ 32)
            × ((self.kept + other.kept < 2 ^ 32) × (self.left + other.left < 2 ^ 32)) }
        ensures { result ≡ together self other }
    {
        Treatment {
            retoned: self.retoned + other.retoned,
            kept: self.kept + other.kept,
            left: self.left + other.left,
            sides: self.sides.join(other.sides),
        }
    }
}

// Whether a component of m pixels is too small for the pass.
fn is_small(m: usize, pass: Pass) -> bool
    ensures { result ≡ ltb m pass.area }
{
    m < pass.area as usize
}

// Whether a component is too small for the pass, or lone under its rule.
#[tactic(auto, unfolding(crate::specs::Retoning::inert, crate::specs::Retoning::small))]
pub fn is_inert(c: Measures, pass: Pass) -> bool
    ensures { (vs : List ℕ) → 1 ≤ length vs → Measured vs c → result ≡ inert pass vs }
{
    is_small(c.size, pass) || tones::is_lone(pass.rule, c)
}

// An inert component is left as it is. It is kept back, and leaves, unless it is too small.
pub fn left_alone(c: Measures, pass: Pass) -> Treatment
    ensures { result ≡ alone_by (ltb c.size pass.area) }
{
    let left = u32::from(!is_small(c.size, pass));
    Treatment {
        retoned: 0,
        kept: left,
        left,
        sides: Sides::none(),
    }
}

// Gives a component that is not inert its tones and its next marks. The table is working memory.
pub fn retone(
    plane: &mut [u8],
    marks: &mut [u8],
    queue: &[u32],
    c: Measures,
    pass: Pass,
    next: Next,
    counts: &mut [u32; 256],
    table: &mut [u8; 256],
) -> Treatment
    requires { (Gathered plane.old queue.now counts.old c pass.a pass.b
        × Listed marks.old plane.old queue.now c.size)
        × (inert pass (values plane.old queue.now c.size) ≡ false) }
    ensures { DoneBy pass next c plane.old marks.old queue.now
        counts.old plane.new marks.new counts.new result }
{
    let retoned = tones::tone_table(plane, queue, c, pass.rule, pass.a, pass.b, counts, table);
    Treatment {
        retoned: u32::from(retoned),
        kept: u32::from(!retoned),
        left: 0,
        sides: painting::paint(plane, marks, queue, c.size, table, next),
    }
}

// Treats the component of the queue's first pixels, whose values are counted: its rule, and its next marks. Counts and
// table are two, as a flood and `clear` take the counts alone, and painting the table.
pub fn treat_found(
    plane: &mut [u8],
    marks: &mut [u8],
    queue: &[u32],
    c: Measures,
    pass: Pass,
    next: Next,
    counts: &mut [u32; 256],
    table: &mut [u8; 256],
) -> Treatment
    requires { Gathered plane.old queue.now counts.old c pass.a pass.b
        × Listed marks.old plane.old queue.now c.size }
    ensures { DoneBy pass next c plane.old marks.old queue.now
        counts.old plane.new marks.new counts.new result }
{
    if is_inert(c, pass) {
        return left_alone(c, pass);
    }
    retone(plane, marks, queue, c, pass, next, counts, table)
}
