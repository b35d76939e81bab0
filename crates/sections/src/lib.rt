// The treatment of a section, whose pixels have a code in the marks: each component is found, retoned, and given its
// next marks.
//
// treat_section   retones the components of the pixels that have a code, and gives them their next marks
// treat_plane     the same for a plane whose pixels all have the code
#![tactic(auto)]

ghost use Rattle.std.specs.Prelude.{◌≡◌, true, ℕ, ◌<◌};
ghost use Rattle.planes.specs.Lists.{at};
ghost use Rattle.planes.specs.Shapes.{pixels};
ghost use Rattle.sections.specs.Works.{SectionIn, TreatsIn};

use components::flood;
use model::Pass;
use painting::Next;
use retoning::{Treatment, treat_found};
use rows::Grid;
use works::Work;

// Treats the components of the pixels that have the code. None has it unless it is due. The slices are lent on one by
// one: a loop through a lent struct loads each of its fields again at every pixel, and takes nearly twice the time.
pub fn treat_section(work: &mut Work<'_>, code: u8, due: bool, pass: Pass, next: Next) -> Treatment
    requires { SectionIn work.old code due pass next }
    ensures { TreatsIn code pass next work.old work.new result }
{
    let mut told = Treatment::none();
    if !due {
        return told;
    }
    let grid = Grid::new(work.shape);
    let plane = &mut *work.plane;
    let marks = &mut *work.marks;
    let queue = &mut *work.queue;
    let mut counts = [0u32; 256];
    let mut table = [0u8; 256];
    let mut from = 0;
    while let Some(p) = scans::next_pixel(marks, grid, code, from) {
        let c = flood(
            plane,
            marks,
            queue,
            &mut counts,
            grid,
            pass.neighbours,
            code,
            p,
        );
        let t = treat_found(plane, marks, queue, c, pass, next, &mut counts, &mut table);
        histograms::clear(&mut counts, c);
        told = told.add(t);
        from = p + 1;
    }
    told
}

// The same for a plane whose pixels all have the code 1: it is one component. Its values are counted only where it is
// not inert.
pub fn treat_plane(work: &mut Work<'_>, pass: Pass, next: Next) -> Treatment
    requires { SectionIn work.old 1 true pass next
        × ((p : ℕ) → p < pixels work.old.shape → at work.old.marks.now p ≡ 1) }
    ensures { TreatsIn 1 pass next work.old work.new result }
{
    let plane = &mut *work.plane;
    let marks = &mut *work.marks;
    let queue = &mut *work.queue;
    let c = scans::take_plane(plane, marks, queue, work.shape);
    if retoning::is_inert(c, pass) {
        return retoning::left_alone(c, pass);
    }
    let mut counts = [0u32; 256];
    let mut table = [0u8; 256];
    histograms::histogram(plane, &mut counts);
    retoning::retone(plane, marks, queue, c, pass, next, &mut counts, &mut table)
}
