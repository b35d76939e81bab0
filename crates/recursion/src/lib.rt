// The published recursion from level 0.
//
// run_levels   level 0, which has no area test, then its halves with the levels below them
#![tactic(auto)]

ghost use Rattle.std.specs.Prelude.{◌≡◌};
ghost use Rattle.branches.specs.Works.{Usable};
ghost use Rattle.recursion.specs.Recursion.{levels_left};
ghost use Rattle.recursion.specs.Works.{RecursionIn};

use branches::Branch;
use levels::Settings;
use model::{Counts, Pass};
use works::Work;

// On how many levels below level 0 a plane of n pixels is kept back that leaves there: on all of them where it has the
// least area, which level 0 does not test, else on none.
fn levels_left(n: usize, settings: Settings) -> u32
    ensures { result ≡ levels_left n settings }
{
    if n < settings.area as usize {
        0
    } else {
        u32::from(settings.last)
    }
}

// The recursion from level 0, the published call on the whole image, which has no area test. How many components were
// retoned and kept back.
pub fn run_levels(work: &mut Work<'_>, settings: Settings) -> Counts
    requires { Usable settings }
    ensures { RecursionIn settings work.old work.new result }
{
    let root = Branch {
        a: 0,
        b: 255,
        code: 1,
        span: levels::sections(settings.last),
    };
    let more = levels::deeper(root.a, root.b, settings.last);
    let next = levels::next_of(more, root.mid(), root.code, root.span);
    let whole = Pass {
        a: root.a,
        b: root.b,
        area: 1,
        rule: settings.rule,
        neighbours: settings.neighbours,
    };
    let n = work.shape.pixels();
    let plane = &mut *work.plane;
    painting::mark_section(plane, work.marks, n, whole);
    let t = sections::treat_plane(work, whole, next);
    let counts = branches::counts_of(t, levels_left(n, settings));
    if more {
        let halves = branches::split(work, root, t.sides, settings);
        return model::plus(counts, halves);
    }
    counts
}
