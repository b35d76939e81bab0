// Branches: a section with the levels below it.
//
// Branch     a section, and the numbers of its branch
// counts_of  what a treated section counts for, with the levels below it
// equalise   Algorithm 2, for all components of a section at once: the section, then its halves
// split      Algorithm 2, lines 11 to 13: the lower half of a section, then the upper
//
// The components and the area test of Algorithm 3 are in `sections::treat_section`. The published recursion takes each
// component of a half down to the last level before the next one; that sections with all their components end alike is
// the theorem `enhanced_published` of the model. So one search for each section takes the place of one for each
// component, and no sets are kept.
#![tactic(auto)]

ghost use Rattle.std.specs.Prelude.{◌≡◌, ◌+◌, ◌-◌, ◌/◌, ◌≤◌};
ghost use Rattle.branches.specs.Branches.{all_told, lower_half, upper_half};
ghost use Rattle.branches.specs.Works.{Usable, DueIn, HalvesIn, EqualisedIn, HalvedIn};

use levels::Settings;
use model::{Counts, Pass};
use painting::Sides;
use retoning::Treatment;
use works::Work;

// The section [a, b], and the numbers of its branch, which are those of the sections on all levels from its own on:
// `span` numbers from the code on, the code its own.
#[derive(Clone, Copy, Debug, PartialEq, Eq)]
pub struct Branch {
    pub a: u8,
    pub b: u8,
    pub code: u8,
    pub span: u8,
}

impl Branch {
    // The lower half's greatest value.
    pub fn mid(self) -> u8
        ensures { result ≡ (self.a + self.b) / 2 }
    {
        ((u16::from(self.a) + u16::from(self.b)) / 2) as u8
    }

    // The branch of the lower half, [a, mid].
    fn lower(self) -> Self
        requires { (1 ≤ self.span) × (self.code + 1 ≤ 255) }
        ensures { result ≡ lower_half self }
    {
        Branch {
            a: self.a,
            b: self.mid(),
            code: self.code + 1,
            span: (self.span - 1) / 2,
        }
    }

    // The branch of the upper half, [mid + 1, b].
    fn upper(self) -> Self
        requires { (1 ≤ self.span) × ((self.code + 1 + (self.span - 1) / 2 ≤ 255)
            × ((self.a + self.b) / 2 + 1 ≤ 255)) }
        ensures { result ≡ upper_half self }
    {
        let half = (self.span - 1) / 2;
        Branch {
            a: self.mid() + 1,
            b: self.b,
            code: self.code + 1 + half,
            span: half,
        }
    }
}

// The counts of a treated section with so many levels below it: a component that leaves is kept back on these too.
pub fn counts_of(t: Treatment, below: u32) -> Counts
    requires { (t.kept ≤ 1048576) × ((t.left ≤ 1048576) × (below ≤ 7)) }
    ensures { result ≡ all_told below t }
{
    Counts {
        retoned: t.retoned,
        kept: t.kept + below * t.left,
    }
}

// Algorithm 2, for all components of the branch's section at once: treats the section, whose pixels are marked with the
// code, and then its halves, unless this is the last level. No pixel has the code unless the section is due. How many
// components were retoned and kept back; a lone one that leaves is counted here for all levels below, and no more
// there.
#[cycle(equalise_split)]
fn equalise(work: &mut Work<'_>, branch: Branch, due: bool, settings: Settings) -> Counts
    requires { Usable settings × DueIn work.old branch due settings }
    ensures { EqualisedIn branch settings work.old work.new result }
{
    let more = levels::deeper(branch.a, branch.b, settings.last);
    let next = levels::next_of(more, branch.mid(), branch.code, branch.span);
    let section = Pass {
        a: branch.a,
        b: branch.b,
        area: settings.area,
        rule: settings.rule,
        neighbours: settings.neighbours,
    };
    let t = sections::treat_section(work, branch.code, due, section, next);
    let counts = counts_of(t, levels::below(branch.a, branch.b, settings.last));
    if more {
        let halves = split(work, branch, t.sides, settings);
        return model::plus(counts, halves);
    }
    counts
}

// Algorithm 2, lines 11 to 13: the halves of the branch's section, split at floor((a + b) / 2). Their pixels are marked
// with their numbers, and are the level sets of Algorithm 3; `equalise` has their components treated. No pixel has a
// half's number unless values are on that side. How many components were retoned and kept back.
#[cycle(equalise_split)]
pub fn split(work: &mut Work<'_>, branch: Branch, sides: Sides, settings: Settings) -> Counts
    requires { Usable settings × HalvesIn work.old branch sides settings }
    ensures { HalvedIn branch settings work.old work.new result }
{
    let low = branch.lower();
    let lower = equalise(work, low, sides.low, settings);
    let high = branch.upper();
    let upper = equalise(work, high, sides.high, settings);
    model::plus(lower, upper)
}
