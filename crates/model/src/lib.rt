// The model of section passes: what a pass is, what a call of it answers, and the refusals of its numbers.
//
// Pass                an interval, a least area, a tone rule and a number of neighbours
// Counts, plus        how many components were retoned, and how many kept back
// pass_refusal        refusals 5 to 8, 18 and 19 for a pass's own numbers
// area_refusal        refusal 6 for a least area
// neighbour_refusal   refusal 19 for a number of neighbours
#![tactic(auto)]

ghost use Rattle.std.specs.Prelude.{◌≡◌, ◌+◌, ◌<◌};
ghost use Rattle.model.specs.Outcomes.{sums};
ghost use Rattle.planes.specs.Refusals.{number_in};
ghost use Rattle.model.specs.Calls.{interval_refusal, area_refusal, neighbour_refusal, numbers_refusal};

use planes::{EIGHT, FOUR, Refusal};
use tones::Rule;

// The section [a, b], the least area of the components that get the rule, the rule with its own numbers, and the number
// of neighbours by which components are taken, 4 or 8. It is a number and no enum, as a pass may come with any, which
// is refused by 19.
#[derive(Clone, Copy, Debug, PartialEq, Eq)]
pub struct Pass {
    pub a: u8,
    pub b: u8,
    pub area: u32,
    pub rule: Rule,
    pub neighbours: u8,
}

// The number of components that were retoned, and of those of sufficient area that were kept back. Together they are
// the components of sufficient area.
#[derive(Clone, Copy, Debug, PartialEq, Eq)]
pub struct Counts {
    pub retoned: u32,
    pub kept: u32,
}

// The sums of both counts.
pub fn plus(x: Counts, y: Counts) -> Counts
    requires { (x.retoned + y.retoned < 4294967296) × (x.kept + y.kept < 4294967296) }
    ensures { result ≡ sums x y }
{
    Counts {
        retoned: x.retoned + y.retoned,
        kept: x.kept + y.kept,
    }
}

// The greatest least area: as many pixels as a plane may have.
pub const GREATEST_AREA: u32 = 1048576;

// 6 where the least area is 0 or too large.
#[tactic(auto, using(planes::proofs::Refusals::by_test), unfolding(crate::specs::Calls::area_refusal))]
pub fn area_refusal(area: u32) -> Result<(), Refusal>
    ensures { number_in result ≡ area_refusal area }
{
    if area == 0 || GREATEST_AREA < area {
        return Err(Refusal::Area);
    }
    Ok(())
}

// 19 where the number of neighbours is neither 4 nor 8.
#[tactic(auto, using(planes::proofs::Refusals::by_test), unfolding(crate::specs::Calls::neighbour_refusal))]
pub fn neighbour_refusal(neighbours: u8) -> Result<(), Refusal>
    ensures { number_in result ≡ neighbour_refusal neighbours }
{
    match neighbours {
        FOUR | EIGHT => Ok(()),
        _ => Err(Refusal::Neighbours),
    }
}

// 5 where a is above b.
#[tactic(auto, using(planes::proofs::Refusals::by_test))]
fn interval_refusal(a: u8, b: u8) -> Result<(), Refusal>
    ensures { number_in result ≡ interval_refusal a b }
{
    if b < a {
        return Err(Refusal::Interval);
    }
    Ok(())
}

// 5, then the refusal of the area, of the rule or of the number of neighbours.
#[tactic(auto, using(planes::proofs::Refusals::in_order), unfolding(crate::specs::Calls::numbers_refusal))]
pub fn pass_refusal(pass: Pass) -> Result<(), Refusal>
    ensures { number_in result ≡ numbers_refusal pass }
{
    interval_refusal(pass.a, pass.b)?;
    area_refusal(pass.area)?;
    tones::rule_refusal(pass.rule)?;
    neighbour_refusal(pass.neighbours)
}
