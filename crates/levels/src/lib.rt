// Levels: the settings of an enhancement, and the sections of its levels. Level 0 is the section of all values, and
// each section is split into two halves for the next level, down to the last.
//
// Settings           the last level, the least area, the tone rule and the number of neighbours, with the house setting
// settings_refusal   refusals 9, 6, 7, 8, 18, 19 for settings
// below              how many levels there are below a section's own
// deeper             whether a section has halves
// next_of            the numbers of a section's halves
// sections           how many sections there are
#![tactic(auto)]

ghost use Rattle.std.specs.Prelude.{◌≡◌, true, ℕ, ◌+◌, ◌-◌, ◌^◌, ◌≤◌};
ghost use Rattle.planes.specs.Refusals.{number_in};
ghost use Rattle.levels.specs.Levels.{house, level_refusal, settings_refusal, Below, Deeper, NextIs};

use painting::Next;
use planes::Refusal;
use tones::Rule;

// The greatest last level.
pub const LAST: u8 = 7;

// The levels 0 to `last` run; components from level 1 on have at least `area` pixels. On all levels they are taken by
// the number of neighbours, 4 or 8.
#[derive(Clone, Copy, Debug, PartialEq, Eq)]
pub struct Settings {
    pub last: u8,
    pub area: u32,
    pub rule: Rule,
    pub neighbours: u8,
}

impl Settings {
    // The house setting.
    pub const HOUSE_LAST: u8 = 7;

    pub const HOUSE_AREA: u32 = 20;

    pub const HOUSE_LOW: u16 = 80;

    pub const HOUSE_HIGH: u16 = 300;

    pub const HOUSE_NEIGHBOURS: u8 = 4;

    pub fn new(last: u8, area: u32, rule: Rule, neighbours: u8) -> Self
        ensures { result ≡ record { last = last; area = area; rule = rule; neighbours = neighbours } }
    {
        Self {
            last,
            area,
            rule,
            neighbours,
        }
    }

    pub fn house() -> Self
        ensures { result ≡ house }
    {
        let rule = Rule::Plain {
            low: Self::HOUSE_LOW,
            high: Self::HOUSE_HIGH,
        };
        Self::new(
            Self::HOUSE_LAST,
            Self::HOUSE_AREA,
            rule,
            Self::HOUSE_NEIGHBOURS,
        )
    }
}

// Refused by 9 where the last level is too large.
#[tactic(auto, using(planes::proofs::Refusals::by_test), unfolding(crate::specs::Levels::level_refusal))]
fn level_refusal(last: u8) -> Result<(), Refusal>
    ensures { number_in result ≡ level_refusal last }
{
    if LAST < last {
        return Err(Refusal::Level);
    }
    Ok(())
}

// Refused by 9, 6, 7, 8, 18, 19 in that order.
#[tactic(auto, using(planes::proofs::Refusals::in_order), unfolding(crate::specs::Levels::settings_refusal))]
pub fn settings_refusal(settings: Settings) -> Result<(), Refusal>
    ensures { number_in result ≡ settings_refusal settings }
{
    level_refusal(settings.last)?;
    model::area_refusal(settings.area)?;
    tones::rule_refusal(settings.rule)?;
    model::neighbour_refusal(settings.neighbours)
}

// The level of a section, by its width: eight less the exponent of a power of two.
fn level(width: u32) -> u32
    ensures { (k : ℕ) → k ≤ 8 → width ≡ 2 ^ k → result ≡ 8 - k }
{
    8u32.saturating_sub(width.trailing_zeros())
}

// How many levels there are below that of the section [a, b], down to the last.
pub fn below(a: u8, b: u8, last: u8) -> u32
    requires { (a ≤ b) × (last ≤ 7) }
    ensures { Below a b last result }
{
    let width = u32::from(b - a) + 1;
    u32::from(last).saturating_sub(level(width))
}

// Whether there is a level below that of the section [a, b].
pub fn deeper(a: u8, b: u8, last: u8) -> bool
    requires { (a ≤ b) × (last ≤ 7) }
    ensures { Deeper a b last result }
{
    below(a, b, last) != 0
}

// The numbers of the halves of a section that has some, else 0. `mid` is the lower half's greatest value.
pub fn next_of(more: bool, mid: u8, code: u8, span: u8) -> Next
    requires { (more ≡ true → 3 ≤ span) × (code + span ≤ 256) }
    ensures { NextIs more mid code span result }
{
    if more {
        let low = code + 1;
        let high = low + (span - 1) / 2;
        Next { mid, low, high }
    } else {
        Next {
            mid,
            low: 0,
            high: 0,
        }
    }
}

// How many sections there are on the levels 0 to `last`: 1 + 2 + 4 + .., up to 255 for 0 to 7.
pub fn sections(last: u8) -> u8
    requires { last ≤ 7 }
    ensures { (result + 1 ≡ 2 ^ (last + 1)) × (result ≤ 255) }
{
    u8::MAX >> (7 - last)
}
