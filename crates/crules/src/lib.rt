// The numbers that a caller in C lends for a rule and for the neighbours of a pass.
//
// rule_numbers       the numbers of a rule, by the four or five that are lent
// neighbour_number   the number of neighbours, by the fifth of them
#![tactic(auto)]

ghost use Rattle.std.specs.Prelude.{◌≡◌, min};
ghost use Rattle.crules.specs.Rules.{numbers_for, neighbours_for};

use planes::FOUR;
use tones::RuleNumbers;

// A number as a byte, where all above 255 are 255.
fn byte_of(x: u16) -> u8
    ensures { result ≡ min x 255 }
{
    x.min(255) as u8
}

// How many numbers are lent for a rule, and how many with a number of neighbours.
pub const RULE_NUMBERS: usize = 4;

pub const PASS_NUMBERS: usize = 5;

// The numbers of a rule, by its code, first and second number, and segments; of fewer or more numbers, those of no
// rule.
pub fn rule_numbers(rule: &[u16]) -> RuleNumbers
    ensures { result ≡ numbers_for rule.now }
{
    match rule {
        [code, first, second, extra] | [code, first, second, extra, _] => RuleNumbers {
            code: byte_of(*code),
            extra: byte_of(*extra),
            first: *first,
            second: *second,
        },
        _ => RuleNumbers {
            code: 255,
            extra: 0,
            first: 0,
            second: 0,
        },
    }
}

// The number of neighbours, which is the fifth number; 4 where there is none.
pub fn neighbour_number(rule: &[u16]) -> u8
    ensures { result ≡ neighbours_for rule.now }
{
    match rule {
        [_, _, _, _, neighbours] => byte_of(*neighbours),
        _ => FOUR,
    }
}
