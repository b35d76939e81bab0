// The head of a case: what it calls, and what it calls it with.

use crate::numbers::{long_at, short_at};
use model::Pass;
use planes::Shape;
use tones::RuleNumbers;

// The length of a head.
pub const HEAD: usize = 38;

// The call that a case makes, by its number.
#[derive(Clone, Copy, Debug, PartialEq, Eq)]
pub enum Kind {
    Intensity,
    Pass,
    Recolour,
    Enhance,
    List,
    Passes,
    Read,
    Write,
    Program,
    House,
    Convert,
}

// The kind of a number; a number that stands for none comes back.
impl TryFrom<u8> for Kind {
    type Error = u8;

    fn try_from(number: u8) -> Result<Self, u8> {
        match number {
            0 => Ok(Self::Intensity),
            1 => Ok(Self::Pass),
            2 => Ok(Self::Recolour),
            3 => Ok(Self::Enhance),
            4 => Ok(Self::List),
            5 => Ok(Self::Passes),
            6 => Ok(Self::Read),
            7 => Ok(Self::Write),
            8 => Ok(Self::Program),
            9 => Ok(Self::House),
            10 => Ok(Self::Convert),
            _ => Err(number),
        }
    }
}

// One case. A call uses the fields that it needs; lengths are those of what is lent. Its kind is none where its number
// stands for none.
#[derive(Clone, Copy, Debug, PartialEq, Eq)]
pub struct Case {
    pub kind: Option<Kind>,
    pub pass: Pass,
    pub last: u8,
    pub is_same: bool,
    pub marks: usize,
    pub queue: usize,
    pub output: usize,
    pub shape: Shape,
    pub limit: usize,
    pub bytes: usize,
    pub plane: usize,
}

// The pass of a head.
fn pass_of(head: &[u8; HEAD]) -> Pass {
    Pass {
        a: head[1],
        b: head[2],
        area: long_at(head, 8),
        rule: tones::rule_of(RuleNumbers {
            code: head[3],
            extra: head[36],
            first: short_at(head, 4),
            second: short_at(head, 6),
        }),
        neighbours: head[37],
    }
}

impl From<&[u8; HEAD]> for Case {
    fn from(head: &[u8; HEAD]) -> Self {
        Self {
            kind: Kind::try_from(head[0]).ok(),
            pass: pass_of(head),
            last: head[12],
            is_same: head[13] == 1,
            marks: usize::from(short_at(head, 14)),
            queue: usize::from(short_at(head, 16)),
            output: usize::from(short_at(head, 18)),
            shape: Shape::new(long_at(head, 20) as usize, long_at(head, 24) as usize),
            limit: long_at(head, 28) as usize,
            bytes: usize::from(short_at(head, 32)),
            plane: usize::from(short_at(head, 34)),
        }
    }
}
