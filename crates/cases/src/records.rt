// Passes in memory: an array of those that records of 13 bytes stand for.
use caseparts::numbers;
use model::Pass;
use passarrays::ROOM;
use std::array;
use tones::RuleNumbers;

// The length of a record.
pub const RECORD: usize = 13;

// The pass of a record.
fn pass_of(record: &[u8; RECORD]) -> Pass {
    Pass {
        a: record[0],
        b: record[1],
        area: numbers::long_at(record, 4),
        rule: tones::rule_of(RuleNumbers {
            code: record[2],
            extra: record[3],
            first: numbers::short_at(record, 8),
            second: numbers::short_at(record, 10),
        }),
        neighbours: record[12],
    }
}

// The passes of the first records, as many as an array has room for; after them, where there are fewer, that of a
// record of zeros.
pub fn passes_of(records: &[[u8; RECORD]]) -> [Pass; ROOM] {
    array::from_fn(|j| pass_of(records.get(j).unwrap_or(&[0; RECORD])))
}
