// The byte format of a pass list, in both editions: where its numbers stand, and what a record stands for.
//
// Edition        an edition of the format: its version, the length of its records, and the other edition
// edition_of     the edition that a list names
// count_of       how many records it says that it has
// record_start   where a record starts
// pass_at        the pass of a record
// form_refusal   17 for a record that stands for no pass
#![tactic(auto)]

ghost use Rattle.std.specs.Prelude.{◌≡◌, ◌+◌, ◌≤◌, ◌<◌, length};
ghost use Rattle.planes.specs.Refusals.{number_in};
ghost use Rattle.listformat.specs.Format.{version, record_length, fields_length, number16, number32, head_length};
ghost use Rattle.listformat.specs.Format.{record_start, count_of, edition_of, numbers_at, neighbours_at, pass_at};
ghost use Rattle.listformat.specs.Format.{greatest_count, zero_set, form_at, other};

use model::Pass;
use planes::{FOUR, Refusal};
use tones::RuleNumbers;

// An edition of the format: version 1, or version 2, whose records name their neighbours.
#[derive(Clone, Copy, Debug, PartialEq, Eq)]
pub enum Edition {
    First,
    Second,
}

// The places of the head's numbers, and its length.
pub const VERSION_AT: usize = 3;

pub const COUNT_AT: usize = 5;

pub const HEAD_LENGTH: usize = 7;

// The places of a record's fields from its start on, where a stands, and the length of those that both editions have.
const UPPER: usize = 1;

const RULE: usize = 2;

const EXTRA: usize = 3;

const AREA: usize = 4;

const FIRST: usize = 8;

const SECOND: usize = 10;

pub const FIELDS_LENGTH: usize = 12;

// The place of the number of neighbours in version 2, and of its three zero bytes.
const NEIGHBOURS: usize = 12;

const ZERO: usize = 13;

const ZERO_2: usize = 14;

const ZERO_3: usize = 15;

impl Edition {
    // The version that a list's head names.
    pub fn version(self) -> u16
        ensures { result ≡ version self }
    {
        match self {
            Edition::First => 1,
            Edition::Second => 2,
        }
    }

    // The length of a record.
    pub fn record_length(self) -> usize
        ensures { result ≡ record_length self }
    {
        match self {
            Edition::First => 12,
            Edition::Second => 16,
        }
    }

    // The other edition.
    pub fn other(self) -> Self
        ensures { result ≡ other self }
    {
        match self {
            Edition::First => Edition::Second,
            Edition::Second => Edition::First,
        }
    }
}

// The 16-bit number at index i, low byte first.
pub fn number16_at(list: &[u8], i: usize) -> u16
    requires { i + 1 < length list.now }
    ensures { result ≡ number16 list.now i }
{
    u16::from_le_bytes([list[i], list[i + 1]])
}

// The 32-bit number at index i, low byte first.
fn number32_at(list: &[u8], i: usize) -> u32
    requires { i + 3 < length list.now }
    ensures { result ≡ number32 list.now i }
{
    u32::from_le_bytes([list[i], list[i + 1], list[i + 2], list[i + 3]])
}

// The edition whose version a list's head names; version 1 where it is that of none.
#[tactic(auto, using(planes::proofs::Refusals::by_test), unfolding(crate::specs::Format::edition_of))]
pub fn edition_of(list: &[u8]) -> Edition
    requires { head_length ≤ length list.now }
    ensures { result ≡ edition_of list.now }
{
    match number16_at(list, VERSION_AT) {
        2 => Edition::Second,
        _ => Edition::First,
    }
}

// How many records the list says that it has.
pub fn count_of(list: &[u8]) -> usize
    requires { head_length ≤ length list.now }
    ensures { result ≡ count_of list.now }
{
    usize::from(number16_at(list, COUNT_AT))
}

// Where record j starts, in a list of no more than the greatest count of records.
pub fn record_start(edition: Edition, j: usize) -> usize
    requires { j ≤ greatest_count }
    ensures { result ≡ record_start edition j }
{
    HEAD_LENGTH + edition.record_length() * j
}

// The numbers of the rule of the record that starts at index i.
fn numbers_at(list: &[u8], i: usize) -> RuleNumbers
    requires { i + fields_length ≤ length list.now }
    ensures { result ≡ numbers_at list.now i }
{
    RuleNumbers {
        code: list[i + RULE],
        extra: list[i + EXTRA],
        first: number16_at(list, i + FIRST),
        second: number16_at(list, i + SECOND),
    }
}

// The number of neighbours of the record that starts at index i; 4 in version 1, which has no place for it.
fn neighbours_at(list: &[u8], edition: Edition, i: usize) -> u8
    requires { i + record_length edition ≤ length list.now }
    ensures { result ≡ neighbours_at edition list.now i }
{
    match edition {
        Edition::First => FOUR,
        Edition::Second => list[i + NEIGHBOURS],
    }
}

// The pass of the record that starts at index i.
#[tactic(auto, unfolding(crate::specs::Format::pass_at))]
pub fn pass_at(list: &[u8], edition: Edition, i: usize) -> Pass
    requires { (i + fields_length ≤ length list.now) × (i + record_length edition ≤ length list.now) }
    ensures { result ≡ pass_at edition list.now i }
{
    Pass {
        a: list[i],
        b: list[i + UPPER],
        area: number32_at(list, i + AREA),
        rule: tones::rule_of(numbers_at(list, i)),
        neighbours: neighbours_at(list, edition, i),
    }
}

// Whether one of the zero bytes of the record that starts at index i is set.
fn is_zero_set(list: &[u8], edition: Edition, i: usize) -> bool
    requires { i + record_length edition ≤ length list.now }
    ensures { result ≡ zero_set edition list.now i }
{
    match edition {
        Edition::First => false,
        Edition::Second => list[i + ZERO] != 0 || list[i + ZERO_2] != 0 || list[i + ZERO_3] != 0,
    }
}

// 17 for a malformed record at index i.
pub fn form_refusal(list: &[u8], edition: Edition, i: usize) -> Result<(), Refusal>
    requires { (i + fields_length ≤ length list.now) × (i + record_length edition ≤ length list.now) }
    ensures { number_in result ≡ form_at edition list.now i }
{
    if is_zero_set(list, edition, i) {
        return Err(Refusal::Record);
    }
    tones::form_refusal(numbers_at(list, i))
}
