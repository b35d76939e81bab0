// The converter of pass lists: version 1 becomes version 2, and version 2 becomes version 1.
//
// convert   the list in the other edition, at the beginning of a lent output: the length written, or the refusal, by
//           16 for fewer bytes than a head has, 15, 16, then for each record 17, 5, 6, 7, 8, 18, 19, then 20, then 14
//
// Two walks check all records, and one writes them. A record's first 12 bytes are the same in both editions.
#![tactic(auto)]

ghost use Rattle.std.specs.Prelude.{◌≡◌, ◌++◌, ◌+◌, ◌≤◌, length, take, drop};
ghost use Rattle.planes.specs.Refusals.{number_in};
ghost use Rattle.texts.specs.Placing.{Put};
ghost use Rattle.texts.specs.Writing.{written_reply};
ghost use Rattle.listformat.specs.Format.{record_length, fields_length, head_length, count_of, encode_head};
ghost use Rattle.listformat.specs.Format.{encode_rest};
ghost use Rattle.conversion.specs.Conversion.{converted, convert_refusal, ConvertOutcome};

use listformat::{COUNT_AT, Edition, FIELDS_LENGTH};
use planes::{FOUR, Refusal};

// The refusal of a list that is to be written to an output of so many bytes.
fn convert_refusal(list: &[u8], output: usize) -> Result<(), Refusal>
    ensures { number_in result ≡ convert_refusal list.now output }
{
    listchecks::head_refusal(list)?;
    let edition = listformat::edition_of(list).other();
    listchecks::records_refusal(list, edition)?;
    let needed = listformat::record_start(edition, listformat::count_of(list));
    planes::output_refusal(output, needed)
}

// Writes the head of a list of the edition, with as many records as the given one, at the beginning of the output, and
// answers the place after it.
fn put_head(output: &mut [u8], list: &[u8], edition: Edition) -> usize
    requires { (head_length ≤ length output.old) × (head_length ≤ length list.now) }
    ensures { Put output.old 0 (encode_head edition (count_of list.now)) result
        output.new }
{
    let [low, high] = edition.version().to_le_bytes();
    let head = [
        b'M',
        b'L',
        b'P',
        low,
        high,
        list[COUNT_AT],
        list[COUNT_AT + 1],
    ];
    texts::put_bytes(output, 0, &head)
}

// Writes what follows the fields of a record by four neighbours into the output from `at` on, and answers the place
// after it: nothing in version 1.
fn put_rest(output: &mut [u8], at: usize, edition: Edition) -> usize
    requires { at + length (encode_rest edition 4) ≤ length output.old }
    ensures { Put output.old at (encode_rest edition 4) result output.new }
{
    match edition {
        Edition::First => at,
        Edition::Second => texts::put_bytes(output, at, &[FOUR, 0, 0, 0]),
    }
}

// Writes the record with the fields that stand at index i of the list into the output from `at` on, and answers the
// place after it.
fn put_record(output: &mut [u8], at: usize, list: &[u8], i: usize, edition: Edition) -> usize
    requires { (at + record_length edition ≤ length output.old) × (i + fields_length ≤ length list.now) }
    ensures { Put output.old at
        (take fields_length (drop i list.now) ++ encode_rest edition 4) result output.new }
{
    let rest = texts::put_bytes(output, at, &list[i..i + FIELDS_LENGTH]);
    put_rest(output, rest, edition)
}

// Writes a list that is not refused in the other edition, at the beginning of the output, and answers its length.
fn put_converted(output: &mut [u8], list: &[u8]) -> usize
    requires { convert_refusal list.now (length output.old) ≡ 0 }
    ensures { Put output.old 0 (converted list.now) result output.new }
{
    let edition = listformat::edition_of(list);
    let target = edition.other();
    let count = listformat::count_of(list);
    let mut at = put_head(output, list, target);
    for j in 0..count {
        let i = listformat::record_start(edition, j);
        at = put_record(output, at, list, i, target);
    }
    at
}

// Writes the list in the other edition at the beginning of the output, or answers the refusal that it meets with.
pub fn convert(list: &[u8], output: &mut [u8]) -> Result<usize, Refusal>
    ensures { ConvertOutcome list.now output.old (written_reply result)
        output.new }
{
    convert_refusal(list, output.len())?;
    Ok(put_converted(output, list))
}
