// The refusals of a pass list, in order: in the bytes of a file, and in memory.
//
// list_refusal      the refusal of a list: that of its head, then those of its records
// head_refusal      16 for fewer bytes than a head has, then 15, then 16
// records_refusal   those of its records, in order, then 20 for what an edition has no place for
// passes_refusal    16 for too many passes in memory, then those of each
// pass_of           the pass of a record
#![tactic(auto)]

ghost use Rattle.std.specs.Prelude.{◌≡◌, ◌≤◌, ◌<◌, length};
ghost use Rattle.planes.specs.Refusals.{number_in, ◌▷◌};
ghost use Rattle.listformat.specs.Format.{head_length, count_of, pass_here, passes_of, misnamed, miscounted};
ghost use Rattle.listformat.specs.Format.{head_refusal, edition_of, record_start};
ghost use Rattle.listchecks.specs.Refusals.{first_refusal, record_refusal, record_refusals, list_refusal};
ghost use Rattle.listchecks.specs.Refusals.{passes_refusal};
ghost use Rattle.listchecks.specs.Refusals.{place_refusal, places_refusal};

use listformat::{Edition, HEAD_LENGTH, VERSION_AT};
use model::Pass;
use planes::{EIGHT, Refusal};

// The greatest count of passes, in a file of either version and in memory.
pub const COUNT: usize = 320;

// Whether the mark is not MLP, or the version is that of no edition.
#[tactic(auto, using(planes::proofs::Refusals::by_test), unfolding(listformat::specs::Format::misnamed))]
fn is_misnamed(list: &[u8]) -> bool
    requires { head_length ≤ length list.now }
    ensures { result ≡ misnamed list.now }
{
    let version = listformat::edition_of(list).version();
    list[0] != b'M'
        || list[1] != b'L'
        || list[2] != b'P'
        || listformat::number16_at(list, VERSION_AT) != version
}

// Whether there are too many records, or the length is not that of so many.
#[tactic(auto, using(planes::proofs::Refusals::by_test), unfolding(listformat::specs::Format::miscounted))]
fn is_miscounted(list: &[u8]) -> bool
    requires { head_length ≤ length list.now }
    ensures { result ≡ miscounted list.now }
{
    let count = listformat::count_of(list);
    COUNT < count || list.len() != listformat::record_start(listformat::edition_of(list), count)
}

// 16 for fewer bytes than a head has, then 15 for the mark and the version, then 16 for the count and the length.
#[tactic(auto, using(planes::proofs::Refusals::by_test), unfolding(listformat::specs::Format::head_refusal))]
pub fn head_refusal(list: &[u8]) -> Result<(), Refusal>
    ensures { number_in result ≡ head_refusal list.now }
{
    if list.len() < HEAD_LENGTH {
        return Err(Refusal::Count);
    }
    if is_misnamed(list) {
        return Err(Refusal::Version);
    }
    if is_miscounted(list) {
        return Err(Refusal::Count);
    }
    Ok(())
}

// The pass of record j of a list whose head is not refused.
#[tactic(auto, using(crate::proofs::Records::record_there))]
pub fn pass_of(list: &[u8], j: usize) -> Pass
    requires { (head_refusal list.now ≡ 0) × (j < count_of list.now) }
    ensures { result ≡ pass_here list.now j }
{
    let edition = listformat::edition_of(list);
    listformat::pass_at(list, edition, listformat::record_start(edition, j))
}

// 17, then 5 to 8, 18, 19, for record j of a list whose head is not refused.
#[tactic(auto, using(crate::proofs::Records::record_first), unfolding(crate::specs::Refusals::record_refusal))]
fn record_refusal(list: &[u8], j: usize) -> Result<(), Refusal>
    requires { (head_refusal list.now ≡ 0) × (j < count_of list.now) }
    ensures { number_in result ≡ record_refusal (edition_of list.now) list.now
        (record_start (edition_of list.now) j) }
{
    let edition = listformat::edition_of(list);
    let i = listformat::record_start(edition, j);
    listformat::form_refusal(list, edition, i)?;
    model::pass_refusal(listformat::pass_at(list, edition, i))
}

// The refusal of the first record that is refused, of a list whose head is not.
#[tactic(auto, using(crate::proofs::Records::record_there))]
fn each_refusal(list: &[u8]) -> Result<(), Refusal>
    requires { head_refusal list.now ≡ 0 }
    ensures { number_in result ≡ first_refusal (record_refusals list.now) }
{
    for j in 0..listformat::count_of(list) {
        record_refusal(list, j)?;
    }
    Ok(())
}

// 20 where the edition has no place for the pass's neighbours.
fn place_refusal(pass: Pass, edition: Edition) -> Result<(), Refusal>
    ensures { number_in result ≡ place_refusal edition pass }
{
    match edition {
        Edition::First if pass.neighbours == EIGHT => Err(Refusal::NoPlace),
        _ => Ok(()),
    }
}

// 20 for a pass that the edition has no place for, of a list whose head is not refused.
#[tactic(auto, using(crate::proofs::Records::record_there))]
fn places_refusal(list: &[u8], edition: Edition) -> Result<(), Refusal>
    requires { head_refusal list.now ≡ 0 }
    ensures { number_in result ≡ places_refusal edition (passes_of list.now) }
{
    for j in 0..listformat::count_of(list) {
        place_refusal(pass_of(list, j), edition)?;
    }
    Ok(())
}

// Of a list whose head is not refused: the refusal of the first record that is; where none is, 20 for a pass that the
// given edition has no place for.
#[tactic(auto, using(planes::proofs::Refusals::in_order))]
pub fn records_refusal(list: &[u8], edition: Edition) -> Result<(), Refusal>
    requires { head_refusal list.now ≡ 0 }
    ensures { number_in result ≡ first_refusal (record_refusals list.now)
        ▷ places_refusal edition (passes_of list.now) }
{
    each_refusal(list)?;
    places_refusal(list, edition)
}

// The refusal of a list: that of its head, then 17, 5, 6, 7, 8, 18, 19 for each record.
#[tactic(auto, using(planes::proofs::Refusals::in_order), unfolding(crate::specs::Refusals::list_refusal))]
pub fn list_refusal(list: &[u8]) -> Result<(), Refusal>
    ensures { number_in result ≡ list_refusal list.now }
{
    head_refusal(list)?;
    each_refusal(list)
}

// The refusal of passes in memory: 16 for more than a list may have, then 5, 6, 7, 8, 18, 19 for each.
#[tactic(auto, using(planes::proofs::Refusals::by_test), unfolding(crate::specs::Refusals::passes_refusal))]
pub fn passes_refusal(passes: &[Pass]) -> Result<(), Refusal>
    ensures { number_in result ≡ passes_refusal passes.now }
{
    if COUNT < passes.len() {
        return Err(Refusal::Count);
    }
    for pass in passes {
        model::pass_refusal(*pass)?;
    }
    Ok(())
}
