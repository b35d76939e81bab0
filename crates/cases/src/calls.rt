// One function for each kind of call: it lends what the case names, calls, and prints the line that answers it.
use crate::records::{self, RECORD};
use caseparts::head::Case;
use caseparts::lines::{Answer, Hex, Numbers};
use caseparts::{memory, parts};
use enhance::Settings;
use model::Counts;
use planes::Refusal;
use std::io;
use std::io::Write;

// Room for the output of a frame and of a list.
const OUTPUT: usize = 3200;

const LIST_OUTPUT: usize = 16400;

// What every byte of an output is before the call.
const FILL: u8 = 170;

pub fn intensity<W: Write>(
    out: &mut W,
    case: Case,
    frame: &[u8],
    plane: &mut [u8],
) -> io::Result<()> {
    let answer = colours::intensity(frame, case.shape.w, case.shape.h, plane);
    writeln!(out, "{} {}", Answer(answer), Hex(plane))
}

// A call to which an output is lent, a part of the room.
fn to_output<W: Write, T: Numbers + Drop, F: FnOnce(&mut [u8]) -> Result<T, Refusal>>(
    out: &mut W,
    case: Case,
    room: &mut [u8],
    call: F,
) -> io::Result<()>
    requires { F.IsAlwaysCallable call }
{
    let output = parts::front(room, case.output);
    let answer = call(output);
    writeln!(out, "{} {}", Answer(answer), Hex(output))
}

pub fn recolour<W: Write>(out: &mut W, case: Case, frame: &[u8], plane: &[u8]) -> io::Result<()> {
    to_output(out, case, &mut [FILL; OUTPUT], |output| {
        colours::recolour(frame, case.shape.w, case.shape.h, plane, output)
    })
}

// A call on the plane to which marks and queue are lent.
fn on_plane<W: Write, F: FnOnce(&mut [u8], &mut [u8], &mut [u32]) -> Result<Counts, Refusal>>(
    out: &mut W,
    case: Case,
    plane: &mut [u8],
    call: F,
) -> io::Result<()>
    requires { F.IsAlwaysCallable call }
{
    let (answer, strays) = memory::lent(case, plane, call);
    writeln!(out, "{} {} {strays}", Answer(answer), Hex(plane))
}

pub fn pass<W: Write>(out: &mut W, case: Case, plane: &mut [u8]) -> io::Result<()> {
    on_plane(out, case, plane, |plane, marks, queue| {
        passes::pass(plane, marks, queue, case.shape, case.pass)
    })
}

pub fn list<W: Write>(out: &mut W, case: Case, bytes: &[u8], plane: &mut [u8]) -> io::Result<()> {
    on_plane(out, case, plane, |plane, marks, queue| {
        passlists::run_list(bytes, plane, marks, queue, case.shape)
    })
}

pub fn passes<W: Write>(out: &mut W, case: Case, bytes: &[u8], plane: &mut [u8]) -> io::Result<()> {
    let (records, _) = bytes.as_chunks::<RECORD>();
    let list = records::passes_of(records);
    on_plane(out, case, plane, |plane, marks, queue| {
        passarrays::run_array(list, records.len(), plane, marks, queue, case.shape)
    })
}

pub fn convert<W: Write>(out: &mut W, case: Case, list: &[u8]) -> io::Result<()> {
    to_output(out, case, &mut [FILL; LIST_OUTPUT], |output| {
        passlists::convert(list, output)
    })
}

// An enhancement with these settings, up to the end of its line.
fn enhance_by<W: Write>(
    out: &mut W,
    case: Case,
    settings: Settings,
    frame: &[u8],
    plane: &mut [u8],
) -> io::Result<()> {
    let mut room = [FILL; OUTPUT];
    let output = parts::front(&mut room, case.output);
    let (answer, strays) = memory::lent(case, plane, |plane, marks, queue| {
        enhance::enhance(frame, case.shape, settings, plane, marks, queue, output)
    });
    write!(
        out,
        "{} {} {} {strays}",
        Answer(answer),
        Hex(plane),
        Hex(output)
    )
}

pub fn enhance<W: Write>(
    out: &mut W,
    case: Case,
    frame: &[u8],
    plane: &mut [u8],
) -> io::Result<()> {
    let pass = case.pass;
    let settings = Settings::new(case.last, pass.area, pass.rule, pass.neighbours);
    enhance_by(out, case, settings, frame, plane)?;
    writeln!(out)
}

// An enhancement with the house setting, which the line ends with.
pub fn house<W: Write>(out: &mut W, case: Case, frame: &[u8], plane: &mut [u8]) -> io::Result<()> {
    enhance_by(out, case, Settings::house(), frame, plane)?;
    writeln!(
        out,
        " {} {} {} {} {}",
        Settings::HOUSE_LAST,
        Settings::HOUSE_AREA,
        Settings::HOUSE_LOW,
        Settings::HOUSE_HIGH,
        Settings::HOUSE_NEIGHBOURS
    )
}

pub fn read<W: Write>(out: &mut W, case: Case, bytes: &[u8]) -> io::Result<()> {
    let answer = netpbm::read_within(bytes, case.limit);
    writeln!(out, "{}", Answer(answer))
}

pub fn write<W: Write>(out: &mut W, case: Case, raster: &[u8]) -> io::Result<()> {
    to_output(out, case, &mut [FILL; OUTPUT], |output| {
        netpbm::write(raster, case.shape.w, case.shape.h, output)
    })
}
