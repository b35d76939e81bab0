// P6 headers: their grammar, and its reading.
//
// Fields        the three numbers of a header, and the raster after it
// read_header   the header that begins the bytes
#![tactic(auto)]

ghost use Rattle.std.specs.Prelude.{◌≡◌, [], MatchOption};
ghost use Rattle.texts.specs.Ascii.{is_digit};
ghost use Rattle.gaps.specs.Bytes.{is_white};
ghost use Rattle.gaps.specs.Parsers.{left, made, one_byte, take_while};
ghost use Rattle.gaps.specs.Gaps.{gap};
ghost use Rattle.headers.specs.Grammar.{mark, numeral, field, header};
ghost use Rattle.headers.specs.Reading.{FirstDigit, read};

use gaps::Move;

// The greatest number of digits of a number in a header.
const DIGITS: usize = 6;

// The three numbers of a header, and the bytes after it.
#[derive(Clone, Copy, Debug, PartialEq, Eq)]
pub struct Fields<'a> {
    pub w: usize,
    pub h: usize,
    pub maxval: usize,
    pub raster: &'a [u8],
}

// The value of the digit that begins the bytes, and what follows it.
#[tactic(auto, using(crate::proofs::Numbers::first))]
fn read_digit(bytes: &[u8]) -> Option<(usize, &[u8])>
    ensures { MatchOption result (take_while is_digit bytes.now ≡ []) (λ p. FirstDigit bytes.now p.0 p.1.now) }
{
    let (byte, rest) = bytes.split_first()?;
    if !byte.is_ascii_digit() {
        return None;
    }
    Some((usize::from(*byte - b'0'), rest))
}

// The number whose digits begin the bytes, and what follows them.
#[tactic(auto, using(crate::proofs::Numbers::digits))]
fn read_number(bytes: &[u8]) -> Option<(usize, &[u8])>
    ensures { made result ≡ numeral bytes.now }
{
    let mut rest = bytes;
    let mut digits = 0;
    let mut value = 0;
    while let Some((digit, after)) = read_digit(rest) {
        if digits == DIGITS {
            return None;
        }
        value = 10 * value + digit;
        digits += 1;
        rest = after;
    }
    if digits == 0 {
        return None;
    }
    Some((value, rest))
}

// The number after a gap of one or more whitespace bytes and comments, and what follows it.
#[tactic(auto, unfolding(crate::specs::Grammar::field))]
fn read_field(bytes: &[u8]) -> Option<(usize, &[u8])>
    ensures { made result ≡ field gap bytes.now }
{
    read_number(gaps::skip_some(bytes)?)
}

// What follows one whitespace byte; a comment does not do.
fn skip_separator(bytes: &[u8]) -> Option<&[u8]>
    ensures { left result ≡ one_byte is_white bytes.now }
{
    let (byte, rest) = bytes.split_first()?;
    match gaps::sorted(*byte) {
        Move::Skip => Some(rest),
        _ => None,
    }
}

// What follows the mark P6.
fn skip_mark(bytes: &[u8]) -> Option<&[u8]>
    ensures { left result ≡ mark bytes.now }
{
    bytes.strip_prefix(b"P6")
}

// The whole header.
#[tactic(auto, unfolding(crate::specs::Grammar::header, crate::specs::Grammar::header_with))]
pub fn read_header(bytes: &[u8]) -> Option<Fields>
    ensures { read result ≡ header bytes.now }
{
    let rest = skip_mark(bytes)?;
    let (w, rest) = read_field(rest)?;
    let (h, rest) = read_field(rest)?;
    let (maxval, rest) = read_field(rest)?;
    let raster = skip_separator(rest)?;
    Some(Fields {
        w,
        h,
        maxval,
        raster,
    })
}
