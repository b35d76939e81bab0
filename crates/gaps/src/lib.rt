// What stands before each number of a P6 header: whitespace and comments.
//
// sorted      the header reader's next move, by the next byte
// skip_gap    what follows the whitespace and the comments that begin the bytes, if any do
// skip_some   the same, where some do
#![tactic(auto)]

ghost use Rattle.std.specs.Prelude.{◌≡◌, position};
ghost use Rattle.gaps.specs.Bytes.{is_white, not_white, ends_comment, move_for};
ghost use Rattle.gaps.specs.Gaps.{rest_of_comment, pieces, gap};
ghost use Rattle.gaps.specs.Parsers.{left, drop_while};

// What the header reader does next, by the next byte.
#[derive(Clone, Copy, Debug, PartialEq, Eq)]
pub enum Move {
    // A digit of this value: a number begins.
    Take(u8),
    // Whitespace: step over it.
    Skip,
    // A number sign: go on after the comment that it opens.
    Comment,
    // Any other byte: go no further.
    Stop,
}

// Header bytes sorted into digits, whitespace (TAB, LF, VT, FF and CR, which are 9 to 13, and space), the number sign,
// which opens a comment, and the rest.
#[tactic(auto, using(crate::proofs::Bytes::moves))]
pub fn sorted(byte: u8) -> Move
    ensures { result ≡ move_for byte }
{
    match byte {
        b'0'..=b'9' => Move::Take(byte - b'0'),
        _ => match byte {
            b'\t'..=b'\r' | b' ' => Move::Skip,
            b'#' => Move::Comment,
            _ => Move::Stop,
        },
    }
}

// Whether a byte ends a comment, as LF and CR do.
#[tactic(auto, unfolding(crate::specs::Bytes::ends_comment))]
fn ends_comment(byte: u8) -> bool
    ensures { result ≡ ends_comment byte }
{
    matches!(byte, b'\n' | b'\r')
}

// The place of the first byte that ends a comment.
fn comment_end(bytes: &[u8]) -> Option<usize>
    ensures { result ≡ position ends_comment bytes.now }
{
    bytes.iter().position(|b| ends_comment(*b))
}

// What follows the comment whose text begins the bytes, unless it has no end.
#[tactic(auto, using(crate::proofs::Comments::ends))]
fn skip_comment(bytes: &[u8]) -> Option<&[u8]>
    ensures { left result ≡ rest_of_comment bytes.now }
{
    let end = comment_end(bytes)?;
    Some(&bytes[end + 1..])
}

// Whether the reader steps over a byte.
#[tactic(auto, using(crate::proofs::Bytes::skips))]
fn is_skipped(byte: u8) -> bool
    ensures { result ≡ is_white byte }
{
    matches!(sorted(byte), Move::Skip)
}

// The place of the first byte that the reader does not step over.
fn white_end(bytes: &[u8]) -> Option<usize>
    ensures { result ≡ position not_white bytes.now }
{
    bytes.iter().position(|b| !is_skipped(*b))
}

// What follows the whitespace that begins the bytes.
#[tactic(auto, using(crate::proofs::Comments::whites))]
fn skip_white(bytes: &[u8]) -> &[u8]
    ensures { result.now ≡ drop_while is_white bytes.now }
{
    match white_end(bytes) {
        Some(end) => &bytes[end..],
        None => &bytes[bytes.len()..],
    }
}

// What follows any whitespace and comments that begin the bytes, unless a comment has no end. Whitespace is passed in
// one search: a turn for each of its bytes would take twice as long.
#[tactic(auto, using(crate::proofs::Comments::steps))]
pub fn skip_gap(bytes: &[u8]) -> Option<&[u8]>
    ensures { left result ≡ pieces bytes.now }
{
    let mut rest = bytes;
    while let Some((byte, after)) = rest.split_first() {
        match sorted(*byte) {
            Move::Skip => rest = skip_white(after),
            Move::Comment => rest = skip_comment(after)?,
            Move::Take(_) => return Some(rest),
            Move::Stop => return Some(rest),
        }
    }
    Some(rest)
}

// The same, where there are some.
#[tactic(auto, using(crate::proofs::Comments::begins), unfolding(crate::specs::Gaps::gap))]
pub fn skip_some(bytes: &[u8]) -> Option<&[u8]>
    ensures { left result ≡ gap bytes.now }
{
    match sorted(*bytes.first()?) {
        Move::Skip | Move::Comment => skip_gap(bytes),
        Move::Take(_) | Move::Stop => None,
    }
}
