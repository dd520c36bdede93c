//! The tokens of a C source, as spans of its bytes.
ghost use Rattle.std.specs.Prelude.{◌≡◌, ◌<◌, ◌≤◌, ◌+◌, [], length, drop, slice_index, slice_range, MatchOption, false, true};
ghost use Rattle.c_tables.specs.Tokens as words;
ghost use Rattle.c_tables.specs.Spans as spans;

/// Where a token stands: the place of its first byte, and the place after its last.
#[derive(Clone, Copy, Debug)]
pub struct Span {
    pub at: usize,
    pub end: usize,
}

fn is_white(byte: u8) -> bool
    ensures { result ≡ words.is_white byte }
{
    byte == b' ' || byte == b'\t' || byte == b'\n' || byte == b'\r'
}

pub fn is_digit(byte: u8) -> bool
    ensures { result ≡ words.is_digit byte }
{
    b'0' <= byte && byte <= b'9'
}

fn is_word(byte: u8) -> bool
    ensures { result ≡ words.is_word byte }
{
    (b'a' <= byte && byte <= b'z')
        || (b'A' <= byte && byte <= b'Z')
        || is_digit(byte)
        || byte == b'_'
}

fn is_mark(byte: u8) -> bool
    ensures { result ≡ words.is_mark byte }
{
    byte == b'"' || byte == b'\''
}

/// Whether a line ends at the front of the rest.
fn ends_line(rest: &[u8]) -> bool
    ensures { result ≡ words.ends_line rest.now }
{
    rest.starts_with(b"\n") || rest.starts_with(b"\r\n")
}

/// Whether a backslash stands at the front of the rest, directly before a line end.
fn is_joint(rest: &[u8]) -> bool
    ensures { result ≡ words.is_joint rest.now }
{
    match rest {
        [byte, after @ ..] => *byte == b'\\' && ends_line(after),
        [] => false,
    }
}

/// The end of the line of which a `//` comment takes what is left from here on.
fn line_comment_end(source: &[u8], from: usize) -> usize
    requires { from ≤ length source.now }
    ensures { spans.Closes source.now words.in_line_comment from result }
{
    'bytes: for at in from..source.len() {
        if ends_line(&source[at..]) {
            return at;
        }
    }
    source.len()
}

/// The place after the `*/` of a block comment, or the source's length where there is none.
fn block_comment_end(source: &[u8], from: usize) -> usize
    requires { from ≤ length source.now }
    ensures { spans.Closes source.now words.in_block_comment from result }
{
    'bytes: for at in from..source.len() {
        if source[at..].starts_with(b"*/") {
            return at + 2;
        }
    }
    source.len()
}

/// The place after the white space or the comment at a place, if there is one.
fn passed(source: &[u8], at: usize) -> Option<usize>
    requires { at < length source.now }
    ensures { MatchOption result (words.begins_gap (slice_index source.now at) (drop (at + 1) source.now) ≡ false) (λ end. (at < end) × (end ≤ length source.now) × (spans.left source.now at ≡ spans.left source.now end)) }
{
    let rest = &source[at..];
    if is_white(source[at]) || is_joint(rest) {
        return Some(at + 1);
    }
    if rest.starts_with(b"/*") {
        return Some(block_comment_end(source, at + 2));
    }
    if rest.starts_with(b"//") {
        return Some(line_comment_end(source, at + 1));
    }
    None
}

/// The place of the first token from here on, or the source's length where there is none.
fn token_start(source: &[u8], from: usize) -> usize
    requires { from ≤ length source.now }
    ensures later { from ≤ result }
    ensures within { result ≤ length source.now }
    ensures left { spans.left source.now from ≡ spans.left source.now result }
    ensures begins { result < length source.now → words.begins_gap (slice_index source.now result) (drop (result + 1) source.now) ≡ false }
{
    let mut at = from;
    'gaps: while at < source.len() {
        match passed(source, at) {
            Some(end) => at = end,
            None => return at,
        }
    }
    at
}

/// The place after the last byte of a word that goes on from here.
fn word_end(source: &[u8], from: usize) -> usize
    requires { from ≤ length source.now }
    ensures { spans.Ends source.now words.in_word from result }
{
    'bytes: for at in from..source.len() {
        if !is_word(source[at]) {
            return at;
        }
    }
    source.len()
}

/// The place after the last byte of a text that goes on from here: after its mark, or at the end of its line.
fn text_end(source: &[u8], from: usize, mark: u8) -> usize
    requires { from ≤ length source.now }
    ensures { spans.Ends source.now (words.in_text mark false) from result }
{
    let mut is_escaped = false;
    'bytes: for at in from..source.len() {
        if ends_line(&source[at..]) {
            return at;
        }
        if source[at] == mark && !is_escaped {
            return at + 1;
        }
        is_escaped = source[at] == b'\\' && !is_escaped;
    }
    source.len()
}

/// The place after the last byte of the token that begins here.
fn token_end(source: &[u8], at: usize) -> usize
    requires within { at < length source.now }
    requires begins { words.begins_gap (slice_index source.now at) (drop (at + 1) source.now) ≡ false }
    ensures { spans.Ends source.now (words.opened (slice_index source.now at) (drop (at + 1) source.now)) (at + 1) result }
{
    let byte = source[at];
    if is_word(byte) {
        word_end(source, at + 1)
    } else if is_mark(byte) {
        text_end(source, at + 1, byte)
    } else {
        at + 1
    }
}

/// The first token from here on, if there is one.
pub fn next(source: &[u8], from: usize) -> Option<Span>
    requires { from ≤ length source.now }
    ensures { MatchOption result (spans.left source.now from ≡ []) (λ span. spans.IsNext source.now from span) }
{
    let at = token_start(source, from);
    if at == source.len() {
        return None;
    }
    Some(Span {
        at,
        end: token_end(source, at),
    })
}

/// The bytes of a token.
pub fn text_of(source: &[u8], span: Span) -> &[u8]
    requires ordered { span.at ≤ span.end }
    requires within { span.end ≤ length source.now }
    ensures { result.now ≡ slice_range source.now span.at span.end }
{
    &source[span.at..span.end]
}
