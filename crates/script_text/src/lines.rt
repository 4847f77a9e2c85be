ghost use Rattle.std.specs.Prelude.{◌≡◌, ◌==◌, ◌<◌, ◌+◌, ◌↔◌, false, [], ◌∷◌, Some, get_or, length, position, if◌then◌else◌, IsTrue, MatchOption};
ghost use Rattle.std.specs.Str.Lines.{lines, strip_carriage_return};
ghost use Rattle.script_text.specs.FirstLine.{HasBadLine, IsFirstLine, is_other};
ghost use Rattle.script_text.specs.Lines.{is_blank, words_of, is_text_byte, is_text, is_comment};

fn is_blank(c: u8) -> bool
    ensures { result ≡ is_blank c }
{
    c == b' ' || c == b'\t'
}

fn first_blank(text: &[u8]) -> Option<usize>
    ensures { result ≡ position is_blank text.now }
{
    text.iter().position(|c| is_blank(*c))
}

// What stands before the first blank, and behind it.
fn first_part(text: &[u8]) -> (&[u8], &[u8])
    requires { 0 < length text.now }
    ensures parts { words_of text.now ≡ (if length result.0.now == 0 then words_of result.1.now else result.0.now ∷ words_of result.1.now) }
    ensures shorter { length result.1.now < length text.now }
{
    match first_blank(text) {
        Some(at) => (&text[..at], &text[at + 1..]),
        None => (text, &[]),
    }
}

/// The first word of a line and what stands behind it, if there is a word; words are parted by spaces and tabs.
pub fn first_word(line: &[u8]) -> Option<(&[u8], &[u8])>
    ensures { MatchOption result (words_of line.now ≡ []) (λ x. words_of line.now ≡ x.0.now ∷ words_of x.1.now) }
{
    let mut rest = line;
    'parts: while !rest.is_empty() {
        let (part, behind) = first_part(rest);
        if !part.is_empty() {
            return Some((part, behind));
        }
        rest = behind;
    }
    None
}

/// Whether a line has no word.
pub fn is_wordless(line: &[u8]) -> bool
    ensures { IsTrue result ↔ (words_of line.now ≡ []) }
{
    first_word(line).is_none()
}

fn is_text_byte(c: u8) -> bool
    ensures { result ≡ is_text_byte c }
{
    c == b'\t' || (b' ' <= c && c <= b'~')
}

/// Whether a line's first character is `#`.
pub fn is_comment(line: &[u8]) -> bool
    ensures { result ≡ is_comment line.now }
{
    match line {
        [b'#', ..] => true,
        _ => false,
    }
}

fn line_end(text: &[u8]) -> Option<usize>
    ensures { result ≡ position (λ c. c == 10) text.now }
{
    text.iter().position(|c| *c == b'\n')
}

// A line without the carriage return at its end, if it has one.
fn without_return(line: &[u8]) -> &[u8]
    ensures { result.now ≡ strip_carriage_return line.now }
{
    match line {
        [front @ .., b'\r'] => front,
        _ => line,
    }
}

/// The first line of a text, and the text behind it.
pub fn first_line(text: &[u8]) -> (&[u8], &[u8])
    requires { 0 < length text.now }
    ensures lines { lines text.now ≡ result.0.now ∷ lines result.1.now }
    ensures shorter { length result.1.now < length text.now }
{
    match line_end(text) {
        Some(end) => (without_return(&text[..end]), &text[end + 1..]),
        None => (text, &[]),
    }
}

// The place of the first byte that may not stand in a line.
fn first_other(text: &[u8]) -> Option<usize>
    ensures { result ≡ position is_other text.now }
{
    text.iter().position(|c| !is_text_byte(*c))
}

// Whether a carriage return stands at a place, with a line feed behind it.
fn is_return(text: &[u8], at: usize) -> bool
    requires { at < length text.now }
    ensures { IsTrue result ↔ ((get_or text.now at 0 ≡ 13) × (at + 1 < length text.now) × (get_or text.now (at + 1) 0 ≡ 10)) }
{
    text[at] == b'\r' && at + 1 < text.len() && text[at + 1] == b'\n'
}

// The line that ends at the first byte that may not stand in it, if it ends there.
fn line_before(text: &[u8], at: usize) -> Option<(&[u8], &[u8])>
    requires place { Some at ≡ position is_other text.now }
    requires within { at < length text.now }
    requires comment { is_comment text.now ≡ false }
    ensures { MatchOption result (HasBadLine text.now) (λ x. IsFirstLine text.now x.0.now x.1.now) }
{
    if text[at] == b'\n' {
        return Some((&text[..at], &text[at + 1..]));
    }
    if is_return(text, at) {
        return Some((&text[..at], &text[at + 2..]));
    }
    None
}

// The first line of a text that begins with no comment.
fn plain_line(text: &[u8]) -> Option<(&[u8], &[u8])>
    requires some { 0 < length text.now }
    requires comment { is_comment text.now ≡ false }
    ensures { MatchOption result (HasBadLine text.now) (λ x. IsFirstLine text.now x.0.now x.1.now) }
{
    match first_other(text) {
        Some(at) => line_before(text, at),
        None => Some((text, &[])),
    }
}

/// The first line of a text, and the text behind it; none where the line has a byte that may not stand in it. A comment may have any bytes.
pub fn text_line(text: &[u8]) -> Option<(&[u8], &[u8])>
    requires { 0 < length text.now }
    ensures { MatchOption result (HasBadLine text.now) (λ x. IsFirstLine text.now x.0.now x.1.now) }
{
    if is_comment(text) {
        return Some(first_line(text));
    }
    plain_line(text)
}
