//! Splitting and trimming of bytes, and decimal numbers.

ghost use Rattle.std.specs.Prelude.{◌≡◌, ◌≤◌, ◌<◌, ◌==◌, length, MatchOption, IfSome, ⊤, true, false, ◌+◌, ◌∷◌, []};
ghost use Rattle.std.specs.Option.{option_copied};
ghost use Rattle.std.specs.List.{slice_split};
ghost use Rattle.std.specs.Str.{bytes_eq, str_eq_ignore_ascii_case};
ghost use Rattle.sdp_reader.specs.Bytes.{before, after, holds, after_prefix, trim, trim_end, trim_start, is_blank, digits_of, number, number_within};

use memchr::memchr;

/// Splits the text at the first `byte`, and returns what is before and after it, or `None` if it
/// isn't there.
pub fn cut(byte: u8, text: &[u8]) -> Option<(&[u8], &[u8])>
    ensures nowhere { MatchOption result (holds byte text.now ≡ false)
        (λ parts. holds byte text.now ≡ true) }
    ensures before { MatchOption result (before byte text.now ≡ text.now)
        (λ parts. parts.0.now ≡ before byte text.now) }
    ensures after { MatchOption result (after byte text.now ≡ [])
        (λ parts. parts.1.now ≡ after byte text.now) }
    ensures shorter { MatchOption result ⊤
        (λ parts. length parts.0.now + length parts.1.now + 1 ≡ length text.now) }
    ensures pieces { MatchOption result (slice_split (λ x. x == byte) text.now ≡ text.now ∷ [])
        (λ parts. slice_split (λ x. x == byte) text.now
        ≡ parts.0.now ∷ slice_split (λ x. x == byte) parts.1.now) }
{
    match memchr(byte, text) {
        Some(k) => Some((&text[..k], &text[k + 1..])),
        None => None,
    }
}

/// Splits the text at the first `byte`, and returns the first field and the rest. Without that byte
/// the field is the whole text and the rest is empty.
pub fn field(byte: u8, text: &[u8]) -> (&[u8], &[u8])
    ensures first { result.0.now ≡ before byte text.now }
    ensures rest { result.1.now ≡ after byte text.now }
{
    match cut(byte, text) {
        Some(parts) => parts,
        None => (text, &text[text.len()..]),
    }
}

/// Returns what follows a prefix, or `None` if the text doesn't begin with it.
pub fn strip<'a>(text: &'a [u8], prefix: &[u8]) -> Option<&'a [u8]>
    ensures { option_copied result ≡ after_prefix prefix.now text.now }
{
    let mut rest = text;
    for byte in prefix {
        match rest {
            [first, others @ ..] => {
                if *first != *byte {
                    return None;
                }
                rest = others;
            }
            [] => return None,
        }
    }
    Some(rest)
}

/// Returns whether two texts are equal.
pub(crate) fn is_same(one: &[u8], other: &[u8]) -> bool
    ensures { result ≡ bytes_eq one.now other.now }
{
    one == other
}

/// Returns whether two texts are equal, ignoring ASCII case.
pub(crate) fn is_same_word(one: &[u8], other: &[u8]) -> bool
    ensures { result ≡ str_eq_ignore_ascii_case one.now other.now }
{
    one.eq_ignore_ascii_case(other)
}

/// Returns whether the byte is a space or a tab.
fn is_blank(byte: u8) -> bool
    ensures { result ≡ is_blank byte }
{
    byte == b' ' || byte == b'\t'
}

/// Returns the text without the spaces and tabs at its end.
pub(crate) fn trim_end(text: &[u8]) -> &[u8]
    ensures value { result.now ≡ trim_end text.now }
    ensures shorter { length result.now ≤ length text.now }
{
    let mut end = text.len();
    while end > 0 && is_blank(text[end - 1]) {
        end -= 1;
    }
    &text[..end]
}

/// Returns the text without the spaces and tabs at its start.
fn trim_start(text: &[u8]) -> &[u8]
    ensures { result.now ≡ trim_start text.now }
{
    let mut begin = 0;
    while begin < text.len() && is_blank(text[begin]) {
        begin += 1;
    }
    &text[begin..]
}

/// Returns the text without the spaces and tabs around it.
pub fn trim(text: &[u8]) -> &[u8]
    ensures { result.now ≡ trim text.now }
{
    trim_start(trim_end(text))
}

/// Returns the value of 1 to `most` decimal digits, or `None` if the text is anything else.
pub(crate) fn digits_of(most: usize, text: &[u8]) -> Option<u64>
    requires { most ≤ 10 }
    ensures { result ≡ digits_of most text.now }
{
    if text.is_empty() || text.len() > most {
        return None;
    }
    let mut value = 0;
    for byte in text {
        if !byte.is_ascii_digit() {
            return None;
        }
        value = value * 10 + u64::from(*byte - b'0');
    }
    Some(value)
}

/// Returns the value of 1 to 10 decimal digits, or `None` if the text is anything else.
pub(crate) fn number(text: &[u8]) -> Option<u64>
    ensures { result ≡ number text.now }
{
    digits_of(10, text)
}

/// Returns the value of 1 to 10 decimal digits if it is from `low` to `high`.
pub(crate) fn number_within(low: u32, high: u32, text: &[u8]) -> Option<u32>
    ensures value { result ≡ number_within low high text.now }
    ensures range { IfSome result (λ n. (low ≤ n) × (n ≤ high)) }
{
    match number(text) {
        Some(n) if u64::from(low) <= n && n <= u64::from(high) => Some(n as u32),
        _ => None,
    }
}
