//! Names that are nearly that of a known parameter.

ghost use Rattle.std.specs.Prelude.{◌≡◌, IfOk, find, not};
ghost use Rattle.std.specs.List.{filter};
ghost use Rattle.std.specs.Option.{option_map};
ghost use Rattle.std.specs.Str.{bytes_eq, str_to_ascii_lowercase};
ghost use Rattle.sdp_reader.specs.Bytes.{is_blank};
ghost use Rattle.sdp_notes.specs.Near.{bare, is_within_an_edit, known_names, meant};

use std::alloc::{AllocError as OutOfMemory, Global};

/// Returns a name without its spaces and tabs, in lower case. Returns `Err` if memory runs out.
fn bare(alloc: Global, name: &[u8]) -> Result<Vec<u8>, OutOfMemory>
    ensures { IfOk result (λ bare_name. bare_name.items ≡ bare name.now) }
{
    let mut letters = Vec::new(alloc);
    for byte in name {
        if !matches!(*byte, b' ' | b'\t') {
            letters.push(byte.to_ascii_lowercase())?;
        }
    }
    Ok(letters)
}

/// Returns whether two texts are equal.
fn is_same(one: &[u8], other: &[u8]) -> bool
    ensures { result ≡ bytes_eq one.now other.now }
{
    one == other
}

/// Returns whether at most one edit makes one text of the other: a byte that is added, removed or changed.
fn is_within_an_edit(one: &[u8], other: &[u8]) -> bool
    ensures { result ≡ is_within_an_edit one.now other.now }
{
    let (mut one, mut other) = (one, other);
    while let [x, xs @ ..] = one {
        let [y, ys @ ..] = other else {
            return xs.is_empty();
        };
        if *x != *y {
            return is_same(xs, ys) || (is_same(xs, other) || is_same(one, ys));
        }
        one = xs;
        other = ys;
    }
    other.len() <= 1
}

/// Returns the known parameter that a name without blanks, in lower case, is near.
fn nearest(name: &[u8]) -> Option<&'static str>
    ensures { option_map (λ known. known.now) result
        ≡ find (λ known. is_within_an_edit name.now (str_to_ascii_lowercase known)) known_names }
{
    if is_within_an_edit(name, b"width") {
        Some("width")
    } else if is_within_an_edit(name, b"height") {
        Some("height")
    } else if is_within_an_edit(name, b"exactframerate") {
        Some("exactframerate")
    } else if is_within_an_edit(name, b"interlace") {
        Some("interlace")
    } else if is_within_an_edit(name, b"segmented") {
        Some("segmented")
    } else if is_within_an_edit(name, b"tp") {
        Some("TP")
    } else if is_within_an_edit(name, b"troff") {
        Some("TROFF")
    } else if is_within_an_edit(name, b"cmax") {
        Some("CMAX")
    } else if is_within_an_edit(name, b"maxudp") {
        Some("MAXUDP")
    } else {
        None
    }
}

/// Returns the first known parameter that a name is near, as the standards write it: their names are equal without
/// spaces, tabs and regard to ASCII case, but for at most one byte that is added, removed or changed. Returns `Err` if
/// memory runs out.
pub fn meant(alloc: Global, name: &[u8]) -> Result<Option<&'static str>, OutOfMemory>
    ensures { IfOk result (λ found. option_map (λ known. known.now) found ≡ meant name.now) }
{
    let letters = bare(alloc, name)?;
    Ok(nearest(letters.as_slice()))
}
