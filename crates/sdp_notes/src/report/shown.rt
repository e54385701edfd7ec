//! Bytes of a session description as they are printed.

ghost use Rattle.std.specs.Prelude.{◌≡◌, ◌++◌, IfOk, codes, map, string_bytes};
ghost use Rattle.std.specs.List.{flat_map};
ghost use Rattle.sdp_notes.specs.report.Text.{hex_text, is_plain, more_names, names_text, quoted, shown, shown_byte};

use std::alloc::{AllocError as OutOfMemory, Global};

/// Returns whether a byte is printed as it is: printable ASCII other than a quote and a backslash.
fn is_plain(byte: u8) -> bool
    ensures { result ≡ is_plain byte }
{
    32 <= byte && (byte <= 126 && (byte != b'"' && byte != b'\\'))
}

/// Adds a byte as it is printed.
fn add_byte(text: &mut String, byte: u8) -> Result<(), OutOfMemory>
    ensures { IfOk result (λ _. string_bytes text.new ≡ string_bytes text.old ++ shown_byte byte) }
{
    if is_plain(byte) {
        text.push(char::from(byte))
    } else {
        write!(text, "\\x{byte:02x}")
    }
}

/// Adds bytes as they are printed.
fn add_shown(text: &mut String, bytes: &[u8]) -> Result<(), OutOfMemory>
    ensures { IfOk result (λ _. string_bytes text.new ≡ string_bytes text.old ++ shown bytes.now) }
{
    for byte in bytes {
        add_byte(text, *byte)?;
    }
    Ok(())
}

/// Returns bytes as they are printed. Returns `Err` if memory runs out.
pub(crate) fn shown(alloc: Global, bytes: &[u8]) -> Result<String, OutOfMemory>
    ensures { IfOk result (λ s. string_bytes s ≡ shown bytes.now) }
{
    let mut text = String::new(alloc);
    add_shown(&mut text, bytes)?;
    Ok(text)
}

/// Returns bytes as they are printed, between quotes. Returns `Err` if memory runs out.
pub(crate) fn quoted(alloc: Global, bytes: &[u8]) -> Result<String, OutOfMemory>
    ensures { IfOk result (λ s. string_bytes s ≡ quoted bytes.now) }
{
    let shown = shown(alloc, bytes)?;
    format!(in alloc; "\"{shown}\"")
}

/// Adds further names, each after a comma and a space.
fn add_more_names(alloc: Global, text: &mut String, names: &[&[u8]]) -> Result<(), OutOfMemory>
    ensures { IfOk result (λ _. string_bytes text.new
        ≡ string_bytes text.old ++ more_names (map (λ name. name.now) names.now)) }
{
    for name in names {
        let name = quoted(alloc, name)?;
        write!(text, ", {name}")?;
    }
    Ok(())
}

/// Returns names between quotes, with a comma and a space between them. Returns `Err` if memory runs out.
pub(crate) fn names_text(alloc: Global, names: &[&[u8]]) -> Result<String, OutOfMemory>
    ensures { IfOk result (λ s. string_bytes s ≡ names_text (map (λ name. name.now) names.now)) }
{
    match names {
        [] => Ok(String::new(alloc)),
        [first, others @ ..] => {
            let mut text = quoted(alloc, first)?;
            add_more_names(alloc, &mut text, others)?;
            Ok(text)
        }
    }
}
