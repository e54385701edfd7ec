//! Arguments and file names, as printed on a terminal.

use std::alloc::{AllocError as OutOfMemory, Global};

/// The length after which no further character of an argument is printed, in bytes.
const MOST: usize = 1000;

/// Returns whether a terminal would interpret the character, or lay out others by it, instead of
/// printing it: a control character, a mark or isolate of text direction, a character without
/// width, or a line or paragraph separator.
fn is_hidden(ch: char) -> bool {
    matches!(
        ch as u32,
        0..=0x1f
            | 0x7f..=0x9f
            | 0xad
            | 0x61c
            | 0x180e
            | 0x200b..=0x200f
            | 0x2028..=0x202e
            | 0x2060..=0x206f
            | 0xfeff
            | 0xfff9..=0xfffb
            | 0xe0000..=0xe007f
    )
}

/// Appends a character, escaped if it is hidden.
fn add_shown(text: &mut String, ch: char) -> Result<(), OutOfMemory> {
    if is_hidden(ch) {
        write!(text, "\\u{{{:x}}}", ch as u32)
    } else {
        text.push(ch)
    }
}

/// Returns an argument or file name as it is printed: hidden characters are escaped, as in
/// `\u{202e}`, and `..` replaces what follows the first 1,000 bytes. Returns `Err` if memory runs
/// out.
pub fn shown(alloc: Global, text: &str) -> Result<String, OutOfMemory> {
    let mut shown = String::new(alloc);
    for ch in text.chars() {
        if shown.len() >= MOST {
            shown.push_str("..")?;
            return Ok(shown);
        }
        add_shown(&mut shown, ch)?;
    }
    Ok(shown)
}

/// Returns an argument for use in a sentence: in quotes if it is empty or has a space.
pub(crate) fn quoted(alloc: Global, word: &str) -> Result<String, OutOfMemory> {
    let shown = shown(alloc, word)?;
    if word.is_empty() || word.contains(" ") {
        format!(in alloc; "\"{shown}\"")
    } else {
        Ok(shown)
    }
}
