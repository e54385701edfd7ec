//! Escaped text for HTML and SVG.

ghost use Rattle.std.specs.Prelude.{◌≡◌, ◌++◌, IfOk, string_bytes, encode_utf8_all};
ghost use Rattle.flow_page.specs.chart.Escapes.{escaped, written};

use std::alloc::AllocError as OutOfMemory;

/// Adds one character, escaped if needed.
fn add_char(text: &mut String, c: char) -> Result<(), OutOfMemory>
    ensures { IfOk result (λ _. string_bytes text.new ≡ string_bytes text.old ++ encode_utf8_all (written c)) }
{
    match c {
        '&' => text.push_str("&amp;"),
        '<' => text.push_str("&lt;"),
        '>' => text.push_str("&gt;"),
        '"' => text.push_str("&quot;"),
        '\'' => text.push_str("&#39;"),
        _ => text.push(c),
    }
}

/// Adds a string as text of HTML or SVG. `&`, `<`, `>` and both quotes are written as references, so that no part of
/// the string is read as markup.
pub fn add_escaped(text: &mut String, plain: &str) -> Result<(), OutOfMemory>
    ensures { IfOk result (λ _. string_bytes text.new ≡ string_bytes text.old ++ escaped plain.now) }
{
    for c in plain.chars() {
        add_char(text, c)?;
    }
    Ok(())
}
