//! Lists of pieces of a text.

ghost use Rattle.std.specs.Prelude.{◌≡◌, ◌==◌, IfOk, map, not, length};
ghost use Rattle.std.specs.List.{filter, slice_split};
ghost use Rattle.sdp_notes.specs.Notes.{name_in, parameters_in, unknown_names};

use sdp_reader::bytes::{cut, field, trim};
use sdp_reader::is_known;
use std::alloc::{AllocError as OutOfMemory, Global};

/// Returns the pieces between the bytes `byte` of a text. Returns `Err` if memory runs out.
pub(crate) fn split(alloc: Global, byte: u8, text: &[u8]) -> Result<Vec<&[u8]>, OutOfMemory>
    ensures { IfOk result (λ pieces. map (λ piece. piece.now) pieces.items ≡ slice_split (λ x. x == byte) text.now) }
{
    let mut pieces = Vec::new(alloc);
    let mut rest = text;
    while let Some((piece, after)) = cut(byte, rest) {
        pieces.push(piece)?;
        rest = after;
    }
    pieces.push(rest)?;
    Ok(pieces)
}

/// Returns the parameters of the list of an attribute `fmtp`: the pieces between its semicolons, without the spaces and
/// tabs around them, if they aren't empty. Returns `Err` if memory runs out.
pub(crate) fn parameters_in(alloc: Global, list: &[u8]) -> Result<Vec<&[u8]>, OutOfMemory>
    ensures { IfOk result (λ found. map (λ parameter. parameter.now) found.items ≡ parameters_in list.now) }
{
    let found = split(alloc, b';', list)?;
    let pieces = found.as_slice();
    let mut parameters = Vec::new(alloc);
    for piece in pieces {
        let parameter = trim(piece);
        if !parameter.is_empty() {
            parameters.push(parameter)?;
        }
    }
    Ok(parameters)
}

/// Returns the name of a parameter: what stands before its first `=`.
pub(crate) fn name_in(parameter: &[u8]) -> &[u8]
    ensures { result.now ≡ name_in parameter.now }
{
    let (name, _) = field(b'=', parameter);
    name
}

/// Returns the names of the parameters that the reader doesn't know, in order. Returns `Err` if memory runs out.
pub(crate) fn unknown_names<'a>(
    alloc: Global,
    parameters: &[&'a [u8]],
) -> Result<Vec<&'a [u8]>, OutOfMemory>
    ensures { IfOk result (λ names. map (λ name. name.now) names.items
        ≡ unknown_names (map (λ parameter. parameter.now) parameters.now)) }
{
    let mut names = Vec::new(alloc);
    for parameter in parameters {
        let name = name_in(parameter);
        if !is_known(name) {
            names.push(name)?;
        }
    }
    Ok(names)
}
