//! Notes on the list of an attribute `fmtp`.

ghost use Rattle.std.specs.Prelude.{◌≡◌, ◌++◌, IfOk, OnOk, map};
ghost use Rattle.std.specs.List.{flat_map};
ghost use Rattle.sdp_notes.specs.Notes.{comma_notes, is_meant, list_notes, near_notes, parameter_notes, unknown_notes};
ghost use Rattle.sdp_notes.specs.Seen.{note_of};

use crate::near::meant;
use crate::note::Note;
use crate::pieces::{name_in, parameters_in, split, unknown_names};
use sdp_reader::bytes::trim;
use sdp_reader::is_known;
use std::alloc::{AllocError as OutOfMemory, Global};

/// Adds the note on unknown names, if there are any.
fn add_unknown<'a>(
    notes: &mut Vec<Note<'a>>,
    line: u32,
    names: Vec<&'a [u8]>,
) -> Result<(), OutOfMemory>
    ensures { OnOk result (map note_of notes.new.items
        ≡ map note_of notes.old.items ++ unknown_notes line (map (λ name. name.now) names.entry.items)) }
{
    if !names.is_empty() {
        notes.push(Note::Unknown { line, names })?;
    }
    Ok(())
}

/// Adds the note on a name that is unknown and near a known one.
fn add_near<'a>(
    alloc: Global,
    notes: &mut Vec<Note<'a>>,
    line: u32,
    name: &'a [u8],
) -> Result<(), OutOfMemory>
    ensures { OnOk result (map note_of notes.new.items
        ≡ map note_of notes.old.items ++ near_notes line name.now) }
{
    if is_known(name) {
        return Ok(());
    }
    if let Some(known) = meant(alloc, name)? {
        notes.push(Note::Near { line, name, known })?;
    }
    Ok(())
}

/// Returns whether a name is known or near a known one.
fn is_meant(alloc: Global, name: &[u8]) -> Result<bool, OutOfMemory>
    ensures { IfOk result (λ is. is ≡ is_meant name.now) }
{
    if is_known(name) {
        return Ok(true);
    }
    Ok(meant(alloc, name)?.is_some())
}

/// Adds the note on a piece behind a comma, if it looks like a parameter.
fn add_comma<'a>(
    alloc: Global,
    notes: &mut Vec<Note<'a>>,
    line: u32,
    piece: &'a [u8],
) -> Result<(), OutOfMemory>
    ensures { OnOk result (map note_of notes.new.items
        ≡ map note_of notes.old.items ++ comma_notes line piece.now) }
{
    let name = name_in(trim(piece));
    if is_meant(alloc, name)? {
        notes.push(Note::Comma { line, name })?;
    }
    Ok(())
}

/// Adds the notes on the pieces behind the commas of a parameter.
fn add_commas<'a>(
    alloc: Global,
    notes: &mut Vec<Note<'a>>,
    line: u32,
    pieces: &[&'a [u8]],
) -> Result<(), OutOfMemory>
    ensures { OnOk result (map note_of notes.new.items
        ≡ map note_of notes.old.items ++ flat_map (comma_notes line) (map (λ piece. piece.now) pieces.now)) }
{
    for piece in pieces {
        add_comma(alloc, notes, line, piece)?;
    }
    Ok(())
}

/// Adds the notes on one parameter: on its name, then on its commas.
fn add_parameter<'a>(
    alloc: Global,
    notes: &mut Vec<Note<'a>>,
    line: u32,
    parameter: &'a [u8],
) -> Result<(), OutOfMemory>
    ensures { OnOk result (map note_of notes.new.items
        ≡ map note_of notes.old.items ++ parameter_notes line parameter.now) }
{
    add_near(alloc, notes, line, name_in(parameter))?;
    let pieces = split(alloc, b',', parameter)?;
    match pieces.as_slice() {
        [_, behind @ ..] => add_commas(alloc, notes, line, behind),
        [] => Ok(()),
    }
}

/// Adds the notes on parameters, one by one.
fn add_parameters<'a>(
    alloc: Global,
    notes: &mut Vec<Note<'a>>,
    line: u32,
    parameters: &[&'a [u8]],
) -> Result<(), OutOfMemory>
    ensures { OnOk result (map note_of notes.new.items
        ≡ map note_of notes.old.items
        ++ flat_map (parameter_notes line) (map (λ parameter. parameter.now) parameters.now)) }
{
    for parameter in parameters {
        add_parameter(alloc, notes, line, parameter)?;
    }
    Ok(())
}

/// Adds the notes on the list of an attribute `fmtp`: on its unknown names, then on its parameters one by one. Returns
/// `Err` if memory runs out.
pub(crate) fn add_list<'a>(
    alloc: Global,
    notes: &mut Vec<Note<'a>>,
    line: u32,
    list: &'a [u8],
) -> Result<(), OutOfMemory>
    ensures { OnOk result (map note_of notes.new.items
        ≡ map note_of notes.old.items ++ list_notes line list.now) }
{
    let parameters = parameters_in(alloc, list)?;
    let names = unknown_names(alloc, parameters.as_slice())?;
    add_unknown(notes, line, names)?;
    add_parameters(alloc, notes, line, parameters.as_slice())
}
