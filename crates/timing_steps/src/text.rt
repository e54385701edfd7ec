//! Reads inputs into memory, up to a limit.

ghost use Rattle.std.specs.Prelude.{◌≡◌, ◌≤◌, ◌<◌, ◌++◌, ℕ, List, Some, IfOk, IsErrOf, length, take, vec_len};
ghost use Rattle.std.specs.Io.KnownBytes.{Consumes, IsAtEnd};
ghost use Rattle.timing_outside.specs.Causes.{Rose};
ghost use Rattle.timing_outside.specs.Shelves.{StaysAs};

use std::alloc::{AllocError as OutOfMemory, AllocFailed, Global};
use timing_outside::{OpenFault, Shelf, Source};

/// The bytes that one read asks for.
const PIECE: usize = 65_536;

/// Returns `size` bytes, all 0.
fn blank(alloc: Global, size: usize) -> Result<Vec<u8>, OutOfMemory>
    ensures { IfOk result (λ v. vec_len v ≡ size) }
{
    vec![in alloc; 0u8; size]
}

/// Reads once into `piece`, at most `room` bytes, and appends them to `text`. Returns the number of bytes that were
/// read.
fn read_more<S: Source>(
    source: &mut S,
    piece: &mut [u8],
    room: usize,
    text: &mut Vec<u8>,
) -> Result<usize, OpenFault>
    requires { room ≤ length piece.old }
    ensures bytes { IfOk result (λ n. (bs : List ℕ) × (length bs ≡ n) × (n ≤ room)
        × Consumes (S.left source.old) (S.left source.new) bs × (text.new.items ≡ text.old.items ++ bs)
        × (n ≡ 0 → 0 < room → IsAtEnd (S.left source.new))) }
    ensures name { S.name source.new ≡ S.name source.old }
    ensures later { S.faults source.old ≤ S.faults source.new }
    ensures failed { IsErrOf result OpenFault.Failed → Rose (S.faults source.old) (S.faults source.new) }
{
    let Ok(count) = source.read(&mut piece[..room]) else {
        return Err(OpenFault::Failed);
    };
    text.extend_from_slice(&piece[..count])?;
    Ok(count)
}

/// Returns the first bytes that the source has left, at most `most`.
pub fn read_front<S: Source>(
    alloc: Global,
    source: &mut S,
    most: usize,
) -> Result<Vec<u8>, OpenFault>
    ensures text { IfOk result (λ v. (t : List ℕ) → S.left source.old ≡ Some t → v.items ≡ take most t) }
    ensures name { S.name source.new ≡ S.name source.old }
    ensures later { S.faults source.old ≤ S.faults source.new }
    ensures failed { IsErrOf result OpenFault.Failed → Rose (S.faults source.old) (S.faults source.new) }
{
    let mut piece = blank(alloc, PIECE)?;
    let mut text = Vec::new(alloc);
    while text.len() < most {
        let room = (most - text.len()).min(piece.len());
        let count = read_more(source, &mut piece, room, &mut text)?;
        if count == 0 {
            break;
        }
    }
    Ok(text)
}

/// Returns the first bytes of the input with this name, at most `most`, and gives its source back to the shelf.
pub fn fetch_front<H: Shelf>(
    alloc: Global,
    shelf: &mut H,
    name: &str,
    most: usize,
) -> Result<Vec<u8>, OpenFault>
    ensures text { IfOk result (λ v. (t : List ℕ) → H.text shelf.old name.now ≡ Some t → v.items ≡ take most t) }
    ensures failed { IsErrOf result OpenFault.Failed → Rose (H.faults shelf.old name.now) (H.faults shelf.new name.now) }
    ensures there { IfOk result (λ _. ¬ H.lacks shelf.old name.now) }
    ensures stays { StaysAs H.text H.lacks H.faults shelf.old shelf.new }
{
    let mut source = shelf.fetch(name)?;
    let text = read_front(alloc, &mut source, most);
    shelf.give_back(source);
    text
}
