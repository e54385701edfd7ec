//! The results of a run, from the receipts of its workers.

ghost use Rattle.std.specs.Prelude.{◌≡◌, ◌≤◌, ◌<◌, ◌++◌, IfOk, length, map, slice_index_or};
ghost use Rattle.std.specs.Vec.Iter.{into_iter_items};
ghost use Rattle.timing_base.specs.Keys.{keys_of_file, keys_of_files};
ghost use Rattle.timing_base.specs.declared.key.FlowKey.{FlowKey as KeyValue};
ghost use Rattle.timing_base.specs.declared.row.Row.{Row as RowValue};
ghost use Rattle.flow_worker.specs.crew.Gathering.{AreQueued, IsKeyOf};

use std::alloc::{AllocError as OutOfMemory, Global};
use std::vec::IntoIter;
use timing_base::{FlowKey, Row, route};
use verdict_book::{Book, Receipt};

/// Appends the keys of the media of a file, in order. Returns `Err` if memory runs out.
fn push_keys(keys: &mut Vec<FlowKey>, file: u32, media: u32) -> Result<(), OutOfMemory>
    ensures { IfOk result (λ _. keys.new.items ≡ keys.old.items ++ keys_of_file file 0 media) }
{
    for number in 0..media {
        keys.push(FlowKey {
            file,
            media: number,
        })?;
    }
    Ok(())
}

/// Returns the keys of `files` files, by file and then by media. Returns `Err` if memory runs out.
pub fn list_keys(alloc: Global, files: u32, media: u32) -> Result<Vec<FlowKey>, OutOfMemory>
    ensures { IfOk result (λ keys. keys.items ≡ keys_of_files 0 files media) }
{
    let mut keys = Vec::new(alloc);
    for file in 0..files {
        push_keys(&mut keys, file, media)?;
    }
    Ok(keys)
}

/// Copies the results of these keys out of the book, in their order. Each worker's receipts must be those of the keys
/// that are dealt to it, in their order. Returns `Err` if memory runs out.
pub fn gather(
    alloc: Global,
    book: &Book,
    keys: &[FlowKey],
    media: u32,
    workers: u32,
    queues: Vec<IntoIter<Receipt>>,
) -> Result<Vec<Row>, OutOfMemory>
    requires keys { (i : _) (d : KeyValue) → i < length keys.now → IsKeyOf media (slice_index_or keys.now i d) }
    requires few_media { media ≤ 64 }
    requires some_workers { 1 ≤ workers }
    requires few_workers { workers ≤ 16 }
    requires count { length queues.items ≡ workers }
    requires queued { (row_for : KeyValue → RowValue) × AreQueued book.now row_for media workers keys.now
        (map (λ q. into_iter_items q) queues.items) }
    ensures { IfOk result (λ rows. (row_for : KeyValue → RowValue)
        → AreQueued book.now row_for media workers keys.now (map (λ q. into_iter_items q) queues.items)
        → rows.items ≡ map row_for keys.now) }
{
    let mut queues = queues;
    let mut rows = Vec::new(alloc);
    for key in keys.iter() {
        let worker = route(*key, media, workers) as usize;
        let Some(receipt) = queues[worker].next() else {
            unreachable!()
        };
        rows.push(book.read(&receipt).try_copy(alloc)?)?;
    }
    Ok(rows)
}
