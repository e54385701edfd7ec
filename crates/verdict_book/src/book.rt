//! A book of results, which only grows.

ghost use Rattle.std.specs.Prelude.{◌≡◌, IfErr, IfOk};

use boxcar::Pushed;
use std::alloc::{AllocError as OutOfMemory, Global};
use std::sync::Wait;
use timing_base::Row;

/// Results that threads have posted.
#[derive(Drop)]
pub struct Book {
    rows: boxcar::Vec<Row>,
}

/// Receipt of a posted result, for as long as the book exists.
#[derive(Drop)]
pub struct Receipt {
    place: Pushed<Row>,
}

impl Book {
    ghost use Rattle.verdict_book.specs.Receipts.{IsOf, row_of};

    /// Returns a book without results. Returns `Err` if memory runs out.
    pub fn new(alloc: Global) -> Result<Book, OutOfMemory> {
        Ok(Book {
            rows: boxcar::Vec::new(alloc)?,
        })
    }

    /// Posts a result. Returns `Err` with the result if memory runs out.
    ///
    /// The call may wait for a post of another thread. Its contract holds if it returns.
    pub fn post<R: Wait>(&self, rt: &R, row: Row) -> Result<Receipt, Row>
        ensures book { IfOk result (λ receipt. IsOf self.now receipt) }
        ensures row { IfOk result (λ receipt. row_of receipt ≡ row) }
        ensures back { IfErr result (λ back. back ≡ row) }
    {
        let place = self.rows.push_shown(rt, row)?;
        Ok(Receipt { place })
    }

    /// Returns the result that was posted for this receipt, at any time and on any thread. Allocates no memory, and
    /// never waits.
    pub fn read(&self, receipt: &Receipt) -> &Row
        requires book { IsOf self.now receipt.now }
        ensures row { result.now ≡ row_of receipt.now }
    {
        self.rows.value(&receipt.place)
    }
}
