//! Results that are posted and read, by one thread and by several.

ghost use Rattle.std.specs.Prelude.{IfSome};
ghost use Rattle.verdict_book.specs.Receipts.{IsOf};

use super::compare::same;
use std::process::Abort;
use std::sync::Wait;
use std::thread;
use std::thread::Threads;
use timing_base::{FlowKey, Row, Unjudged, Verdict};
use verdict_book::{Book, Receipt};

// The result of a flow that isn't judged, with this number.
fn row(number: u32) -> Row {
    Row {
        key: FlowKey {
            file: number,
            media: 1,
        },
        verdict: Verdict::Unjudged(Unjudged::NoWholeFrame {
            head: u64::from(number),
        }),
    }
}

// Asserts that this is the result with this number.
fn is_row(rt: &impl Abort, found: &Row, number: u32) {
    same(rt, &found.key.file, &number);
    let head = match &found.verdict {
        Verdict::Unjudged(Unjudged::NoWholeFrame { head }) => Some(*head),
        _ => None,
    };
    same(rt, &head, &Some(u64::from(number)));
}

#[test]
fn book_receipts(rt: HostRuntime) {
    let Ok(book) = Book::new(rt.alloc()) else {
        assert!(&rt; false, "there is memory");
        return;
    };
    let Ok(first) = book.post(&rt, row(3)) else {
        assert!(&rt; false, "there is memory");
        return;
    };
    let Ok(second) = book.post(&rt, row(8)) else {
        assert!(&rt; false, "there is memory");
        return;
    };
    is_row(&rt, book.read(&second), 8);
    is_row(&rt, book.read(&first), 3);
}

// Posts the result with this number.
fn post_one<R: Wait>(rt: &R, book: &Book, number: u32) -> Option<Receipt>
    ensures { IfSome result (λ receipt. IsOf book.now receipt) }
{
    book.post(rt, row(number)).ok()
}

// Two threads post at the same time, and one thread reads what both posted.
fn posts_of_two<R: Threads + Wait + Abort + Sync>(rt: &R, book: &Book) {
    let (first, second) = thread::join(rt, || post_one(rt, book, 3), || post_one(rt, book, 8));
    let Some(first) = first else {
        assert!(rt; false, "there is memory");
        return;
    };
    let Some(second) = second else {
        assert!(rt; false, "there is memory");
        return;
    };
    is_row(rt, book.read(&second), 8);
    is_row(rt, book.read(&first), 3);
}

#[test]
fn receipts_of_other_threads(rt: HostRuntime) {
    let Ok(book) = Book::new(rt.alloc()) else {
        assert!(&rt; false, "there is memory");
        return;
    };
    posts_of_two(&rt, &book);
}
