//! Comparisons of values. Each is a call, so that the text it prints on a failure is proved once, and not in every row.

use std::fmt::Debug;
use std::process::Abort;

/// Asserts that `got` equals `want`.
pub fn same<T: PartialEq + Debug>(rt: &impl Abort, got: &T, want: &T) {
    assert!(rt; got == want, "{got:?}, not {want:?}");
}

/// Asserts that `got` equals `want`, in this row of a table or pass of a loop.
pub fn same_at<R: Debug, T: PartialEq + Debug>(rt: &impl Abort, row: &R, got: &T, want: &T) {
    assert!(rt; got == want, "at {row:?}: {got:?}, not {want:?}");
}
