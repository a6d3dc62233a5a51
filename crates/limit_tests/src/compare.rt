//! A comparison of a test. It stands once, since an `assert_eq!` is proved anew wherever it stands.
use std::fmt::Debug;
use std::process::Abort;

/// Ends the test with both values where they differ; the text says at what.
pub fn assert_same<T: PartialEq + Debug>(rt: &impl Abort, at: &str, found: &T, wanted: &T) {
    assert_eq!(rt; *found, *wanted, "at {at}");
}
