// What tests compare with. A comparison of its own in each test, with its message, costs a second to prove.
use std::process::Abort;

/// Stops the test unless both are the same.
pub fn same<T: PartialEq + Copy>(rt: &impl Abort, at: &str, given: T, wanted: T) {
    assert!(rt; given == wanted, "{at}");
}

/// Stops the test unless this holds.
pub fn holds(rt: &impl Abort, at: &str, is_so: bool) {
    assert!(rt; is_so, "{at}");
}
