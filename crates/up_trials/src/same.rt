// Comparisons by a call, which is proved faster than a macro: that is a branch of the test itself.
use std::fmt::Debug;
use std::process::Abort;

/// Both are the same, in the case of this number.
pub(crate) fn assert_same_at<T: PartialEq + Debug + Drop>(
    rt: &impl Abort,
    left: T,
    right: T,
    case: usize,
) {
    assert_eq!(rt; left, right, "{case}");
}
