//! Lines that `tidy` left out of a text.

/// What stands before the bytes of a line that `tidy` left out, so that it is a comment.
pub const LEFT_OUT: &[u8] = b";left out: ";
