//! How far a frame was judged.
ghost use Rattle.std.specs.Prelude.{◌≤◌};
ghost use Rattle.up_frame.specs.declared.judged.TheConstants.{HEAD_SIZE};

use up_base::AttrName;

/// How many bytes the head of a frame has.
pub(crate) const HEAD_SIZE: usize = 8;

/// How far a frame was judged that isn't whole yet: the place of what is next, how many attributes and
/// bytes are to come, and the name that the next one follows.
#[derive(Clone, Copy, Debug)]
pub(crate) struct Judged {
    pub at: usize,
    pub left: u16,
    pub size: u32,
    pub before: Option<AttrName>,
    ghost behind_head: { HEAD_SIZE ≤ at },
}
