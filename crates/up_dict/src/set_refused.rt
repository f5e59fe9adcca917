ghost use Rattle.std.specs.Prelude.{◌≡◌};
ghost use Rattle.up_dict.specs.declared.set_refused.SetRefused.TheVariants.{NoMemory as OutOfMemory};

use thiserror::Error;
use up_base::NoMemory;
use up_model::{MAX_ATTRS, MAX_VALUE};

/// Why an attribute wasn't set. The value is looked at first, then the number of attributes.
#[derive(Clone, Copy, Debug, PartialEq, Eq, Error)]
pub enum SetRefused {
    /// The value has so many bytes, more than `MAX_VALUE`.
    #[error("{len} bytes, where a value has at most {most}", most = MAX_VALUE)]
    TooLong { len: usize },
    /// The name is new, and so many attributes are there: `MAX_ATTRS`.
    #[error("{count} attributes are there, and at most {most} may be", most = MAX_ATTRS)]
    TooMany { count: usize },
    #[error("out of memory")]
    NoMemory,
}

impl From<NoMemory> for SetRefused {
    ghost from_gives = { λ _ refusal. refusal ≡ OutOfMemory };

    fn from(_: NoMemory) -> SetRefused {
        SetRefused::NoMemory
    }
}
