use thiserror::Error;
use up_model::Opt;

/// What is asked of a module before its flow.
#[derive(Clone, Copy, Debug, PartialEq, Eq)]
pub enum Command {
    /// The value of an option.
    Get(Opt),
    /// A new value of an option.
    Set(Opt, i128),
}

/// What a module answers.
#[derive(Clone, Copy, Debug, PartialEq, Eq)]
pub enum Reply {
    /// The value of the option.
    Value(i128),
    /// The option was set.
    Done,
}

/// Why a command was refused. The module is as before.
#[derive(Clone, Copy, Debug, PartialEq, Eq, Error)]
pub enum ControlRefused {
    #[error("the kind has no such option")]
    Unhandled,
    #[error("the value isn't from {low} to {high}")]
    Invalid { low: i128, high: i128 },
}
