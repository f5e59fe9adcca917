use thiserror::Error;
use up_base::Text;
use up_model::{MAX_GRAPH, MAX_PIPES, MAX_WORKERS};

/// The first rule of a graph file that a text breaks. The rules are looked at in the order of the variants, each at the
/// first pipe that breaks it. Pipes are numbered from 1.
#[derive(Debug, Drop, Error)]
pub enum GraphRefused {
    #[error("{len} bytes, where a graph file has at most {most}", most = MAX_GRAPH)]
    TooBig { len: usize },
    /// The text isn't UTF-8, or no TOML document.
    #[error("not a TOML document")]
    NotToml,
    /// `version` isn't the integer 1. The integer that stands there, if one does.
    #[error("the version is not 1")]
    BadVersion { got: Option<i64> },
    /// `pipe` is missing or an empty array.
    #[error("no pipes")]
    NoPipes,
    /// `pipe` is an array of more than 256.
    #[error("{count} pipes, where a graph has at most {most}", most = MAX_PIPES)]
    TooManyPipes { count: usize },
    /// The least wrong field of the pipe of this number, or at the top of the file, where the number is 0.
    #[error("pipe {pipe}: bad field {}", .field.as_str())]
    BadField { pipe: u16, field: Text },
    /// Its name stands on an earlier pipe.
    #[error("pipe {pipe}: name used twice")]
    SameName { pipe: u16 },
    /// Its `input` is an array of two or more texts.
    #[error("pipe {pipe}: more than one input")]
    ManyInputs { pipe: u16 },
    /// Its `input` is no pipe's name.
    #[error("pipe {pipe}: unknown input")]
    UnknownInput { pipe: u16 },
    /// Following inputs from it never reaches a source.
    #[error("pipe {pipe}: cycle")]
    Cycle { pipe: u16 },
    /// It has two or more consumers, where its output can feed one.
    #[error("pipe {pipe}: more than one output")]
    ManyOutputs { pipe: u16 },
    /// It has an output and no consumer.
    #[error("pipe {pipe}: no output")]
    NoOutput { pipe: u16 },
    /// Its input has no output.
    #[error("pipe {pipe}: wrong flow")]
    WrongFlow { pipe: u16 },
    /// Its path stands on an earlier pipe, and they aren't both sources.
    #[error("pipe {pipe}: path used twice")]
    SamePath { pipe: u16 },
    /// There are more than 16 different workers. This doesn't come while every pipe is on one.
    #[error("{count} workers, where a graph has at most {most}", most = MAX_WORKERS)]
    TooManyWorkers { count: usize },
    /// No memory was found. This may come at any point.
    #[error("out of memory")]
    NoMemory,
}
