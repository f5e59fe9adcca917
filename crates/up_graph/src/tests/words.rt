// What is read, in words that tables compare.
ghost use Rattle.std.specs.Prelude.{◌<◌, length, string_bytes, IfOk};

use crate::{GraphRefused, read_graph};
use std::string::String;
use std::test::*;
use up_model::{Graph, Kind, Pipe, SinkForm, SourceForm, Value};

/// A refusal with its numbers.
pub fn refusal_words(rt: &HostRuntime, refused: &GraphRefused) -> Result<String, Fail> {
    let alloc = rt.alloc();
    Ok(match refused {
        GraphRefused::TooBig { len } => format!(in alloc; "TooBig {len}")?,
        GraphRefused::NotToml => format!(in alloc; "NotToml")?,
        GraphRefused::BadVersion { got: Some(got) } => format!(in alloc; "BadVersion {got}")?,
        GraphRefused::BadVersion { got: None } => format!(in alloc; "BadVersion")?,
        GraphRefused::NoPipes => format!(in alloc; "NoPipes")?,
        GraphRefused::TooManyPipes { count } => format!(in alloc; "TooManyPipes {count}")?,
        GraphRefused::BadField { pipe, field } => {
            format!(in alloc; "{pipe}: {}", field.as_str())?
        }
        GraphRefused::SameName { pipe } => format!(in alloc; "SameName {pipe}")?,
        GraphRefused::ManyInputs { pipe } => format!(in alloc; "ManyInputs {pipe}")?,
        GraphRefused::UnknownInput { pipe } => format!(in alloc; "UnknownInput {pipe}")?,
        GraphRefused::Cycle { pipe } => format!(in alloc; "Cycle {pipe}")?,
        GraphRefused::ManyOutputs { pipe } => format!(in alloc; "ManyOutputs {pipe}")?,
        GraphRefused::NoOutput { pipe } => format!(in alloc; "NoOutput {pipe}")?,
        GraphRefused::WrongFlow { pipe } => format!(in alloc; "WrongFlow {pipe}")?,
        GraphRefused::SamePath { pipe } => format!(in alloc; "SamePath {pipe}")?,
        GraphRefused::TooManyWorkers { count } => format!(in alloc; "TooManyWorkers {count}")?,
        GraphRefused::NoMemory => format!(in alloc; "NoMemory")?,
    })
}

fn value_words(rt: &HostRuntime, value: &Value) -> Result<String, Fail>
    ensures { IfOk result (λ words. 0 < length (string_bytes words)) }
{
    let alloc = rt.alloc();
    match value {
        Value::Void => Ok(format!(in alloc; "void")?),
        Value::Flag(flag) => Ok(format!(in alloc; "flag {flag}")?),
        Value::Unsigned(number) => Ok(format!(in alloc; "number {number}")?),
        Value::Words(text) => Ok(format!(in alloc; "text '{}'", text.as_str())?),
        Value::Opaque(bytes) => Ok(format!(in alloc; "bytes {}", bytes.as_slice().len())?),
    }
}

fn kind_words(rt: &HostRuntime, kind: &Kind) -> Result<String, Fail>
    ensures { IfOk result (λ words. 0 < length (string_bytes words)) }
{
    let alloc = rt.alloc();
    Ok(match kind {
        Kind::Source {
            path,
            form: SourceForm::Raw { block },
            limit,
        } => format!(in alloc; "source {} {block} {limit}", path.as_str())?,
        Kind::Source {
            path,
            form: SourceForm::Framed,
            limit,
        } => format!(in alloc; "source {} framed {limit}", path.as_str())?,
        Kind::Sink {
            path,
            form: SinkForm::Raw,
        } => format!(in alloc; "sink {}", path.as_str())?,
        Kind::Sink {
            path,
            form: SinkForm::Framed,
        } => format!(in alloc; "sink {} framed", path.as_str())?,
        Kind::Idem => format!(in alloc; "idem")?,
        Kind::Null => format!(in alloc; "null")?,
        Kind::Dup => format!(in alloc; "dup")?,
        Kind::Skip { bytes } => format!(in alloc; "skip {bytes}")?,
        Kind::SetAttr { attr, value } => {
            let attr = std::str::from_utf8(attr.bytes())?;
            let value = value_words(rt, value)?;
            format!(in alloc; "setattr {attr} {value}")?
        }
        Kind::DelAttr { attr } => {
            let attr = std::str::from_utf8(attr.bytes())?;
            format!(in alloc; "delattr {attr}")?
        }
        Kind::MatchAttr { attr, low, high } => {
            let attr = std::str::from_utf8(attr.bytes())?;
            format!(in alloc; "match_attr {attr} {low} {high}")?
        }
        Kind::Delay { by } => format!(in alloc; "delay {by}")?,
    })
}

/// What is read of a pipe: its kind, and the place of its input.
pub fn pipe_words(rt: &HostRuntime, pipe: &Pipe) -> Result<String, Fail> {
    let kind = kind_words(rt, &pipe.kind)?;
    match pipe.input {
        Some(input) => Ok(format!(in rt.alloc(); "{kind} < {input}")?),
        None => Ok(kind),
    }
}

/// What a text gives of the pipe at a place, or its refusal.
pub fn answer(rt: &HostRuntime, text: &[u8], place: usize) -> Result<String, Fail> {
    match read_graph(rt.alloc(), text) {
        Ok(graph) => {
            if graph.pipes.len() <= place {
                return Ok(format!(in rt.alloc(); "no such pipe")?);
            }
            pipe_words(rt, graph.pipes.at(place))
        }
        Err(refused) => refusal_words(rt, &refused),
    }
}

/// The places of the inputs of all pipes.
pub fn input_words(rt: &HostRuntime, graph: &Graph) -> Result<String, Fail> {
    let mut words = String::new(rt.alloc());
    for place in 0..graph.pipes.len() {
        if place > 0 {
            words.push_str(" ")?;
        }
        match graph.pipes.at(place).input {
            Some(input) => {
                let number = format!(in rt.alloc(); "{input}")?;
                words.push_str(number.as_str())?;
            }
            None => words.push_str("-")?,
        }
    }
    Ok(words)
}
