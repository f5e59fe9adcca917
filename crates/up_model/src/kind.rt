ghost use Rattle.std.specs.Prelude.{◌≡◌, ◌↔◌, ◌==◌, IsTrue};
ghost use Rattle.std.specs.List.{list_any};
ghost use Rattle.std.specs.Option.{option_map};
ghost use Rattle.up_model.specs.Ends.{IsPath, is_source, is_sink, path_of};
ghost use Rattle.up_model.specs.Kinds.{IsWithinBounds, fan_out_of};
ghost use Rattle.up_model.specs.SetAttr.{IsAttribute};

use crate::{FanOut, MAX_BLOCK, MAX_LIMIT, MAX_PACKET, MAX_PATH, SinkForm, SourceForm, Value};
use up_base::{AttrName, Text};

/// What a pipe does, with the fields of its kind.
#[derive(Debug, Drop)]
pub enum Kind {
    /// Reads the bytes at a path of 1 to 4,096 bytes, up to `limit` of them, at most 2^40.
    Source {
        path: Text,
        form: SourceForm,
        limit: u64,
    },
    /// Writes what it takes to a path of 1 to 4,096 bytes.
    Sink {
        path: Text,
        form: SinkForm,
    },
    /// Passes on what it takes.
    Idem,
    /// Takes all and puts nothing out.
    Null,
    /// Passes on what it takes to each of its consumers.
    Dup,
    /// Takes the first `bytes` bytes off each packet, at most 1,048,576, and drops a packet that has fewer.
    Skip {
        bytes: u32,
    },
    /// Puts out each packet with this attribute, in place of one of its name, and drops one that would then have more than
    /// 64. A text or opaque value has at most 4,096 bytes.
    SetAttr {
        attr: AttrName,
        value: Value,
    },
    /// Puts out each packet without the attribute of this name.
    DelAttr {
        attr: AttrName,
    },
    /// Puts out the packets whose attribute of this name is a number from `low` to `high`, both included, and drops the
    /// others. `low` is at most `high`, and both have the unit of the attribute.
    MatchAttr {
        attr: AttrName,
        low: u64,
        high: u64,
    },
    /// Adds `by`, which is ticks of 1/27,000,000 second from -2^63 to 2^63 - 1, to each date of a packet, and takes away a
    /// date that would be below 0 or above 2^64 - 1.
    Delay {
        by: i64,
    },
}

fn has_zero(bytes: &[u8]) -> bool
    ensures { result ≡ list_any (λ byte. byte == 0) bytes.now }
{
    bytes.iter().any(|byte| *byte == 0)
}

/// Whether the path has 1 to 4,096 bytes, none of them zero.
fn is_path(path: &Text) -> bool
    ensures { IsTrue result ↔ IsPath path.now }
{
    let bytes = path.as_slice();
    !bytes.is_empty() && bytes.len() <= MAX_PATH && !has_zero(bytes)
}

/// Whether the value is legal. The name is one by its type: to read its bytes is what says so.
fn is_attribute(attr: &AttrName, value: &Value) -> bool
    ensures { IsTrue result ↔ IsAttribute attr.now value.now }
{
    let _name = attr.bytes();
    value.is_legal()
}

impl Kind {
    pub fn is_source(&self) -> bool
        ensures { result ≡ is_source self.now }
    {
        match self {
            Kind::Source { .. } => true,
            Kind::Sink { .. }
            | Kind::Idem
            | Kind::Null
            | Kind::Dup
            | Kind::Skip { .. }
            | Kind::SetAttr { .. }
            | Kind::DelAttr { .. }
            | Kind::MatchAttr { .. }
            | Kind::Delay { .. } => false,
        }
    }

    pub fn is_sink(&self) -> bool
        ensures { result ≡ is_sink self.now }
    {
        match self {
            Kind::Sink { .. } => true,
            Kind::Source { .. }
            | Kind::Idem
            | Kind::Null
            | Kind::Dup
            | Kind::Skip { .. }
            | Kind::SetAttr { .. }
            | Kind::DelAttr { .. }
            | Kind::MatchAttr { .. }
            | Kind::Delay { .. } => false,
        }
    }

    /// How many consumers its output can feed.
    pub fn fan_out(&self) -> FanOut
        ensures { result ≡ fan_out_of self.now }
    {
        match self {
            Kind::Sink { .. } | Kind::Null => FanOut::None,
            Kind::Source { .. }
            | Kind::Idem
            | Kind::Skip { .. }
            | Kind::SetAttr { .. }
            | Kind::DelAttr { .. }
            | Kind::MatchAttr { .. }
            | Kind::Delay { .. } => FanOut::One,
            Kind::Dup => FanOut::All,
        }
    }

    /// The path that a source reads or a sink writes.
    pub fn path(&self) -> Option<&Text>
        ensures { option_map (λ path. path.now) result ≡ path_of self.now }
    {
        match self {
            Kind::Source { path, .. } | Kind::Sink { path, .. } => Some(path),
            Kind::Idem
            | Kind::Null
            | Kind::Dup
            | Kind::Skip { .. }
            | Kind::SetAttr { .. }
            | Kind::DelAttr { .. }
            | Kind::MatchAttr { .. }
            | Kind::Delay { .. } => None,
        }
    }

    /// Whether its fields are within their bounds.
    pub fn is_within_bounds(&self) -> bool
        ensures { IsTrue result ↔ IsWithinBounds self.now }
    {
        match self {
            Kind::Source {
                path,
                form: SourceForm::Raw { block },
                limit,
            } => is_path(path) && 1 <= *block && *block <= MAX_BLOCK && *limit <= MAX_LIMIT,
            Kind::Source {
                path,
                form: SourceForm::Framed,
                limit,
            } => is_path(path) && *limit <= MAX_LIMIT,
            Kind::Sink {
                path,
                form: SinkForm::Raw | SinkForm::Framed,
            } => is_path(path),
            Kind::Skip { bytes } => *bytes <= MAX_PACKET,
            Kind::SetAttr { attr, value } => is_attribute(attr, value),
            Kind::MatchAttr { attr: _, low, high } => low <= high,
            // Every `i64` is a shift: the comparison always holds, and is what says so.
            Kind::Delay { by } => i64::MIN <= *by && *by <= i64::MAX,
            Kind::Idem | Kind::Null | Kind::Dup | Kind::DelAttr { .. } => true,
        }
    }
}
