ghost use Rattle.std.specs.Prelude.{◌≡◌, ◌++◌, ◌<◌, decimal, codes, IfOk, OnOk, OnErr};
ghost use Rattle.up_report.specs.Lines.{hex_digit, is_plain, escape, escaped, pipe_text, told_of_pipe, refusal_text, fault_text, fault_bytes};

use crate::fault::Fault;
use std::alloc::Global;
use up_base::{Bytes, NoMemory, push_decimal};
use up_graph::GraphRefused;

/// A digit to the base 16.
fn hex_digit(digit: u8) -> u8
    requires { digit < 16 }
    ensures { result ≡ hex_digit digit }
{
    if digit < 10 {
        b'0' + digit
    } else {
        b'a' - 10 + digit
    }
}

/// Whether the byte is printed as it is.
fn is_plain(byte: u8) -> bool
    ensures { result ≡ is_plain byte }
{
    (0x20..=0x7e).contains(&byte) && byte != b'\\'
}

/// Adds the byte as it is printed.
fn push_escaped(text: &mut Bytes, byte: u8) -> Result<(), NoMemory>
    ensures added { OnOk result (text.new ≡ text.old ++ escape byte) }
    ensures unchanged { OnErr result (text.new ≡ text.old) }
{
    if is_plain(byte) {
        return text.push(byte);
    }
    text.append(&[b'\\', b'x', hex_digit(byte / 16), hex_digit(byte % 16)])
}

/// The field as it is printed.
fn escaped(alloc: Global, field: &[u8]) -> Result<Bytes, NoMemory>
    ensures { IfOk result (λ text. text ≡ escaped field.now) }
{
    let mut text = Bytes::new(alloc);
    for byte in field {
        push_escaped(&mut text, *byte)?;
    }
    Ok(text)
}

/// The words, and then the name.
fn named(alloc: Global, words: &str, name: &[u8]) -> Result<Bytes, NoMemory>
    ensures { IfOk result (λ text. text ≡ words.now ++ name.now) }
{
    let mut text = Bytes::from_slice(alloc, words.as_bytes())?;
    text.append(name)?;
    Ok(text)
}

/// The words, and then the number.
fn numbered(alloc: Global, words: &str, number: u64) -> Result<Bytes, NoMemory>
    ensures { IfOk result (λ text. text ≡ words.now ++ decimal number) }
{
    let mut text = Bytes::from_slice(alloc, words.as_bytes())?;
    push_decimal(&mut text, number)?;
    Ok(text)
}

/// The pipe of a number, or the top of the graph file, whose number is 0.
fn pipe_text(alloc: Global, pipe: u16) -> Result<Bytes, NoMemory>
    ensures { IfOk result (λ text. text ≡ pipe_text pipe) }
{
    if pipe == 0 {
        return Bytes::from_slice(alloc, b"top");
    }
    numbered(alloc, "pipe ", u64::from(pipe))
}

/// What is told of a pipe of a graph file.
fn told_of_pipe(alloc: Global, pipe: u16, words: &[u8]) -> Result<Bytes, NoMemory>
    ensures { IfOk result (λ text. text ≡ told_of_pipe pipe words.now) }
{
    let mut text = Bytes::from_slice(alloc, b"upipe: graph: ")?;
    text.append(pipe_text(alloc, pipe)?.as_slice())?;
    text.append(b": ")?;
    text.append(words)?;
    Ok(text)
}

/// What is told of a wrong field.
fn field_text(alloc: Global, pipe: u16, field: &[u8]) -> Result<Bytes, NoMemory>
    ensures { IfOk result (λ text. text
        ≡ told_of_pipe pipe (codes "bad field " ++ escaped field.now)) }
{
    let mut words = Bytes::from_slice(alloc, b"bad field ")?;
    words.append(escaped(alloc, field)?.as_slice())?;
    told_of_pipe(alloc, pipe, words.as_slice())
}

/// What is told of a graph file.
fn refusal_text(alloc: Global, refused: &GraphRefused) -> Result<Bytes, NoMemory>
    ensures { IfOk result (λ text. text ≡ refusal_text refused.now) }
{
    match refused {
        GraphRefused::TooBig { .. } => Bytes::from_slice(alloc, b"upipe: graph: too big"),
        GraphRefused::NotToml => Bytes::from_slice(alloc, b"upipe: graph: not toml"),
        GraphRefused::BadVersion { .. } => Bytes::from_slice(alloc, b"upipe: graph: bad version"),
        GraphRefused::NoPipes => Bytes::from_slice(alloc, b"upipe: graph: no pipes"),
        GraphRefused::TooManyPipes { count } => {
            numbered(alloc, "upipe: graph: too many pipes: ", *count as u64)
        }
        GraphRefused::BadField { pipe, field } => field_text(alloc, *pipe, field.as_slice()),
        GraphRefused::SameName { pipe } => told_of_pipe(alloc, *pipe, b"name used twice"),
        GraphRefused::ManyInputs { pipe } => told_of_pipe(alloc, *pipe, b"more than one input"),
        GraphRefused::UnknownInput { pipe } => told_of_pipe(alloc, *pipe, b"unknown input"),
        GraphRefused::Cycle { pipe } => told_of_pipe(alloc, *pipe, b"cycle"),
        GraphRefused::ManyOutputs { pipe } => told_of_pipe(alloc, *pipe, b"more than one output"),
        GraphRefused::NoOutput { pipe } => told_of_pipe(alloc, *pipe, b"no output"),
        GraphRefused::WrongFlow { pipe } => told_of_pipe(alloc, *pipe, b"wrong flow"),
        GraphRefused::SamePath { pipe } => told_of_pipe(alloc, *pipe, b"path used twice"),
        GraphRefused::TooManyWorkers { count } => {
            numbered(alloc, "upipe: graph: too many workers: ", *count as u64)
        }
        GraphRefused::NoMemory => Bytes::from_slice(alloc, b"upipe: out of memory"),
    }
}

/// The words, a pipe's name, the next words, and the number.
fn measured(
    alloc: Global,
    words: &str,
    pipe: &[u8],
    next: &str,
    number: u64,
) -> Result<Bytes, NoMemory>
    ensures { IfOk result (λ text. text
        ≡ words.now ++ pipe.now ++ next.now ++ decimal number) }
{
    let mut text = named(alloc, words, pipe)?;
    text.append(next.as_bytes())?;
    push_decimal(&mut text, number)?;
    Ok(text)
}

/// The words of use.
const USAGE: &str =
    "usage: upipe check GRAPH | upipe run [--single] [--pool] GRAPH | upipe work [--single] N";

/// What is told of a fault.
fn fault_text(alloc: Global, fault: &Fault) -> Result<Bytes, NoMemory>
    ensures { IfOk result (λ text. text ≡ fault_text fault.now) }
{
    match fault {
        Fault::Usage => Bytes::from_slice(alloc, USAGE.as_bytes()),
        Fault::Graph(refused) => refusal_text(alloc, refused),
        Fault::ReadGraph => Bytes::from_slice(alloc, b"upipe: read fault: graph"),
        Fault::Read(pipe) => named(alloc, "upipe: read fault: pipe ", pipe.bytes()),
        Fault::Write(pipe) => named(alloc, "upipe: write fault: pipe ", pipe.bytes()),
        Fault::WriteReport => Bytes::from_slice(alloc, b"upipe: write fault: report"),
        Fault::BadFrame { pipe, offset } => {
            measured(
                alloc,
                "upipe: bad frame: pipe ",
                pipe.bytes(),
                " offset ",
                *offset,
            )
        }
        Fault::TooLong { pipe, limit } => {
            measured(
                alloc,
                "upipe: too long: pipe ",
                pipe.bytes(),
                " limit ",
                *limit,
            )
        }
    }
}

/// The line of want of memory, which takes none.
pub const OUT_OF_MEMORY: &str = "upipe: out of memory\n";

/// The line of the fault.
pub fn fault_line(alloc: Global, fault: &Fault) -> Result<Bytes, NoMemory>
    ensures { IfOk result (λ line. line ≡ fault_bytes fault.now) }
{
    let mut line = fault_text(alloc, fault)?;
    line.push(b'\n')?;
    Ok(line)
}
