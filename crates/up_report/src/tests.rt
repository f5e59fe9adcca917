use crate::{Fault, OUT_OF_MEMORY, fault_line};
use std::alloc::Global;
use std::process::Abort;
use std::test::Fail;
use up_base::{NoMemory, PipeName, Text};
use up_graph::GraphRefused;

fn bad_field(alloc: Global, pipe: u16, field: &str) -> Result<Fault, NoMemory> {
    let field = Text::from_str(alloc, field)?;
    Ok(Fault::Graph(GraphRefused::BadField { pipe, field }))
}

/// Each fault has its line.
fn assert_lines(
    rt: &impl Abort,
    alloc: Global,
    table: &[(Fault, &'static str)],
) -> Result<(), Fail> {
    for (fault, wanted) in table {
        let line = fault_line(alloc, fault)?;
        assert_eq!(rt; line.as_slice(), wanted.as_bytes());
    }
    Ok(())
}

#[test]
fn each_refusal_of_a_file_has_its_line(rt: HostRuntime) -> Result<(), Fail> {
    let alloc = rt.alloc();
    let refusals = [
        (
            GraphRefused::TooBig { len: 1_048_577 },
            "upipe: graph: too big\n",
        ),
        (GraphRefused::NotToml, "upipe: graph: not toml\n"),
        (
            GraphRefused::BadVersion { got: Some(2) },
            "upipe: graph: bad version\n",
        ),
        (GraphRefused::NoPipes, "upipe: graph: no pipes\n"),
        (
            GraphRefused::TooManyPipes { count: 257 },
            "upipe: graph: too many pipes: 257\n",
        ),
        (
            GraphRefused::TooManyWorkers { count: 17 },
            "upipe: graph: too many workers: 17\n",
        ),
        (GraphRefused::NoMemory, "upipe: out of memory\n"),
    ];
    for (refused, wanted) in refusals {
        assert_lines(&rt, alloc, &[(Fault::Graph(refused), wanted)])?;
    }
    Ok(())
}

#[test]
fn each_refusal_of_a_pipe_has_its_line(rt: HostRuntime) -> Result<(), Fail> {
    let alloc = rt.alloc();
    let refusals = [
        (
            GraphRefused::SameName { pipe: 1 },
            "upipe: graph: pipe 1: name used twice\n",
        ),
        (
            GraphRefused::ManyInputs { pipe: 2 },
            "upipe: graph: pipe 2: more than one input\n",
        ),
        (
            GraphRefused::UnknownInput { pipe: 10 },
            "upipe: graph: pipe 10: unknown input\n",
        ),
        (
            GraphRefused::Cycle { pipe: 16 },
            "upipe: graph: pipe 16: cycle\n",
        ),
        (
            GraphRefused::ManyOutputs { pipe: 99 },
            "upipe: graph: pipe 99: more than one output\n",
        ),
        (
            GraphRefused::NoOutput { pipe: 100 },
            "upipe: graph: pipe 100: no output\n",
        ),
        (
            GraphRefused::WrongFlow { pipe: 255 },
            "upipe: graph: pipe 255: wrong flow\n",
        ),
        (
            GraphRefused::SamePath { pipe: 256 },
            "upipe: graph: pipe 256: path used twice\n",
        ),
    ];
    for (refused, wanted) in refusals {
        assert_lines(&rt, alloc, &[(Fault::Graph(refused), wanted)])?;
    }
    Ok(())
}

#[test]
fn the_line_of_a_wrong_field_shows_its_bytes(rt: HostRuntime) -> Result<(), Fail> {
    let alloc = rt.alloc();
    let table = [
        (
            bad_field(alloc, 0, "pipes")?,
            "upipe: graph: top: bad field pipes\n",
        ),
        (
            bad_field(alloc, 256, "limit")?,
            "upipe: graph: pipe 256: bad field limit\n",
        ),
        (
            bad_field(alloc, 1, "a\t\\\u{7f}é ~")?,
            "upipe: graph: pipe 1: bad field a\\x09\\x5c\\x7f\\xc3\\xa9 ~\n",
        ),
    ];
    assert_lines(&rt, alloc, &table)
}

const USAGE: &str =
    "usage: upipe check GRAPH | upipe run [--single] [--pool] GRAPH | upipe work [--single] N\n";

#[test]
fn each_other_fault_has_its_line(rt: HostRuntime) -> Result<(), Fail> {
    let alloc = rt.alloc();
    let capture = PipeName::read(b"capture")?;
    let archive = PipeName::read(b"archive")?;
    let table = [
        (Fault::Usage, USAGE),
        (Fault::ReadGraph, "upipe: read fault: graph\n"),
        (Fault::Read(capture), "upipe: read fault: pipe capture\n"),
        (Fault::Write(archive), "upipe: write fault: pipe archive\n"),
        (
            Fault::TooLong {
                pipe: capture,
                limit: 1_099_511_627_776,
            },
            "upipe: too long: pipe capture limit 1099511627776\n",
        ),
        (Fault::WriteReport, "upipe: write fault: report\n"),
        (
            Fault::BadFrame {
                pipe: capture,
                offset: 0,
            },
            "upipe: bad frame: pipe capture offset 0\n",
        ),
    ];
    assert_eq!(rt; OUT_OF_MEMORY, "upipe: out of memory\n");
    assert_lines(&rt, alloc, &table)
}

#[test]
fn each_fault_has_its_status(rt: HostRuntime) -> Result<(), Fail> {
    let pipe = PipeName::read(b"capture")?;
    let table = [
        (Fault::Usage, 2),
        (Fault::Graph(GraphRefused::NotToml), 3),
        (Fault::Graph(GraphRefused::SameName { pipe: 1 }), 3),
        (Fault::Graph(GraphRefused::ManyInputs { pipe: 1 }), 3),
        (Fault::Graph(GraphRefused::UnknownInput { pipe: 1 }), 3),
        (Fault::Graph(GraphRefused::Cycle { pipe: 1 }), 3),
        (Fault::Graph(GraphRefused::ManyOutputs { pipe: 1 }), 3),
        (Fault::Graph(GraphRefused::NoOutput { pipe: 1 }), 3),
        (Fault::Graph(GraphRefused::WrongFlow { pipe: 1 }), 3),
        (Fault::Graph(GraphRefused::SamePath { pipe: 1 }), 3),
        (Fault::Graph(GraphRefused::TooManyWorkers { count: 17 }), 3),
        (Fault::Graph(GraphRefused::NoMemory), 7),
        (Fault::ReadGraph, 4),
        (Fault::Read(pipe), 4),
        (Fault::Write(pipe), 5),
        (Fault::WriteReport, 5),
        (Fault::BadFrame { pipe, offset: 4 }, 6),
        (Fault::TooLong { pipe, limit: 4 }, 8),
    ];
    for (fault, status) in &table {
        assert_eq!(rt; fault.status(), *status);
    }
    Ok(())
}
