mod attr_tables;
mod form_tables;
mod graphs;
mod tables;
mod words;

use self::attr_tables::{DELAY_PIPES, MATCH_ATTR_PIPES, SETATTR_PIPES};
use self::form_tables::{SINK_FORMS, SOURCE_FORMS};
use self::graphs::GRAPHS;
use self::tables::{FIRST_PIPES, MIDDLE_PIPES, SPELLINGS, TOPS};
use self::words::{answer, input_words, pipe_words, refusal_words};
use super::*;
use std::string::String;
use std::test::*;
use up_base::Text;
use up_model::{CatchSet, Pipe};

const CHAIN: &str = r#"
version = 1

[[pipe]]
name = "capture"
kind = "source"
path = "in.ts"

[[pipe]]
name = "pass"
kind = "idem"
input = "capture"

[[pipe]]
name = "archive"
kind = "sink"
input = "pass"
path = "out.ts"
"#;

fn has_name_and_defaults(pipe: &Pipe, name: &[u8]) -> bool {
    let caught_nothing = CatchSet {
        drop: false,
        cut: false,
        sync: false,
        lost: false,
    };
    let on_main = pipe.name.bytes() == name && pipe.worker.bytes() == b"main".as_slice();
    on_main && pipe.select.is_none() && pipe.queue == 64 && pipe.caught == caught_nothing
}

#[test]
fn what_a_file_leaves_out_has_its_default(rt: HostRuntime) -> Result<(), Fail> {
    let graph = read_graph(rt.alloc(), CHAIN.as_bytes()).expect(&rt, "a graph");
    assert_eq!(rt; graph.pipes.len(), 3);
    let wanted = [
        ("capture", "source in.ts 4096 1099511627776"),
        ("pass", "idem < 0"),
        ("archive", "sink out.ts < 1"),
    ];
    for (place, (name, words)) in wanted.iter().enumerate() {
        assert!(rt; place < graph.pipes.len());
        let pipe = graph.pipes.at(place);
        assert!(rt; has_name_and_defaults(pipe, name.as_bytes()));
        let told = pipe_words(&rt, pipe)?;
        assert_eq!(rt; told.as_str(), *words);
    }
    Ok(())
}

/// A line for each text that doesn't give what stands beside it of the pipe at a place, where these pipes follow it.
fn wrong_texts(
    rt: &HostRuntime,
    table: &[(&'static str, &'static str)],
    after: &str,
) -> Result<String, Fail> {
    let mut wrong = String::new(rt.alloc());
    for (start, wanted) in table {
        let text = format!(in rt.alloc(); "{start}{after}")?;
        let told = answer(rt, text.as_bytes(), 0)?;
        if told.as_str() != *wanted {
            let line = format!(in rt.alloc(); "{text}\ngives {told}\n")?;
            wrong.push_str(line.as_str())?;
        }
    }
    Ok(wrong)
}

/// A line for each list of fields that doesn't give what stands beside it, where it is the pipe at a place, between these others.
fn wrong_pipes(
    rt: &HostRuntime,
    before: &str,
    table: &[(&'static str, &'static str)],
    after: &str,
    place: usize,
) -> Result<String, Fail> {
    let mut wrong = String::new(rt.alloc());
    for (fields, wanted) in table {
        let text = format!(in rt.alloc(); "version = 1\npipe = [{before}{{{fields}}}{after}]")?;
        let told = answer(rt, text.as_bytes(), place)?;
        if told.as_str() != *wanted {
            let line = format!(in rt.alloc(); "{fields} gives {told}\n")?;
            wrong.push_str(line.as_str())?;
        }
    }
    Ok(wrong)
}

#[test]
fn the_top_of_a_file_is_looked_at_in_order(rt: HostRuntime) -> Result<(), Fail> {
    let wrong = wrong_texts(&rt, &TOPS, "")?;
    assert_eq!(rt; wrong.as_str(), "");
    Ok(())
}

#[test]
fn odd_spellings_of_toml_mean_the_same(rt: HostRuntime) -> Result<(), Fail> {
    let sink = "\n[[pipe]]\nname = 'b'\nkind = 'sink'\ninput = 'a'\npath = 'o'\n";
    let wrong = wrong_texts(&rt, &SPELLINGS, sink)?;
    assert_eq!(rt; wrong.as_str(), "");
    Ok(())
}

#[test]
fn each_kind_has_its_fields_and_the_least_wrong_one_is_told(rt: HostRuntime) -> Result<(), Fail> {
    let source = "{name = 'a', kind = 'source', path = 'i'}, ";
    let sink = ", {name = 'b', kind = 'sink', input = 'a', path = 'o'}";
    let end = ", {name = 'c', kind = 'sink', input = 'b', path = 'o'}";
    let wrong = wrong_pipes(&rt, "", &FIRST_PIPES, sink, 0)?;
    assert_eq!(rt; wrong.as_str(), "");
    let wrong = wrong_pipes(&rt, source, &MIDDLE_PIPES, end, 1)?;
    assert_eq!(rt; wrong.as_str(), "");
    Ok(())
}

#[test]
fn a_form_is_raw_or_framed_and_no_block_stands_beside_framed(rt: HostRuntime) -> Result<(), Fail> {
    let source = "{name = 'a', kind = 'source', path = 'i'}, ";
    let sink = ", {name = 'b', kind = 'sink', input = 'a', path = 'o'}";
    let wrong = wrong_pipes(&rt, "", &SOURCE_FORMS, sink, 0)?;
    assert_eq!(rt; wrong.as_str(), "");
    let wrong = wrong_pipes(&rt, source, &SINK_FORMS, "", 1)?;
    assert_eq!(rt; wrong.as_str(), "");
    Ok(())
}

#[test]
fn the_kinds_of_attributes_have_their_fields(rt: HostRuntime) -> Result<(), Fail> {
    let source = "{name = 'a', kind = 'source', path = 'i'}, ";
    let end = ", {name = 'c', kind = 'sink', input = 'b', path = 'o'}";
    let wrong = wrong_pipes(&rt, source, &SETATTR_PIPES, end, 1)?;
    assert_eq!(rt; wrong.as_str(), "");
    let wrong = wrong_pipes(&rt, source, &MATCH_ATTR_PIPES, end, 1)?;
    assert_eq!(rt; wrong.as_str(), "");
    let wrong = wrong_pipes(&rt, source, &DELAY_PIPES, end, 1)?;
    assert_eq!(rt; wrong.as_str(), "");
    Ok(())
}

#[test]
fn a_wrong_field_comes_before_all_that_is_wrong_between_pipes(rt: HostRuntime) -> Result<(), Fail> {
    let before = "{name = 's', kind = 'null', input = ['s', 's']}, ";
    let after = ", {name = 's', kind = 'idem', input = 'x', zz = 1}";
    let cases = [("name = 's', kind = 'null', input = 'x'", "3: zz")];
    let wrong = wrong_pipes(&rt, before, &cases, after, 0)?;
    assert_eq!(rt; wrong.as_str(), "");
    Ok(())
}

/// The places of the inputs that these tables give, or their refusal.
fn graph_answer(rt: &HostRuntime, tables: &[&'static str]) -> Result<String, Fail> {
    let mut text = String::new(rt.alloc());
    text.push_str("version = 1\npipe = [")?;
    for table in tables {
        text.push_str(table)?;
        text.push_str(",\n")?;
    }
    text.push_str("]")?;
    match read_graph(rt.alloc(), text.as_bytes()) {
        Ok(graph) => input_words(rt, &graph),
        Err(refused) => refusal_words(rt, &refused),
    }
}

#[test]
fn pipes_are_joined_by_name_and_the_first_refusal_is_told(rt: HostRuntime) -> Result<(), Fail> {
    for (tables, wanted) in &GRAPHS {
        let told = graph_answer(&rt, tables)?;
        assert_eq!(rt; told.as_str(), *wanted);
    }
    Ok(())
}

/// A text of copies of a piece.
fn repeated(rt: &HostRuntime, piece: &str, count: u32) -> Result<String, Fail> {
    let mut text = String::new(rt.alloc());
    for _ in 0..count {
        text.push_str(piece)?;
    }
    Ok(text)
}

/// A file of a source, idle pipes, and a sink: so many pipes.
fn long_chain(rt: &HostRuntime, count: u32) -> Result<String, Fail> {
    let mut text = String::new(rt.alloc());
    text.push_str("version = 1\npipe = [{name = '1', kind = 'source', path = 'i'},\n")?;
    for number in 2..count {
        let before = number - 1;
        let pipe = format!(in rt.alloc();
            "{{name = '{number}', kind = 'idem', input = '{before}'}},\n"
        )?;
        text.push_str(pipe.as_str())?;
    }
    let before = count.saturating_sub(1);
    let sink = format!(in rt.alloc();
        "{{name = '{count}', kind = 'sink', input = '{before}', path = 'o'}}]"
    )?;
    text.push_str(sink.as_str())?;
    Ok(text)
}

#[test]
fn a_file_has_at_most_256_pipes(rt: HostRuntime) -> Result<(), Fail> {
    let alloc = rt.alloc();
    let most = long_chain(&rt, 256)?;
    let told = answer(&rt, most.as_bytes(), 255)?;
    assert_eq!(rt; told.as_str(), "sink o < 254");
    let many = long_chain(&rt, 257)?;
    let told = answer(&rt, many.as_bytes(), 0)?;
    assert_eq!(rt; told.as_str(), "TooManyPipes 257");
    for (count, wanted) in [(256, "0: a"), (257, "TooManyPipes 257")] {
        let numbers = repeated(&rt, "1, ", count)?;
        let text = format!(in alloc; "version = 1\na = 1\npipe = [{numbers}]")?;
        let told = answer(&rt, text.as_bytes(), 0)?;
        assert_eq!(rt; told.as_str(), wanted);
    }
    Ok(())
}

#[test]
fn the_last_of_256_pipes_is_told_by_its_number(rt: HostRuntime) -> Result<(), Fail> {
    let most = long_chain(&rt, 255)?;
    let start = most.as_str().strip_suffix("]").expect(&rt, "a list");
    for (last, wanted) in [
        (
            "name = 'x', kind = 'sink', input = '1', path = ''",
            "256: path",
        ),
        ("name = '1', kind = 'null', input = '1'", "SameName 256"),
        (
            "name = 'x', kind = 'null', input = ['1', '1']",
            "ManyInputs 256",
        ),
        ("name = 'x', kind = 'null', input = 'y'", "UnknownInput 256"),
        ("name = 'x', kind = 'idem', input = 'x'", "Cycle 256"),
        ("name = 'x', kind = 'null', input = '255'", "WrongFlow 256"),
    ] {
        let text = format!(in rt.alloc(); "{start}, {{{last}}}]")?;
        let told = answer(&rt, text.as_bytes(), 0)?;
        assert_eq!(rt; told.as_str(), wanted);
    }
    Ok(())
}

/// A text with blanks behind it, up to a size in bytes.
fn padded(rt: &HostRuntime, text: &str, size: usize) -> Result<String, Fail> {
    let mut padded = String::new(rt.alloc());
    padded.push_str(text)?;
    for _ in text.len()..size {
        padded.push_str(" ")?;
    }
    Ok(padded)
}

#[test]
fn a_file_has_at_most_1048576_bytes(rt: HostRuntime) -> Result<(), Fail> {
    let most = padded(&rt, CHAIN, 1_048_576)?;
    let told = answer(&rt, most.as_bytes(), 2)?;
    assert_eq!(rt; told.as_str(), "sink out.ts < 1");
    let many = padded(&rt, CHAIN, 1_048_577)?;
    let told = answer(&rt, many.as_bytes(), 2)?;
    assert_eq!(rt; told.as_str(), "TooBig 1048577");
    Ok(())
}

#[test]
fn names_and_paths_have_a_greatest_length(rt: HostRuntime) -> Result<(), Fail> {
    let alloc = rt.alloc();
    for (name_len, path_len, attr_len, refused) in [
        (64, 4096, 64, ""),
        (65, 4096, 64, "1: name"),
        (64, 4097, 64, "1: path"),
        (64, 4096, 65, "2: attr"),
    ] {
        let name = repeated(&rt, "n", name_len)?;
        let path = repeated(&rt, "p", path_len)?;
        let attr = repeated(&rt, "a", attr_len)?;
        let text = format!(in alloc;
            "version = 1\npipe = [{{name = '{name}', kind = 'source', path = '{path}'}}, \
            {{name = 'b', kind = 'delattr', attr = '{attr}', input = '{name}'}}, \
            {{name = 'c', kind = 'null', input = ['b']}}]"
        )?;
        let wanted = if refused.is_empty() {
            format!(in alloc; "delattr {attr} < 0")?
        } else {
            format!(in alloc; "{refused}")?
        };
        let told = answer(&rt, text.as_bytes(), 1)?;
        assert_eq!(rt; told.as_str(), wanted.as_str());
    }
    Ok(())
}

#[test]
fn ends_of_frames_have_paths_of_at_most_4096_bytes(rt: HostRuntime) -> Result<(), Fail> {
    let alloc = rt.alloc();
    for (source_len, sink_len, place, refused) in [
        (4096, 4095, 0, ""),
        (4095, 4096, 1, ""),
        (4097, 4096, 0, "1: path"),
        (4096, 4097, 1, "2: path"),
    ] {
        let source = repeated(&rt, "i", source_len)?;
        let sink = repeated(&rt, "o", sink_len)?;
        let text = format!(in alloc;
            "version = 1\npipe = [\
            {{name = 'a', kind = 'source', form = 'framed', path = '{source}'}}, \
            {{name = 'b', kind = 'sink', form = 'framed', path = '{sink}', input = 'a'}}]"
        )?;
        let wanted = match (refused, place) {
            ("", 0) => format!(in alloc; "source {source} framed 1099511627776")?,
            ("", _) => format!(in alloc; "sink {sink} framed < 0")?,
            _ => format!(in alloc; "{refused}")?,
        };
        let told = answer(&rt, text.as_bytes(), place)?;
        assert_eq!(rt; told.as_str(), wanted.as_str());
    }
    Ok(())
}

#[test]
fn the_text_of_an_attribute_has_at_most_4096_bytes(rt: HostRuntime) -> Result<(), Fail> {
    let alloc = rt.alloc();
    for (letter, count, fits) in [
        ("t", 4096, true),
        ("t", 4097, false),
        ("\u{e4}", 2048, true),
        ("\u{e4}", 2049, false),
    ] {
        let words = repeated(&rt, letter, count)?;
        let text = format!(in alloc;
            "version = 1\npipe = [{{name = 'a', kind = 'source', path = 'i'}}, \
            {{name = 'b', kind = 'setattr', attr = 'k', value = '{words}', input = 'a'}}, \
            {{name = 'c', kind = 'null', input = 'b'}}]"
        )?;
        let wanted = if fits {
            format!(in alloc; "setattr k text '{words}' < 0")?
        } else {
            format!(in alloc; "2: value")?
        };
        let told = answer(&rt, text.as_bytes(), 1)?;
        assert_eq!(rt; told.as_str(), wanted.as_str());
    }
    Ok(())
}

#[test]
fn bytes_that_are_not_utf8_are_not_toml(rt: HostRuntime) -> Result<(), Fail> {
    for text in [
        b"\xff".as_slice(),
        b"version = 2 # \xc0\x80",
        b"version = 2 # \xe4",
    ] {
        let told = answer(&rt, text, 0)?;
        assert_eq!(rt; told.as_str(), "NotToml");
    }
    Ok(())
}

#[test]
fn a_refusal_says_what_is_wrong(rt: HostRuntime) -> Result<(), Fail> {
    let alloc = rt.alloc();
    let field = Text::from_str(alloc, "path")?;
    let cases = vec![in alloc;
        (
            GraphRefused::TooBig { len: 1_048_577 },
            "1048577 bytes, where a graph file has at most 1048576"
        ),
        (GraphRefused::NotToml, "not a TOML document"),
        (
            GraphRefused::BadVersion { got: Some(2) },
            "the version is not 1"
        ),
        (GraphRefused::NoPipes, "no pipes"),
        (
            GraphRefused::TooManyPipes { count: 257 },
            "257 pipes, where a graph has at most 256"
        ),
        (
            GraphRefused::BadField { pipe: 3, field },
            "pipe 3: bad field path"
        ),
        (
            GraphRefused::SameName { pipe: 2 },
            "pipe 2: name used twice"
        ),
        (
            GraphRefused::TooManyWorkers { count: 17 },
            "17 workers, where a graph has at most 16"
        ),
        (GraphRefused::NoMemory, "out of memory"),
    ]?;
    for (refused, wanted) in cases {
        let told = refused.to_string(alloc)?;
        assert_eq!(rt; told.as_str(), wanted);
    }
    Ok(())
}
