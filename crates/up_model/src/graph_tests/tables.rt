// Small graphs with their first fault, worked out by hand from the table of faults. A pipe is named with its input and
// what it does.
use super::Does::{self, Copies, Ends, Passes, Reads, Selects, Writes};
use crate::GraphFault::{
    self, Cycle, ManyOutputs, NoOutput, SameName, SamePath, UnknownInput, WrongFlow,
};

pub type Row = (&'static str, Option<u16>, Does);

pub static FAULTLESS: [&[Row]; 6] = [
    &[("a", None, Reads("in")), ("b", Some(0), Writes("out"))],
    &[("b", Some(1), Writes("out")), ("a", None, Reads("in"))],
    &[("a", None, Reads("in")), ("b", Some(0), Ends)],
    &[
        ("a", None, Reads("in")),
        ("b", Some(0), Copies),
        ("c", Some(1), Writes("out")),
        ("d", Some(1), Passes),
        ("e", Some(3), Writes("copy")),
    ],
    &[
        ("a", None, Reads("in")),
        ("b", None, Reads("in")),
        ("c", Some(0), Ends),
        ("d", Some(1), Ends),
    ],
    &[("a", None, Reads("in")), ("A", Some(0), Writes("In"))],
];

pub static FAULTY: [(&[Row], GraphFault); 19] = [
    (
        &[
            ("a", None, Reads("in")),
            ("b", Some(0), Passes),
            ("b", Some(1), Writes("out")),
        ],
        SameName { place: 2 },
    ),
    (
        &[("a", Some(9), Ends), ("a", Some(9), Ends)],
        SameName { place: 1 },
    ),
    (
        &[("a", None, Reads("in")), ("b", Some(2), Writes("out"))],
        UnknownInput { place: 1 },
    ),
    (
        &[("a", Some(0), Passes), ("b", Some(9), Ends)],
        UnknownInput { place: 1 },
    ),
    (
        &[
            ("c", Some(1), Writes("out")),
            ("a", Some(2), Passes),
            ("b", Some(1), Copies),
        ],
        Cycle { place: 0 },
    ),
    (
        &[
            ("s", None, Reads("in")),
            ("e", Some(0), Ends),
            ("a", Some(3), Passes),
            ("b", Some(2), Passes),
        ],
        Cycle { place: 2 },
    ),
    (&[("a", Some(0), Passes)], Cycle { place: 0 }),
    (
        &[
            ("a", None, Reads("in")),
            ("b", Some(0), Ends),
            ("c", Some(0), Ends),
            ("d", Some(3), Passes),
        ],
        Cycle { place: 3 },
    ),
    (
        &[
            ("a", None, Reads("in")),
            ("b", Some(0), Passes),
            ("c", Some(1), Writes("out")),
            ("d", Some(1), Writes("copy")),
        ],
        ManyOutputs { place: 1 },
    ),
    (
        &[
            ("b", Some(1), Passes),
            ("a", None, Reads("in")),
            ("c", Some(1), Writes("out")),
        ],
        ManyOutputs { place: 1 },
    ),
    (&[("a", None, Reads("in"))], NoOutput { place: 0 }),
    (
        &[("a", None, Reads("in")), ("b", Some(0), Copies)],
        NoOutput { place: 1 },
    ),
    (
        &[
            ("a", None, Reads("in")),
            ("b", Some(0), Ends),
            ("c", Some(1), Ends),
            ("d", None, Reads("in")),
        ],
        NoOutput { place: 3 },
    ),
    (
        &[
            ("a", None, Reads("in")),
            ("b", Some(0), Ends),
            ("c", Some(1), Writes("out")),
        ],
        WrongFlow { place: 2 },
    ),
    (
        &[
            ("a", None, Reads("in")),
            ("b", Some(0), Writes("in")),
            ("c", Some(1), Writes("out")),
        ],
        WrongFlow { place: 2 },
    ),
    (
        &[
            ("a", None, Reads("in")),
            ("b", Some(0), Selects(256)),
            ("c", Some(1), Ends),
        ],
        WrongFlow { place: 1 },
    ),
    (
        &[("a", None, Reads("in")), ("b", Some(0), Writes("in"))],
        SamePath { place: 1 },
    ),
    (
        &[("b", Some(1), Writes("in")), ("a", None, Reads("in"))],
        SamePath { place: 1 },
    ),
    (
        &[
            ("a", None, Reads("in")),
            ("b", Some(0), Copies),
            ("c", Some(1), Writes("out")),
            ("d", Some(1), Writes("out")),
        ],
        SamePath { place: 3 },
    ),
];

/// What is wrong with the last of 256 pipes in a chain.
pub static LAST: [(Row, GraphFault); 6] = [
    (("0", Some(254), Ends), SameName { place: 255 }),
    (("z", Some(256), Ends), UnknownInput { place: 255 }),
    (("z", Some(255), Passes), Cycle { place: 255 }),
    (("z", Some(254), Copies), NoOutput { place: 255 }),
    (("z", Some(254), Selects(0)), NoOutput { place: 255 }),
    (("z", Some(254), Writes("in")), SamePath { place: 255 }),
];
