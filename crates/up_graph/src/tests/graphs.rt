// Whole graphs, worked out by hand from the rules of graph files: the places of the pipes' inputs, or the refusal with its number.

/// The tables of the pipes of each.
pub static GRAPHS: [(&[&str], &str); 31] = [
    (
        &[
            "{name='s',kind='source',path='i'}",
            "{name='n',kind='null',input='s'}",
        ],
        "- 0",
    ),
    (
        &[
            "{name='n',kind='null',input='s'}",
            "{name='s',kind='source',path='i'}",
        ],
        "1 -",
    ),
    (
        &[
            "{name='s',kind='source',path='i'}",
            "{name='d',kind='dup',input='s'}",
            "{name='x',kind='sink',input='d',path='o'}",
            "{name='y',kind='idem',input='d'}",
            "{name='z',kind='sink',input='y',path='p'}",
        ],
        "- 0 1 1 3",
    ),
    (
        &[
            "{name='z',kind='sink',input='y',path='p'}",
            "{name='y',kind='idem',input='d'}",
            "{name='x',kind='sink',input='d',path='o'}",
            "{name='d',kind='dup',input='s'}",
            "{name='s',kind='source',path='i'}",
        ],
        "1 3 3 4 -",
    ),
    (
        &[
            "{name='s',kind='source',path='i'}",
            "{name='t',kind='source',path='i'}",
            "{name='n',kind='null',input='t'}",
            "{name='x',kind='sink',input='s',path='o'}",
        ],
        "- - 1 0",
    ),
    (
        &[
            "{name='s',kind='source',path='i'}",
            "{name='d',kind='dup',input='s'}",
            "{name='n',kind='null',input='d'}",
        ],
        "- 0 1",
    ),
    (
        &[
            "{name='s',kind='source',path='i'}",
            "{name='s',kind='null',input='s'}",
        ],
        "SameName 2",
    ),
    (
        &[
            "{name='s',kind='source',path='i'}",
            "{name='b',kind='idem',input='s'}",
            "{name='b',kind='idem',input='s'}",
            "{name='s',kind='null',input='b'}",
        ],
        "SameName 3",
    ),
    (
        &[
            "{name='s',kind='source',path='i'}",
            "{name='b',kind='null',input=['s','s']}",
            "{name='s',kind='null',input='x'}",
        ],
        "SameName 3",
    ),
    (
        &[
            "{name='s',kind='source',path='i'}",
            "{name='b',kind='null',input='x'}",
            "{name='c',kind='null',input=['s','s']}",
        ],
        "ManyInputs 3",
    ),
    (
        &[
            "{name='s',kind='source',path='i'}",
            "{name='b',kind='null',input=['x','y']}",
            "{name='c',kind='null',input=['s','s']}",
        ],
        "ManyInputs 2",
    ),
    (
        &[
            "{name='a',kind='idem',input='a'}",
            "{name='s',kind='source',path='i'}",
            "{name='c',kind='null',input=['s','s']}",
        ],
        "ManyInputs 3",
    ),
    (
        &[
            "{name='a',kind='idem',input='b'}",
            "{name='b',kind='idem',input='a'}",
            "{name='s',kind='source',path='i'}",
            "{name='c',kind='null',input='x'}",
            "{name='d',kind='null',input='y'}",
        ],
        "UnknownInput 4",
    ),
    (
        &[
            "{name='s',kind='source',path='i'}",
            "{name='b',kind='sink',input='i',path='o'}",
        ],
        "UnknownInput 2",
    ),
    (
        &[
            "{name='s',kind='source',path='i'}",
            "{name='n',kind='null',input='s'}",
            "{name='a',kind='idem',input='b'}",
            "{name='b',kind='idem',input='a'}",
        ],
        "Cycle 3",
    ),
    (
        &[
            "{name='s',kind='source',path='i'}",
            "{name='n',kind='null',input='s'}",
            "{name='c',kind='null',input='b'}",
            "{name='a',kind='idem',input='b'}",
            "{name='b',kind='dup',input='a'}",
        ],
        "Cycle 3",
    ),
    (&["{name='a',kind='idem',input='a'}"], "Cycle 1"),
    (
        &[
            "{name='s',kind='source',path='i'}",
            "{name='b',kind='null',input='s'}",
            "{name='c',kind='null',input='s'}",
            "{name='a',kind='idem',input='a'}",
        ],
        "Cycle 4",
    ),
    (
        &[
            "{name='s',kind='source',path='i'}",
            "{name='b',kind='null',input='s'}",
            "{name='c',kind='null',input='s'}",
        ],
        "ManyOutputs 1",
    ),
    (
        &[
            "{name='b',kind='null',input='c'}",
            "{name='c',kind='idem',input='s'}",
            "{name='d',kind='sink',input='c',path='o'}",
            "{name='s',kind='source',path='i'}",
        ],
        "ManyOutputs 2",
    ),
    (
        &[
            "{name='s',kind='source',path='i'}",
            "{name='b',kind='skip',input='s',bytes=1}",
            "{name='c',kind='null',input='b'}",
            "{name='d',kind='null',input='b'}",
            "{name='t',kind='source',path='i'}",
        ],
        "ManyOutputs 2",
    ),
    (&["{name='s',kind='source',path='i'}"], "NoOutput 1"),
    (
        &[
            "{name='s',kind='source',path='i'}",
            "{name='d',kind='dup',input='s'}",
        ],
        "NoOutput 2",
    ),
    (
        &[
            "{name='s',kind='source',path='i'}",
            "{name='d',kind='idem',input='s'}",
        ],
        "NoOutput 2",
    ),
    (
        &[
            "{name='s',kind='source',path='i'}",
            "{name='n',kind='null',input='s'}",
            "{name='b',kind='null',input='n'}",
            "{name='t',kind='source',path='i'}",
        ],
        "NoOutput 4",
    ),
    (
        &[
            "{name='s',kind='source',path='i'}",
            "{name='n',kind='null',input='s'}",
            "{name='b',kind='null',input='n'}",
        ],
        "WrongFlow 3",
    ),
    (
        &[
            "{name='s',kind='source',path='i'}",
            "{name='n',kind='sink',input='s',path='i'}",
            "{name='b',kind='null',input='n'}",
        ],
        "WrongFlow 3",
    ),
    (
        &[
            "{name='b',kind='null',input='n'}",
            "{name='n',kind='null',input='s'}",
            "{name='s',kind='source',path='i'}",
            "{name='c',kind='null',input='n'}",
        ],
        "WrongFlow 1",
    ),
    (
        &[
            "{name='s',kind='source',path='i'}",
            "{name='n',kind='sink',input='s',path='i'}",
        ],
        "SamePath 2",
    ),
    (
        &[
            "{name='n',kind='sink',input='s',path='i'}",
            "{name='s',kind='source',path='i'}",
        ],
        "SamePath 2",
    ),
    (
        &[
            "{name='s',kind='source',path='i'}",
            "{name='d',kind='dup',input='s'}",
            "{name='a',kind='sink',input='d',path='o'}",
            "{name='b',kind='sink',input='d',path='p'}",
            "{name='c',kind='sink',input='d',path='o'}",
            "{name='e',kind='sink',input='d',path='p'}",
        ],
        "SamePath 5",
    ),
];
