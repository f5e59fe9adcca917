// What `form` gives, and `block` beside it, worked out by hand from the rules of graph files: what is read of a pipe, or the
// refusal with its numbers.

/// The fields of pipe 1, before a sink that takes from `a`: what is read of it.
pub static SOURCE_FORMS: [(&str, &str); 53] = [
    (
        "name='a',kind='source',path='i',form='raw'",
        "source i 4096 1099511627776",
    ),
    (
        "name='a',kind='source',path='i',form='raw',block=7",
        "source i 7 1099511627776",
    ),
    (
        "name='a',kind='source',path='i',block=1048576,form='raw',limit=5",
        "source i 1048576 5",
    ),
    (
        "name='a',kind='source',path='i',form='framed'",
        "source i framed 1099511627776",
    ),
    (
        "name='a',kind='source',path='i',form='framed',limit=0",
        "source i framed 0",
    ),
    (
        "name='a',kind='source',path='i',form='framed',limit=1099511627776",
        "source i framed 1099511627776",
    ),
    (
        "name='a',kind='source',path='i','form'=\"\\u0066ramed\"",
        "source i framed 1099511627776",
    ),
    ("name='a',kind='source',path='i',form=''", "1: form"),
    ("name='a',kind='source',path='i',form='Raw'", "1: form"),
    ("name='a',kind='source',path='i',form='FRAMED'", "1: form"),
    ("name='a',kind='source',path='i',form='raw '", "1: form"),
    (
        "name='a',kind='source',path='i',form='rawframed'",
        "1: form",
    ),
    ("name='a',kind='source',path='i',form='frame'", "1: form"),
    ("name='a',kind='source',path='i',form='framed2'", "1: form"),
    ("name='a',kind='source',path='i',form=1", "1: form"),
    ("name='a',kind='source',path='i',form=true", "1: form"),
    ("name='a',kind='source',path='i',form=1.0", "1: form"),
    ("name='a',kind='source',path='i',form=1979-05-27", "1: form"),
    ("name='a',kind='source',path='i',form=[]", "1: form"),
    ("name='a',kind='source',path='i',form=['raw']", "1: form"),
    (
        "name='a',kind='source',path='i',form={framed=true}",
        "1: form",
    ),
    ("name='a',kind='source',path='i',Form='raw'", "1: Form"),
    (
        "name='a',kind='source',path='i',form='framed',block=4096",
        "1: block",
    ),
    (
        "name='a',kind='source',path='i',block=1,form='framed'",
        "1: block",
    ),
    (
        "name='a',kind='source',path='i',form='framed',block=0",
        "1: block",
    ),
    (
        "name='a',kind='source',path='i',form='framed',block=1048577",
        "1: block",
    ),
    (
        "name='a',kind='source',path='i',form='framed',block='4096'",
        "1: block",
    ),
    (
        "name='a',kind='source',path='i',form='framed',block=[]",
        "1: block",
    ),
    (
        "name='a',kind='source',path='i',form='raw',block=0",
        "1: block",
    ),
    (
        "name='a',kind='source',path='i',form='x',block=4096",
        "1: block",
    ),
    (
        "name='a',kind='source',path='i',form=1,block=1048576",
        "1: block",
    ),
    (
        "name='a',kind='source',path='i',form='x',block=0",
        "1: block",
    ),
    (
        "name='a',kind='source',path='i',form='x',block=1048577",
        "1: block",
    ),
    (
        "name='a',kind='source',path='i',form='x',block=true",
        "1: block",
    ),
    (
        "name='a',kind='source',path='i',form='framed',block=4096,limit=-1",
        "1: block",
    ),
    (
        "name='a',kind='source',path='i',form='framed',block=4096,bytes=1",
        "1: block",
    ),
    (
        "name='a',kind='source',path='i',form='framed',block=4096,align=1",
        "1: align",
    ),
    (
        "name='a',kind='source',path='i',form='framed',limit=-1",
        "1: limit",
    ),
    (
        "name='a',kind='source',path='i',form='framed',limit=1099511627777",
        "1: limit",
    ),
    (
        "name='a',kind='source',path='i',form='framed',limit='5'",
        "1: limit",
    ),
    (
        "name='a',kind='source',path='i',form='framed',limit=1099511627777,zz=1",
        "1: limit",
    ),
    (
        "name='a',kind='source',path='i',form='x',limit=-1",
        "1: form",
    ),
    (
        "name='a',kind='source',path='i',form='x',input='a'",
        "1: form",
    ),
    (
        "name='a',kind='source',path='i',form='x',block=4096,limit=-1",
        "1: block",
    ),
    (
        "name='a',kind='source',path='i',form='x',bytes=1",
        "1: bytes",
    ),
    (
        "name='a',kind='source',path='i',form='framed',input='a'",
        "1: input",
    ),
    ("name='a',kind='source',path='',form='framed'", "1: path"),
    ("name='a',kind='source',form='framed',limit=-1", "1: limit"),
    ("name='a',kind='source',path='',form='x'", "1: form"),
    ("name='',kind='source',path='i',form='x'", "1: form"),
    ("name='',kind='source',path='i',form='framed'", "1: name"),
    (
        "name='',kind='source',path='',form='framed',block=1",
        "1: block",
    ),
    ("name='a',path='i',form='framed',block=1", "1: kind"),
];

/// The fields of pipe 2, behind a source `a`: what is read of it.
pub static SINK_FORMS: [(&str, &str); 29] = [
    (
        "name='b',kind='sink',input='a',path='p',form='raw'",
        "sink p < 0",
    ),
    (
        "name='b',kind='sink',input='a',path='p',form='framed'",
        "sink p framed < 0",
    ),
    (
        "name='b',kind='sink',input='a',path='p',form=\"fr\\u0061med\"",
        "sink p framed < 0",
    ),
    ("name='b',kind='sink',input='a',path='p',form=''", "2: form"),
    (
        "name='b',kind='sink',input='a',path='p',form='Framed'",
        "2: form",
    ),
    (
        "name='b',kind='sink',input='a',path='p',form='framed2'",
        "2: form",
    ),
    ("name='b',kind='sink',input='a',path='p',form=0", "2: form"),
    (
        "name='b',kind='sink',input='a',path='p',form=false",
        "2: form",
    ),
    (
        "name='b',kind='sink',input='a',path='p',form=['framed']",
        "2: form",
    ),
    (
        "name='b',kind='sink',input='a',path='p',form='raw',block=4096",
        "2: block",
    ),
    (
        "name='b',kind='sink',input='a',path='p',form='framed',block=4096",
        "2: block",
    ),
    (
        "name='b',kind='sink',input='a',path='p',form='x',block=4096",
        "2: block",
    ),
    (
        "name='b',kind='sink',input='a',path='p',form='framed',limit=5",
        "2: limit",
    ),
    (
        "name='b',kind='sink',input='a',path='p',form='x',limit=5",
        "2: form",
    ),
    (
        "name='b',kind='sink',input='a',path='p',form='framed',attr='k'",
        "2: attr",
    ),
    ("name='b',kind='sink',path='p',form='framed'", "2: input"),
    ("name='b',kind='sink',path='p',form='x'", "2: form"),
    (
        "name='b',kind='sink',input=[],path='p',form='framed'",
        "2: input",
    ),
    ("name='b',kind='sink',input=[],path='p',form='x'", "2: form"),
    (
        "name='b',kind='sink',input='x',path='p',form='framed'",
        "UnknownInput 2",
    ),
    (
        "name='b',kind='sink',input='a',path='p',Form='x'",
        "2: Form",
    ),
    (
        "name='b',kind='sink',input='a',path='p',form='x',align=1",
        "2: align",
    ),
    (
        "name='b',kind='sink',input='a',path='p',form='x',zz=1",
        "2: form",
    ),
    ("name='b',kind='sink',input='a',form='framed'", "2: path"),
    ("name='b',kind='sink',input='a',form='x'", "2: form"),
    (
        "name='b',kind='sink',input='a',path='',form='framed'",
        "2: path",
    ),
    ("name='',kind='sink',input='a',path='',form='x'", "2: form"),
    ("kind='sink',input='a',path='',form='framed'", "2: name"),
    ("name='b',kind='idem',input='a',form='framed'", "2: form"),
];
