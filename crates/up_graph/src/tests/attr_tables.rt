// What the fields of `setattr`, `match_attr` and `delay` give, worked out by hand from the rules of graph files: what is read
// of a pipe, or the refusal with its numbers.

/// The fields of pipe 2, between a source `a` and a sink that takes from `b`: what is read of it.
pub static SETATTR_PIPES: [(&str, &str); 41] = [
    (
        "name='b',kind='setattr',attr='k',input='a'",
        "setattr k void < 0",
    ),
    (
        "name='b',kind='setattr',attr='date.sys',value=5,input=['a']",
        "setattr date.sys number 5 < 0",
    ),
    (
        "name='b',kind='setattr',attr='k',value=true,input='a'",
        "setattr k flag true < 0",
    ),
    (
        "name='b',kind='setattr',attr='k',value=false,input='a'",
        "setattr k flag false < 0",
    ),
    (
        "name='b',kind='setattr',attr='k',value=0,input='a'",
        "setattr k number 0 < 0",
    ),
    (
        "name='b',kind='setattr',attr='k',value=0x1_0,input='a'",
        "setattr k number 16 < 0",
    ),
    (
        "name='b',kind='setattr',attr='k',value=9223372036854775807,input='a'",
        "setattr k number 9223372036854775807 < 0",
    ),
    (
        "name='b',kind='setattr',attr='k',value='',input='a'",
        "setattr k text '' < 0",
    ),
    (
        "name='b',kind='setattr',attr='k',value='a b',input='a'",
        "setattr k text 'a b' < 0",
    ),
    (
        "name='b',kind='setattr',attr='k',value='true',input='a'",
        "setattr k text 'true' < 0",
    ),
    (
        "name='b',kind='setattr',attr='k',value='0',input='a'",
        "setattr k text '0' < 0",
    ),
    (
        "name='b',kind='setattr',attr='k',value=\"\\u00e4\\u0000\",input='a'",
        "setattr k text '\u{e4}\u{0}' < 0",
    ),
    (
        "name='b',kind='setattr',attr='k',value=-1,input='a'",
        "2: value",
    ),
    (
        "name='b',kind='setattr',attr='k',value=-9223372036854775808,input='a'",
        "2: value",
    ),
    (
        "name='b',kind='setattr',attr='k',value=9223372036854775808,input='a'",
        "NotToml",
    ),
    (
        "name='b',kind='setattr',attr='k',value=1.0,input='a'",
        "2: value",
    ),
    (
        "name='b',kind='setattr',attr='k',value=nan,input='a'",
        "2: value",
    ),
    (
        "name='b',kind='setattr',attr='k',value=[],input='a'",
        "2: value",
    ),
    (
        "name='b',kind='setattr',attr='k',value=[1],input='a'",
        "2: value",
    ),
    (
        "name='b',kind='setattr',attr='k',value=['x'],input='a'",
        "2: value",
    ),
    (
        "name='b',kind='setattr',attr='k',value={},input='a'",
        "2: value",
    ),
    (
        "name='b',kind='setattr',attr='k',value={text='x'},input='a'",
        "2: value",
    ),
    (
        "name='b',kind='setattr',attr='k',value=1979-05-27,input='a'",
        "2: value",
    ),
    (
        "name='b',kind='setattr',attr='k',value=1979-05-27T07:32:00Z,input='a'",
        "2: value",
    ),
    (
        "name='b',kind='setattr',attr='k',value=07:32:00,input='a'",
        "2: value",
    ),
    ("name='b',kind='setattr',input='a'", "2: attr"),
    ("name='b',kind='setattr',value=1,input='a'", "2: attr"),
    ("name='b',kind='setattr',attr='',input='a'", "2: attr"),
    ("name='b',kind='setattr',attr='a b',input='a'", "2: attr"),
    ("name='b',kind='setattr',attr=1,input='a'", "2: attr"),
    ("name='b',kind='setattr',attr=['k'],input='a'", "2: attr"),
    ("name='b',kind='setattr',attr='k'", "2: input"),
    ("name='b',kind='setattr',attr='k',low=1,input='a'", "2: low"),
    ("name='b',kind='setattr',attr='k',by=1,input='a'", "2: by"),
    (
        "name='b',kind='setattr',attr='k',value=1,values=1,input='a'",
        "2: values",
    ),
    (
        "name='b',kind='setattr',attr=1,value=-1,input='a'",
        "2: attr",
    ),
    (
        "name='b',kind='setattr',attr=1,Value=1,input='a'",
        "2: Value",
    ),
    (
        "name='b',kind='setattr',attr='k',value=-1,zz=1,input='a'",
        "2: value",
    ),
    (
        "name='b',kind='setattr',attr='k',value=-1,input=[]",
        "2: input",
    ),
    (
        "name='b c',kind='setattr',attr='k',value=-1,input='a'",
        "2: name",
    ),
    (
        "name='b',kind='delattr',attr='k',value=1,input='a'",
        "2: value",
    ),
];

/// The same of `match_attr`.
pub static MATCH_ATTR_PIPES: [(&str, &str); 38] = [
    (
        "name='b',kind='match_attr',attr='k',input='a'",
        "match_attr k 0 18446744073709551615 < 0",
    ),
    (
        "name='b',kind='match_attr',attr='k',low=0,high=0,input='a'",
        "match_attr k 0 0 < 0",
    ),
    (
        "name='b',kind='match_attr',attr='k',low=5,input='a'",
        "match_attr k 5 18446744073709551615 < 0",
    ),
    (
        "name='b',kind='match_attr',attr='k',high=5,input='a'",
        "match_attr k 0 5 < 0",
    ),
    (
        "name='b',kind='match_attr',attr='k',low=4,high=5,input=['a']",
        "match_attr k 4 5 < 0",
    ),
    (
        "name='b',kind='match_attr',attr='k',low=5,high=5,input='a'",
        "match_attr k 5 5 < 0",
    ),
    (
        "name='b',kind='match_attr',attr='k',low=6,high=5,input='a'",
        "2: low",
    ),
    (
        "name='b',kind='match_attr',attr='k',low=1,high=0,input='a'",
        "2: low",
    ),
    (
        "name='b',kind='match_attr',attr='k',low=9223372036854775807,input='a'",
        "match_attr k 9223372036854775807 18446744073709551615 < 0",
    ),
    (
        "name='b',kind='match_attr',attr='k',low=9223372036854775807,high=9223372036854775807,input='a'",
        "match_attr k 9223372036854775807 9223372036854775807 < 0",
    ),
    (
        "name='b',kind='match_attr',attr='k',low=9223372036854775807,high=9223372036854775806,input='a'",
        "2: low",
    ),
    (
        "name='b',kind='match_attr',attr='k',high=9223372036854775808,input='a'",
        "NotToml",
    ),
    (
        "name='b',kind='match_attr',attr='k',low=-1,input='a'",
        "2: low",
    ),
    (
        "name='b',kind='match_attr',attr='k',low=-1,high=5,input='a'",
        "2: low",
    ),
    (
        "name='b',kind='match_attr',attr='k',low='1',input='a'",
        "2: low",
    ),
    (
        "name='b',kind='match_attr',attr='k',low=1.0,high=5,input='a'",
        "2: low",
    ),
    (
        "name='b',kind='match_attr',attr='k',low=true,input='a'",
        "2: low",
    ),
    (
        "name='b',kind='match_attr',attr='k',low=[1],input='a'",
        "2: low",
    ),
    (
        "name='b',kind='match_attr',attr='k',high=-1,input='a'",
        "2: high",
    ),
    (
        "name='b',kind='match_attr',attr='k',high='5',input='a'",
        "2: high",
    ),
    (
        "name='b',kind='match_attr',attr='k',high=5.0,input='a'",
        "2: high",
    ),
    (
        "name='b',kind='match_attr',attr='k',high=false,input='a'",
        "2: high",
    ),
    (
        "name='b',kind='match_attr',attr='k',high={},input='a'",
        "2: high",
    ),
    (
        "name='b',kind='match_attr',attr='k',low=6,high='5',input='a'",
        "2: high",
    ),
    (
        "name='b',kind='match_attr',attr='k',low=-1,high=-1,input='a'",
        "2: high",
    ),
    (
        "name='b',kind='match_attr',attr='k',low=1,high=-1,input=[]",
        "2: high",
    ),
    ("name='b',kind='match_attr',input='a'", "2: attr"),
    (
        "name='b',kind='match_attr',low=1,high=2,input='a'",
        "2: attr",
    ),
    ("name='b',kind='match_attr',attr='',input='a'", "2: attr"),
    (
        "name='b',kind='match_attr',attr=true,low=6,high=5,input='a'",
        "2: attr",
    ),
    ("name='b',kind='match_attr',attr='k'", "2: input"),
    (
        "name='b',kind='match_attr',attr='k',low=6,high=5,input=[]",
        "2: input",
    ),
    (
        "name='b c',kind='match_attr',attr='k',low=6,high=5,input='a'",
        "2: low",
    ),
    (
        "name='b',kind='match_attr',attr='k',low=6,high=5,zz=1,input='a'",
        "2: low",
    ),
    (
        "name='b',kind='match_attr',attr='k',low=6,high=5,by=1,input='a'",
        "2: by",
    ),
    (
        "name='b',kind='match_attr',attr='k',value=1,input='a'",
        "2: value",
    ),
    (
        "name='b',kind='match_attr',attr='k',Low=1,input='a'",
        "2: Low",
    ),
    ("name='b',kind='matchattr',attr='k',input='a'", "2: kind"),
];

/// The same of `delay`.
pub static DELAY_PIPES: [(&str, &str); 22] = [
    ("name='b',kind='delay',by=0,input='a'", "delay 0 < 0"),
    ("name='b',kind='delay',by=+27,input=['a']", "delay 27 < 0"),
    ("name='b',kind='delay',by=-27,input='a'", "delay -27 < 0"),
    (
        "name='b',kind='delay',by=9223372036854775807,input='a'",
        "delay 9223372036854775807 < 0",
    ),
    (
        "name='b',kind='delay',by=-9223372036854775808,input='a'",
        "delay -9223372036854775808 < 0",
    ),
    (
        "name='b',kind='delay',by=9223372036854775808,input='a'",
        "NotToml",
    ),
    (
        "name='b',kind='delay',by=-9223372036854775809,input='a'",
        "NotToml",
    ),
    ("name='b',kind='delay',input='a'", "2: by"),
    ("name='b',kind='delay',by='1',input='a'", "2: by"),
    ("name='b',kind='delay',by=1.0,input='a'", "2: by"),
    ("name='b',kind='delay',by=inf,input='a'", "2: by"),
    ("name='b',kind='delay',by=true,input='a'", "2: by"),
    ("name='b',kind='delay',by=[1],input='a'", "2: by"),
    ("name='b',kind='delay',by={},input='a'", "2: by"),
    ("name='b',kind='delay',by=1979-05-27,input='a'", "2: by"),
    ("name='b',kind='delay',by=1", "2: input"),
    ("name='b',kind='delay',input=1", "2: by"),
    ("name='b c',kind='delay',input='a'", "2: by"),
    ("name='b',kind='delay',attr='k',by=1,input='a'", "2: attr"),
    ("name='b',kind='delay',attr='k',input='a'", "2: attr"),
    ("name='b',kind='delay',by=1,zz=1,input='a'", "2: zz"),
    ("name='b',kind='delay',bytes=1,input='a'", "2: by"),
];
