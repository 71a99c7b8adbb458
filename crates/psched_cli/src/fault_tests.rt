//! Tests of what no clause says: that a source or a sink that fails at any call is told as such, and an input that is too
//! long. Words, scripts and configurations stand in examples/.
use crate::calls::run;
use std::alloc::{AllocError, Global};
use std::process::Abort;
use std::test::Fail;

const TOUCHING: &[u8] = b"\
host a 1
50 a book exclusive 0 100 50
50 a book exclusive 0 150 50
";

const TOUCHING_REPORT: &str = "\
1 ok
2 accepted 00010000-0000-8001-8000-000000010000
3 accepted 00010000-0000-8001-8000-000000020000
a 100 150 exclusive 0 pending 00010000-0000-8001-8000-000000010000
a 150 200 exclusive 0 pending 00010000-0000-8001-8000-000000020000
";

const NO_WORK: &str = "\
hosts 8
tasks 0
messages 0
lost 0
crashes 0
pending 0
on-deck 0
running 0
cleanup 0
finished 0
overdue 0
missed 0
failed 0
preempted 0
nonstart 0
canceled 0
";

const USUAL: &[u8] = br#"{"identifiers":[{"name":"everybody","type":"always","data":{}},
{"name":"local","type":"ip-cidr-list","data":{"cidrs":["127.0.0.0/8","::1/128"]}},
{"name":"friends","type":"ip-cidr-list","data":{"cidrs":["10.1.0.0/16","192.0.2.0/24"]}},
{"name":"hostile","type":"ip-cidr-list","data":{"cidrs":["198.51.100.0/24"]}}],
"classifiers":[{"name":"hostiles","identifiers":["hostile"]},
{"name":"locals","identifiers":["local"]},
{"name":"friends","identifiers":["friends"]},
{"name":"default","identifiers":["everybody"]}],
"limits":[{"name":"always","type":"pass-fail","data":{"pass":true}},
{"name":"never","type":"pass-fail","data":{"pass":false}},
{"name":"innocuous","type":"test-type","data":{"types":["idle","idlebgm"]}},
{"name":"idle-short","type":"test","data":{"test":"idle","limit":{"duration":{"range":{"lower":"PT1S","upper":"PT10M"}}}}}],
"applications":[
{"classifier":"hostiles","apply":[{"require":"all","limits":["never"]}],"stop-on-failure":true},
{"classifier":"locals","apply":[{"require":"all","limits":["always"]}]},
{"classifier":"friends","apply":[{"require":"any","limits":["innocuous"]}]},
{"classifier":"default","apply":[{"require":"any","limits":["idle-short"]}]}],
"priorities":{"default":0,"classifiers":[{"classifier":"locals","ceiling":100}]}}
"#;

const USUAL_LINE: &str = "valid: 4 identifiers, 4 classifiers, 4 limits, 4 applications\n";

/// Words, an input, the reads and the writes that fail, and the status and text that come of it.
type Faulty = (
    &'static str,
    &'static [u8],
    &'static [u64],
    &'static [u64],
    u8,
    &'static str,
);

// The first read gives the whole input, and the second the end; other words read nothing. One write
// takes a whole text, and of an empty text nothing is written.
static FAULTY: [Faulty; 16] = [
    ("rehearse", TOUCHING, &[1], &[], 3, "cannot read\n"),
    ("rehearse", TOUCHING, &[2], &[], 3, "cannot read\n"),
    ("--version", TOUCHING, &[1], &[], 0, "psched 0.1.0\n"),
    ("generate 0", TOUCHING, &[1], &[], 0, NO_WORK),
    ("generate 0", b"", &[], &[1], 4, ""),
    ("rehearse", TOUCHING, &[], &[1], 4, ""),
    ("rehearse", b"10", &[], &[1], 4, ""),
    ("--help", b"", &[], &[1], 4, ""),
    ("", b"", &[], &[1], 4, ""),
    ("rehearse", b"", &[], &[1], 0, ""),
    ("rehearse", TOUCHING, &[], &[2], 0, TOUCHING_REPORT),
    ("validate-limits", USUAL, &[1], &[], 3, "cannot read\n"),
    ("validate-limits", USUAL, &[2], &[], 3, "cannot read\n"),
    ("validate-limits", USUAL, &[], &[1], 4, ""),
    ("validate-limits", USUAL, &[3], &[2], 0, USUAL_LINE),
    ("validate-limits", b"{}", &[], &[1], 4, ""),
];

fn expect_faults(rt: &impl Abort, alloc: Global, cases: &[Faulty]) -> Result<(), AllocError> {
    for (words, input, reads, writes, status, text) in cases {
        let ran = run(alloc, words, input.to_vec(alloc)?, reads, writes, text)?;
        assert!(rt; ran.tells(*status), "{words} {status}: {text}");
    }
    Ok(())
}

#[test]
fn reads_and_writes_fail(rt: HostRuntime) -> Result<(), Fail> {
    expect_faults(&rt, rt.alloc(), &FAULTY)?;
    Ok(())
}

// Blanks behind the configuration belong to its text.
#[test]
fn one_byte_more_than_64_mib(rt: HostRuntime) -> Result<(), Fail> {
    let alloc = rt.alloc();
    let mut bytes = USUAL.to_vec(alloc)?;
    bytes.resize(67_108_865, b' ')?;
    let ran = run(
        alloc,
        "validate-limits",
        bytes,
        &[],
        &[],
        "input too long\n",
    )?;
    assert!(rt; ran.tells(2));
    Ok(())
}
