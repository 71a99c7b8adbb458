//! Configurations with one fault each, and its text.
use crate::tests::read;
use std::alloc::{AllocError, Global};
use std::test::Fail;

// Before the member that a table is about, and behind it.
static WHO: &str =
    r#"{"identifiers":[{"name":"i","type":"always"}],"classifiers":[{"name":"c","identifiers":["i"]}],"#;

static WHAT: &str = r#""limits":[{"name":"l","type":"pass-fail"}],"#;

static USES: &str =
    r#","applications":[{"classifier":"c","apply":[{"require":"all","limits":["l"]}]}]}"#;

/// The fault's text. What was read, and the fault, are let go here.
fn told(alloc: Global, text: &str) -> Result<String, AllocError> {
    match read(alloc, text) {
        Ok(_read) => String::from_str(alloc, "none"),
        Err(fault) => format!(in alloc; "{fault}"),
    }
}

fn check(alloc: Global, before: &str, cases: &str, after: &str) -> Result<(), Fail> {
    for case in cases.split('\n') {
        let (want, middle) = case.split_once(" <- ").ok_or("no case")?;
        let text = format!(in alloc; "{before}{middle}{after}")?;
        let told = told(alloc, text.as_str())?;
        if told.as_str() != want {
            return Err(Fail::new(format_args!("{middle} is told {told}")));
        }
    }
    Ok(())
}

static WHOLES: &str = r##"not json <- [
not json <- {"identifiers":
wrong kind limits <- []
wrong kind limits <- "x"
missing identifiers <- {}
missing identifiers <- {"x":1,"#x":1}
wrong kind schema <- {"schema":"1"}
wrong kind schema <- {"schema":1.0}
bad range schema <- {"schema":0}
bad range schema <- {"schema":6}
bad range schema <- {"schema":-1}
bad range schema <- {"schema":9223372036854775808}
bad range schema <- {"schema":18446744073709551615}
wrong kind schema <- {"schema":18446744073709551616}
missing identifiers <- {"schema":1}
missing identifiers <- {"schema":5}
wrong kind identifiers <- {"identifiers":{}}
empty identifiers <- {"identifiers":[]}
unknown type net <- {"identifiers":[{"name":"i","type":"net"}]}
missing classifiers <- {"identifiers":[{"name":"i","type":"always"}],"limits":[]}
empty classifiers <- {"identifiers":[{"name":"i","type":"always"}],"classifiers":[]}
missing limits <- {"identifiers":[{"name":"i","type":"always"}],"classifiers":[{"name":"c","identifiers":["i"]}],"x":1}
wrong kind limits <- {"identifiers":[{"name":"i","type":"always"}],"classifiers":[{"name":"c","identifiers":["i"]}],"limits":{}}
unknown name j <- {"identifiers":[{"name":"i","type":"always"}],"classifiers":[{"name":"c","identifiers":["j"]}]}"##;

#[test]
fn wholes(rt: HostRuntime) -> Result<(), Fail> {
    check(rt.alloc(), "", WHOLES, "")
}

static APPLICATIONS: &str = r##"missing applications <- "x":1
wrong kind applications <- "applications":1
empty applications <- "applications":[]
wrong kind applications <- "applications":["c"]
missing classifier <- "applications":[{}]
wrong kind classifier <- "applications":[{"classifier":1}]
unknown name d <- "applications":[{"classifier":"d"}]
missing apply <- "applications":[{"classifier":"c"}]
wrong kind apply <- "applications":[{"classifier":"c","apply":{}}]
empty apply <- "applications":[{"classifier":"c","apply":[]}]
wrong kind apply <- "applications":[{"classifier":"c","apply":["l"]}]
missing require <- "applications":[{"classifier":"c","apply":[{"limits":["l"]}]}]
wrong kind require <- "applications":[{"classifier":"c","apply":[{"require":"two"}]}]
missing limits <- "applications":[{"classifier":"c","apply":[{"require":"all"}]}]
wrong kind limits <- "applications":[{"classifier":"c","apply":[{"require":"all","limits":"l"}]}]
empty limits <- "applications":[{"classifier":"c","apply":[{"require":"any","limits":[]}]}]
unknown name m <- "applications":[{"classifier":"c","apply":[{"require":"one","limits":["l","m"]}]}]
unknown member x <- "applications":[{"classifier":"c","apply":[{"require":"none","limits":["l"],"x":1}]}]
wrong kind invert <- "applications":[{"classifier":"c","apply":[{"require":"all","limits":["l"]}],"invert":"no"}]
wrong kind stop-on-failure <- "applications":[{"classifier":"c","apply":[{"require":"all","limits":["l"]}],"stop-on-failure":0}]
wrong kind description <- "applications":[{"classifier":"c","apply":[{"require":"all","limits":["l"]}],"description":[]}]
unknown member x <- "applications":[{"classifier":"c","apply":[{"require":"all","limits":["l"]}],"x":1}]
none <- "applications":[{"classifier":"c","apply":[{"require":"all","limits":["l"],"description":"d"}],"#":1}],"description":"d","#":1"##;

#[test]
fn applications(rt: HostRuntime) -> Result<(), Fail> {
    check(
        rt.alloc(),
        WHO,
        APPLICATIONS,
        r#","limits":[{"name":"l","type":"pass-fail"}]}"#,
    )
}

static PRIORITIES: &str = r#"wrong kind priorities <- "priorities":1
wrong kind default <- "priorities":{"default":"0"}
bad range default <- "priorities":{"default":1001}
bad range default <- "priorities":{"default":-1001}
bad range default <- "priorities":{"default":9223372036854775808}
wrong kind default <- "priorities":{"default":1e2}
wrong kind classifiers <- "priorities":{"classifiers":{}}
wrong kind classifiers <- "priorities":{"classifiers":[1]}
missing classifier <- "priorities":{"classifiers":[{}]}
unknown name d <- "priorities":{"classifiers":[{"classifier":"d"}]}
missing ceiling <- "priorities":{"classifiers":[{"classifier":"c"}]}
wrong kind ceiling <- "priorities":{"classifiers":[{"classifier":"c","ceiling":0.5}]}
bad range ceiling <- "priorities":{"classifiers":[{"classifier":"c","ceiling":1001}]}
bad range ceiling <- "priorities":{"classifiers":[{"classifier":"c","ceiling":-1001}]}
bad range ceiling <- "priorities":{"classifiers":[{"classifier":"c","ceiling":18446744073709551615}]}
unknown member x <- "priorities":{"classifiers":[{"classifier":"c","ceiling":1000,"x":1}]}
unknown member x <- "priorities":{"default":-1000,"classifiers":[],"x":1}
wrong kind description <- "priorities":{},"description":1
unknown member x <- "priorities":{"description":"d"},"x":1
none <- "priorities":{"default":1000,"classifiers":[{"classifier":"c","ceiling":-1000,"description":"d"}],"description":"d"},"schema":3"#;

#[test]
fn priorities(rt: HostRuntime) -> Result<(), Fail> {
    let before = format!(in rt.alloc(); "{WHO}{WHAT}")?;
    check(rt.alloc(), before.as_str(), PRIORITIES, USES)
}
