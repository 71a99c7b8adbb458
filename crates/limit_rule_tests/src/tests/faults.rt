//! Lists of limits with one fault each, and its text.
use crate::tests::read;
use std::alloc::{AllocError, Global};
use std::test::Fail;

/// The fault's text. What was read, and the fault, are let go here.
fn told(alloc: Global, text: &str) -> Result<String, AllocError> {
    match read(alloc, text) {
        Ok(_read) => String::from_str(alloc, "none"),
        Err(fault) => format!(in alloc; "{fault}"),
    }
}

fn check(alloc: Global, before: &str, cases: &str, after: &str) -> Result<(), Fail> {
    for case in cases.split('\n') {
        let (want, middle) = case.split_once(" <- ").ok_or("no case")?;
        let text = format!(in alloc; "{before}{middle}{after}")?;
        let told = told(alloc, text.as_str())?;
        if told.as_str() != want {
            return Err(Fail::new(format_args!("{middle} is told {told}")));
        }
    }
    Ok(())
}

static LIMITS: &str = r##"wrong kind limits <- {}
empty limits <- []
wrong kind limits <- [1]
missing name <- [{}]
wrong kind name <- [{"name":1}]
missing type <- [{"name":"l"}]
wrong kind type <- [{"name":"l","type":1}]
unknown type pass <- [{"name":"l","type":"pass"}]
unknown type url-fetch <- [{"name":"l","type":"url-fetch","data":1}]
duplicate l <- [{"name":"l","type":"pass-fail"},{"name":"l","type":"pass"}]
wrong kind invert <- [{"name":"l","type":"pass-fail","invert":0}]
wrong kind description <- [{"name":"l","type":"pass-fail","description":1}]
unknown member b <- [{"name":"l","type":"pass-fail","c":1,"b":1}]
wrong kind data <- [{"name":"l","type":"pass-fail","data":[]}]
wrong kind pass <- [{"name":"l","type":"pass-fail","data":{"pass":1}}]
unknown member description <- [{"name":"l","type":"pass-fail","data":{"description":"d"}}]
missing data <- [{"name":"l","type":"test-type"}]
missing types <- [{"name":"l","type":"test-type","data":{}}]
wrong kind types <- [{"name":"l","type":"test-type","data":{"types":"idle"}}]
empty types <- [{"name":"l","type":"test-type","data":{"types":[]}}]
wrong kind types <- [{"name":"l","type":"test-type","data":{"types":["idle",1]}}]
unknown member x <- [{"name":"l","type":"test-type","data":{"types":["idle"],"x":1}}]
unknown name ping <- [{"name":"l","type":"test-type","data":{"types":["idle","ping",1],"x":1}}]
unknown name Idle <- [{"name":"l","type":"test-type","data":{"types":["Idle"]}}]
none <- [{"name":"l","type":"test-type","data":{"types":["idle","idleex","idlebgm","idlemany","simplestream"],"#x":1},"#y":1,"description":"d"}]"##;

#[test]
fn limits(rt: HostRuntime) -> Result<(), Fail> {
    check(rt.alloc(), "", LIMITS, "")
}

static TESTS: &str = r#"missing data <- [{"name":"l","type":"test"}]
missing test <- [{"name":"l","type":"test","data":{}}]
wrong kind test <- [{"name":"l","type":"test","data":{"test":1}}]
missing limit <- [{"name":"l","type":"test","data":{"test":"idle"}}]
wrong kind limit <- [{"name":"l","type":"test","data":{"test":"idle","limit":1}}]
unknown member jitter <- [{"name":"l","type":"test","data":{"test":"idle","limit":{"jitter":{}}}}]
wrong kind duration <- [{"name":"l","type":"test","data":{"test":"idle","limit":{"duration":"PT1S"}}}]
missing range <- [{"name":"l","type":"test","data":{"test":"idle","limit":{"duration":{}}}}]
wrong kind range <- [{"name":"l","type":"test","data":{"test":"idle","limit":{"duration":{"range":[]}}}}]
missing lower <- [{"name":"l","type":"test","data":{"test":"idle","limit":{"duration":{"range":{}}}}}]
missing upper <- [{"name":"l","type":"test","data":{"test":"idle","limit":{"duration":{"range":{"lower":"PT1S"}}}}}]
wrong kind lower <- [{"name":"l","type":"test","data":{"test":"idle","limit":{"duration":{"range":{"lower":1,"upper":"PT2S"}}}}}]
wrong kind upper <- [{"name":"l","type":"test","data":{"test":"idle","limit":{"duration":{"range":{"lower":"PT1S","upper":"2"}}}}}]
bad range duration <- [{"name":"l","type":"test","data":{"test":"idle","limit":{"duration":{"range":{"lower":"PT2S","upper":"PT1S","x":1}}}}}]
bad range timeout <- [{"name":"l","type":"test","data":{"test":"idle","limit":{"timeout":{"range":{"lower":"PT2S","upper":"PT1S"}}}}}]
unknown member x <- [{"name":"l","type":"test","data":{"test":"idle","limit":{"dawdle":{"range":{"lower":"PT1S","upper":"PT1S","x":1}}}}}]
unknown member y <- [{"name":"l","type":"test","data":{"test":"idle","limit":{"interval":{"range":{"lower":"PT1S","upper":"PT1S"},"y":1}}}}]
unknown name ping <- [{"name":"l","type":"test","data":{"test":"ping","limit":1}}]
unknown name  <- [{"name":"l","type":"test","data":{"test":""}}]
none <- [{"name":"l","type":"test","data":{"test":"idlemany","limit":{}}}]
missing data <- [{"name":"l","type":"run-daterange"}]
missing start <- [{"name":"l","type":"run-daterange","data":{}}]
wrong kind start <- [{"name":"l","type":"run-daterange","data":{"start":1}}]
wrong kind start <- [{"name":"l","type":"run-daterange","data":{"start":"PT1S"}}]
missing end <- [{"name":"l","type":"run-daterange","data":{"start":"1970-01-01T00:00"}}]
wrong kind end <- [{"name":"l","type":"run-daterange","data":{"start":"1970-01-01T00:00","end":"1970-02-30T00:00"}}]
bad range end <- [{"name":"l","type":"run-daterange","data":{"start":"1970-01-01T00:01","end":"1970-01-01T00:00:59"}}]
wrong kind overlap <- [{"name":"l","type":"run-daterange","data":{"start":"1970-01-01T00:00","end":"1970-01-01T00:00","overlap":1}}]
unknown member x <- [{"name":"l","type":"run-daterange","data":{"start":"1970-01-01T00:00","end":"1970-01-01T00:00","x":1}}]
none <- [{"name":"l","type":"run-daterange","data":{"start":"1970-01-01T00:00","end":"1970-01-01T00:00"}}]
missing data <- [{"name":"l","type":"run-schedule"}]"#;

#[test]
fn tests_and_dates(rt: HostRuntime) -> Result<(), Fail> {
    check(rt.alloc(), "", TESTS, "")
}

static SCHEDULES: &str = r##"wrong kind data <- 1
wrong kind month <- {"month":1}
wrong kind hour <- {"hour":{"lower":1,"upper":2}}
empty hour <- {"hour":[]}
bad range month <- {"month":[0]}
bad range month <- {"month":[1,13]}
bad range monthday <- {"monthday":[0]}
bad range monthday <- {"monthday":[32]}
bad range weekday <- {"weekday":[0]}
bad range weekday <- {"weekday":[8]}
bad range hour <- {"hour":[-1]}
bad range hour <- {"hour":[24]}
bad range hour <- {"hour":[9223372036854775807]}
bad range hour <- {"hour":[9223372036854775808]}
bad range hour <- {"hour":[18446744073709551615]}
wrong kind hour <- {"hour":[18446744073709551616]}
bad range hour <- {"hour":[-9223372036854775808]}
bad range hour <- {"hour":[{"lower":9223372036854775808,"upper":1}]}
bad range minute <- {"minute":[60]}
wrong kind hour <- {"hour":["1"]}
wrong kind hour <- {"hour":[1.5]}
wrong kind hour <- {"hour":[[1]]}
missing lower <- {"hour":[{}]}
missing upper <- {"hour":[{"lower":1}]}
wrong kind upper <- {"hour":[{"lower":1,"upper":"2"}]}
bad range hour <- {"hour":[{"lower":24,"upper":"2"}]}
bad range hour <- {"hour":[{"lower":2,"upper":24}]}
bad range hour <- {"hour":[{"lower":2,"upper":1,"x":1}]}
unknown member x <- {"hour":[{"lower":2,"upper":2,"x":1}]}
wrong kind overlap <- {"overlap":1}
unknown member year <- {"year":[2024],"zone":1}
bad range month <- {"hour":[24],"month":[13]}
none <- {"hour":[{"lower":2,"upper":2,"#x":1},0],"#":1}
none <- {}"##;

#[test]
fn schedules(rt: HostRuntime) -> Result<(), Fail> {
    let before = r#"[{"name":"l","type":"run-schedule","data":"#;
    check(rt.alloc(), before, SCHEDULES, "}]")
}
