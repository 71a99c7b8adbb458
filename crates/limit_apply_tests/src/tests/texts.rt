//! Texts of configurations.
use crate::tests::read;
use limit_apply::limits::Limits;
use limit_ident::fault::LimitFault;
use ps_time::memory::Memory;
use ps_time::text::Text;
use std::alloc::Global;
use std::test::Fail;

// The text, and a tree.
static TEXTS: &str =
    r##"{"applications":[{"apply":[{"limits":["no"],"require":"all"}],"classifier":"c"}],"classifiers":[{"identifiers":["i"],"name":"c"}],"identifiers":[{"name":"i","type":"always"}],"limits":[{"data":{"pass":false},"name":"no","type":"pass-fail"}]} <- {"applications":[{"apply":[{"limits":["no"],"require":"all"}],"classifier":"c"}],"classifiers":[{"identifiers":["i"],"name":"c"}],"identifiers":[{"name":"i","type":"always"}],"limits":[{"data":{"pass":false},"name":"no","type":"pass-fail"}]}
{"applications":[{"apply":[{"limits":["l"],"require":"all"}],"classifier":"c"}],"classifiers":[{"identifiers":["i"],"name":"c"}],"description":"d","identifiers":[{"data":{},"invert":false,"name":"i","type":"always"}],"limits":[{"name":"l","type":"pass-fail"}],"schema":1} <- { "#" : 1, "schema" : 1, "description" : "d", "identifiers" : [ { "type" : "always", "name" : "i", "#x" : [ 1.5 ], "invert" : false, "data" : { "#y" : { "z" : null } } } ], "classifiers" : [ { "name" : "c", "identifiers" : [ "i" ] } ], "limits" : [ { "type" : "pass-fail", "name" : "l" } ], "applications" : [ { "classifier" : "c", "apply" : [ { "require" : "all", "#r" : "all", "limits" : [ "l" ] } ] } ] }
{"applications":[{"apply":[{"limits":["\"#é\""],"require":"all"}],"classifier":"c"}],"classifiers":[{"identifiers":["i"],"name":"c"}],"identifiers":[{"name":"i","type":"always"}],"limits":[{"name":"\"#é\"","type":"pass-fail"}],"priorities":{"default":-5}} <- {"identifiers":[{"name":"i","type":"always"}],"classifiers":[{"name":"c","identifiers":["\u0069"]}],"limits":[{"name":"\"#\u00e9\"","type":"pass-fail"}],"applications":[{"classifier":"c","apply":[{"require":"all","limits":["\"#\u00e9\""]}]}],"priorities":{"default":-5,"#default":3}}"##;

fn copied_text(alloc: Global, limits: &Limits) -> Result<Text, Memory> {
    Text::new(alloc, limits.text())
}

fn text_of(alloc: Global, tree: &str) -> Result<Text, LimitFault> {
    let limits = read(alloc, tree)?;
    Ok(copied_text(alloc, &limits)?)
}

fn check(alloc: Global, cases: &str) -> Result<(), Fail> {
    for case in cases.split('\n') {
        let (want, tree) = case.split_once(" <- ").ok_or("no case")?;
        let told = text_of(alloc, tree)?;
        let again = text_of(alloc, told.as_str())?;
        if told.as_str() != want || again.as_str() != want {
            return Err(Fail::new(format_args!("{tree} has the text {told}")));
        }
    }
    Ok(())
}

#[test]
fn texts(rt: HostRuntime) -> Result<(), Fail> {
    check(rt.alloc(), TEXTS)
}

fn open_text(alloc: Global) -> Result<Text, Memory> {
    let limits = Limits::open(alloc)?;
    copied_text(alloc, &limits)
}

#[test]
fn the_text_of_the_open_configuration(rt: HostRuntime) -> Result<(), Fail> {
    let text = open_text(rt.alloc())?;
    let again = text_of(rt.alloc(), text.as_str())?;
    assert!(rt; again == text);
    Ok(())
}

/// Whether a configuration has exactly this text.
fn is_own(alloc: Global, text: &str) -> Result<bool, Memory> {
    Ok(Limits::from_own_text(alloc, text)?.is_some())
}

fn check_own(alloc: Global, cases: &str) -> Result<(), Fail> {
    for case in cases.split('\n') {
        let (own, tree) = case.split_once(" <- ").ok_or("no case")?;
        if !is_own(alloc, own)? || is_own(alloc, tree)? != (own == tree) {
            return Err(Fail::new(format_args!("{case}")));
        }
    }
    Ok(())
}

#[test]
fn texts_of_ones_own(rt: HostRuntime) -> Result<(), Fail> {
    check_own(rt.alloc(), TEXTS)?;
    let object = is_own(rt.alloc(), "{}")?;
    let nothing = is_own(rt.alloc(), "")?;
    assert!(rt; !object && !nothing);
    Ok(())
}
