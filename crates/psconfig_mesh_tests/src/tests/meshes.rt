//! Meshes, what they want, and how much they may want.
use mesh_parts::fault::MeshFault;
use ps_time::memory::Memory;
use psconfig_mesh::mesh::{Mesh, Wanted};
use psconfig_mesh::read_mesh::read_mesh;
use psconfig_mesh::wanted::wanted_tasks;
use std::alloc::{AllocError, Global};
use std::test::Fail;

/// What a mesh wants, or the text of its fault.
fn wanted(alloc: Global, text: &str) -> Result<Vec<Wanted>, MeshFault> {
    let mesh = read_mesh(alloc, text.as_bytes(), 1_700_000_000)?;
    Ok(wanted_tasks(alloc, &mesh)?)
}

/// The mesh's tasks, a line for each: its lead, the lead's URL, the mark.
fn lines(alloc: Global, wanted: &[Wanted]) -> Result<String, Memory> {
    let mut text = String::new(alloc);
    for task in wanted {
        let line = format!(in alloc; "{} {} {}\n", task.lead, task.url, task.mark)?;
        text.push_str(line.as_str())?;
    }
    Ok(text)
}

fn told(alloc: Global, text: &str) -> Result<String, Fail> {
    match wanted(alloc, text) {
        Ok(wanted) => Ok(lines(alloc, wanted.as_slice())?),
        Err(fault) => Ok(format!(in alloc; "{fault}")?),
    }
}

fn check(alloc: Global, file: &str, want: &str) -> Result<(), Fail> {
    let told = told(alloc, file)?;
    if told.as_str() != want {
        return Err(Fail::new(format_args!("told {told}")));
    }
    Ok(())
}

static THREE: &str =
    r#"{"mesh":"m","addresses":{"c":"http://c/pscheduler","b":"http://b/pscheduler","a":"http://a/pscheduler"},
"groups":{"all":{"type":"mesh","addresses":["b","a","c","b"]}},
"tests":{"both":{"type":"idlemany","spec":{"duration":"PT10S","hosts":["{% address[0] %}","{% address[1] %}"]}}},
"tasks":{"k":{"group":"all","test":"both"}}}"#;

static THREE_LINES: &str = r#"a http://a/pscheduler {"mesh":"m","pair":["a","b"],"task":"k"}
a http://a/pscheduler {"mesh":"m","pair":["a","c"],"task":"k"}
b http://b/pscheduler {"mesh":"m","pair":["b","a"],"task":"k"}
b http://b/pscheduler {"mesh":"m","pair":["b","c"],"task":"k"}
c http://c/pscheduler {"mesh":"m","pair":["c","a"],"task":"k"}
c http://c/pscheduler {"mesh":"m","pair":["c","b"],"task":"k"}
"#;

static DISJOINT: &str = r#"{"mesh":"m","addresses":{"a":"http://a","b":"http://b","c":"http://c"},
"groups":{"some":{"type":"disjoint","a-addresses":["a","b"],"b-addresses":["b","c"]}},
"tests":{"both":{"type":"idlemany","spec":{"duration":"PT10S","hosts":["{% address[0] %}","{% address[1] %}"]}}},
"tasks":{"k":{"group":"some","test":"both"}}}"#;

static DISJOINT_LINES: &str = r#"a http://a {"mesh":"m","pair":["a","b"],"task":"k"}
a http://a {"mesh":"m","pair":["a","c"],"task":"k"}
b http://b {"mesh":"m","pair":["b","a"],"task":"k"}
b http://b {"mesh":"m","pair":["b","c"],"task":"k"}
c http://c {"mesh":"m","pair":["c","a"],"task":"k"}
c http://c {"mesh":"m","pair":["c","b"],"task":"k"}
"#;

// Two tasks, by their names; the mesh of one host has no pairs.
static SINGLE: &str = r#"{"mesh":"m","addresses":{"a":"http://a","b":"http://b"},
"groups":{"list":{"type":"list","addresses":["b","a"]},"one":{"type":"mesh","addresses":["a"]}},
"tests":{"alone":{"type":"idle","spec":{"duration":"PT10S"}}},
"tasks":{"second":{"group":"list","test":"alone"},"first":{"group":"list","test":"alone"},"third":{"group":"one","test":"alone"}}}"#;

static SINGLE_LINES: &str = r#"a http://a {"mesh":"m","pair":["a"],"task":"first"}
b http://b {"mesh":"m","pair":["b"],"task":"first"}
a http://a {"mesh":"m","pair":["a"],"task":"second"}
b http://b {"mesh":"m","pair":["b"],"task":"second"}
"#;

static TEMPLATE: &str =
    r#"{"mesh":"m","addresses":{"a":"http://a"},"groups":{"list":{"type":"list","addresses":["a"]}},
"tests":{"both":{"type":"idlemany","spec":{"duration":"PT10S","hosts":["{% address[0] %}","{% address[1] %}"]}}},
"tasks":{"k":{"group":"list","test":"both"}}}"#;

#[test]
fn who_leads_what(rt: HostRuntime) -> Result<(), Fail> {
    check(rt.alloc(), THREE, THREE_LINES)?;
    check(rt.alloc(), DISJOINT, DISJOINT_LINES)?;
    check(rt.alloc(), SINGLE, SINGLE_LINES)?;
    check(rt.alloc(), TEMPLATE, "bad template both")
}

// All members of a task, comments, and templates at other places than a whole text of the test.
static BODY: &str =
    r##"{"mesh":"m","addresses":{"a":"http://a"},"groups":{"list":{"type":"list","addresses":["a"]}},
"tests":{"t":{"#x":0.5,"type":"idle","spec":{"duration":"PT10S","starting-comment":"{% address[0] %}","parting-comment":"by {% address[0] %}"}}},
"schedules":{"hourly":{"repeat":"PT1H","#x":[]}},
"tasks":{"{% address[0] %}":{"group":"list","test":"t","schedule":"hourly","tools":["snooze","sleep"],"archives":[{"archiver":"failer","data":{"fail":1}}],"priority":-5}}}"##;

static BODY_TEXT: &str =
    r#"{"archives":[{"archiver":"failer","data":{"fail":1}}],"priority":-5,"reference":{"mesh":"m","pair":["a"],"task":"{% address[0] %}"},"schedule":{"repeat":"PT1H"},"test":{"spec":{"duration":"PT10S","parting-comment":"by {% address[0] %}","starting-comment":"a"},"type":"idle"},"tools":["snooze","sleep"]}"#;

fn has_body(wanted: &[Wanted], body: &str) -> bool {
    match wanted {
        [only] => only.body.as_str() == body,
        _ => false,
    }
}

fn check_body(alloc: Global, file: &str, body: &str) -> Result<bool, MeshFault> {
    let wanted = wanted(alloc, file)?;
    Ok(has_body(wanted.as_slice(), body))
}

#[test]
fn what_is_posted(rt: HostRuntime) -> Result<(), Fail> {
    assert!(rt; check_body(rt.alloc(), BODY, BODY_TEXT)?);
    Ok(())
}

// Between two parts of a list.
fn add_comma(text: &mut String, place: u64) -> Result<(), AllocError> {
    if place > 0 {
        write!(text, ",")?;
    }
    Ok(())
}

fn add_addresses(text: &mut String, hosts: u64) -> Result<(), AllocError> {
    for host in 0..hosts {
        add_comma(text, host)?;
        write!(text, "\"h{host}\":\"http://h{host}/pscheduler\"")?;
    }
    Ok(())
}

fn add_names(text: &mut String, hosts: u64) -> Result<(), AllocError> {
    for host in 0..hosts {
        add_comma(text, host)?;
        write!(text, "\"h{host}\"")?;
    }
    Ok(())
}

fn add_tasks(text: &mut String, tasks: u64, group: &str) -> Result<(), AllocError> {
    for task in 0..tasks {
        add_comma(text, task)?;
        write!(text, "\"k{task}\":{{\"group\":\"{group}\",\"test\":\"t\"}}")?;
    }
    Ok(())
}

fn add_groups(text: &mut String, hosts: u64) -> Result<(), AllocError> {
    write!(
        text,
        "}},\"groups\":{{\"all\":{{\"type\":\"mesh\",\"addresses\":["
    )?;
    add_names(text, hosts)?;
    write!(text, "]}},\"list\":{{\"type\":\"list\",\"addresses\":[")?;
    add_names(text, hosts)
}

/// A mesh of so many hosts, with so many tasks over one of its two groups.
fn large(alloc: Global, hosts: u64, tasks: u64, group: &str) -> Result<String, AllocError> {
    let mut text = String::new(alloc);
    write!(text, "{{\"mesh\":\"m\",\"addresses\":{{")?;
    add_addresses(&mut text, hosts)?;
    add_groups(&mut text, hosts)?;
    write!(
        text,
        "]}}}},\"tests\":{{\"t\":{{\"type\":\"idle\",\"spec\":{{\"duration\":\"PT1S\"}}}}}},\"tasks\":{{"
    )?;
    add_tasks(&mut text, tasks, group)?;
    write!(text, "}}}}")?;
    Ok(text)
}

/// How many tasks such a mesh wants, or the text of its fault.
fn count(alloc: Global, hosts: u64, tasks: u64, group: &str) -> Result<String, Fail> {
    let text = large(alloc, hosts, tasks, group)?;
    match wanted(alloc, text.as_str()) {
        Ok(wanted) => Ok(format!(in alloc; "{}", wanted.len())?),
        Err(fault) => Ok(format!(in alloc; "{fault}")?),
    }
}

static COUNTS: [(u64, u64, &str, &str); 3] = [
    (65, 1, "all", "too many addresses"),
    (1, 64, "list", "64"),
    (1, 65, "list", "too many tasks"),
];

fn check_counts(alloc: Global, cases: &[(u64, u64, &str, &str)]) -> Result<(), Fail> {
    for (hosts, tasks, group, want) in cases {
        let told = count(alloc, *hosts, *tasks, *group)?;
        if told.as_str() != *want {
            return Err(Fail::new(format_args!("{hosts} hosts: {told}")));
        }
    }
    Ok(())
}

#[test]
fn how_many_are_wanted(rt: HostRuntime) -> Result<(), Fail> {
    check_counts(rt.alloc(), &COUNTS)
}

#[test]
fn each_of_64_with_each_other(rt: HostRuntime) -> Result<(), Fail> {
    let told = count(rt.alloc(), 64, 1, "all")?;
    assert!(rt; told.as_str() == "4032");
    Ok(())
}

#[test]
fn twice_each_of_64_with_each_other(rt: HostRuntime) -> Result<(), Fail> {
    let told = count(rt.alloc(), 64, 2, "all")?;
    assert!(rt; told.as_str() == "too many tasks");
    Ok(())
}
