//! Files with one fault each, and its text.
use mesh_parts::fault::MeshFault;
use psconfig_mesh::mesh::Mesh;
use psconfig_mesh::read_mesh::read_mesh;
use std::alloc::{AllocError, Global};
use std::test::Fail;

fn read(alloc: Global, text: &str) -> Result<Mesh, MeshFault> {
    read_mesh(alloc, text.as_bytes(), 1_700_000_000)
}

/// The fault's text. What was read, and the fault, are let go here.
fn told(alloc: Global, text: &str) -> Result<String, AllocError> {
    match read(alloc, text) {
        Ok(_read) => String::from_str(alloc, "none"),
        Err(fault) => format!(in alloc; "{fault}"),
    }
}

fn check(alloc: Global, before: &str, cases: &str, after: &str) -> Result<(), Fail> {
    for case in cases.split('\n') {
        let (want, middle) = case.split_once(" <- ").ok_or("no case")?;
        let text = format!(in alloc; "{before}{middle}{after}")?;
        let told = told(alloc, text.as_str())?;
        if told.as_str() != want {
            return Err(Fail::new(format_args!("{middle} is told {told}")));
        }
    }
    Ok(())
}

static WHOLES: &str = r##"not json <- 
not json <- {
not json <- {"mesh":1e999}
wrong kind mesh <- []
wrong kind mesh <- "x"
missing mesh <- {}
missing mesh <- {"x":1,"#x":1}
wrong kind mesh <- {"mesh":1}
bad name  <- {"mesh":""}
bad name A <- {"mesh":"A"}
bad name -a <- {"mesh":"-a"}
missing addresses <- {"mesh":"m"}
wrong kind addresses <- {"mesh":"m","addresses":["a"]}
empty addresses <- {"mesh":"m","addresses":{}}
empty addresses <- {"mesh":"m","addresses":{"#a":"http://a"}}
bad name A <- {"mesh":"m","addresses":{"A":"http://a"}}
wrong kind a <- {"mesh":"m","addresses":{"a":1}}
bad url a <- {"mesh":"m","addresses":{"a":"a"}}
bad url a <- {"mesh":"m","addresses":{"a":""}}
bad url a <- {"mesh":"m","addresses":{"a":"https://a/pscheduler"}}
bad url a <- {"mesh":"m","addresses":{"a":"http://me@a/pscheduler"}}
bad url a <- {"mesh":"m","addresses":{"a":"http://me:secret@a/pscheduler"}}
bad url a <- {"mesh":"m","addresses":{"a":"http://a/pscheduler?x"}}
bad url a <- {"mesh":"m","addresses":{"a":"http://a/pscheduler#x"}}
bad url b <- {"mesh":"m","addresses":{"c":1,"b":"b","a":"http://a"}}
missing groups <- {"mesh":"m","addresses":{"a":"http://a"}}
missing groups <- {"mesh":"m","addresses":{"a":"http://a:8080/some/where"},"tasks":1,"x":1}"##;

#[test]
fn wholes(rt: HostRuntime) -> Result<(), Fail> {
    check(rt.alloc(), "", WHOLES, "")
}

static HOSTS: &str = r#"{"mesh":"m","addresses":{"a":"http://a","b":"http://b"},"#;

static GROUPS: &str = r##"wrong kind groups <- "groups":1
empty groups <- "groups":{}
wrong kind g <- "groups":{"g":[]}
missing type <- "groups":{"g":{}}
wrong kind type <- "groups":{"g":{"type":1}}
wrong kind type <- "groups":{"g":{"type":"ring","addresses":["a"]}}
missing addresses <- "groups":{"g":{"type":"list"}}
missing addresses <- "groups":{"g":{"type":"mesh","a-addresses":["a"]}}
wrong kind addresses <- "groups":{"g":{"type":"list","addresses":"a"}}
empty addresses <- "groups":{"g":{"type":"mesh","addresses":[]}}
wrong kind addresses <- "groups":{"g":{"type":"mesh","addresses":["a",1]}}
unknown name c <- "groups":{"g":{"type":"mesh","addresses":["a","c",1]}}
missing a-addresses <- "groups":{"g":{"type":"disjoint","addresses":["a"]}}
missing b-addresses <- "groups":{"g":{"type":"disjoint","a-addresses":["a"]}}
empty b-addresses <- "groups":{"g":{"type":"disjoint","a-addresses":["a"],"b-addresses":[]}}
unknown name c <- "groups":{"g":{"type":"disjoint","a-addresses":["a"],"b-addresses":["c"]}}
unknown member b-addresses <- "groups":{"g":{"type":"list","addresses":["a"],"b-addresses":["a"]}}
missing type <- "groups":{"h":1,"g":{"#type":"list"}}
missing tests <- "groups":{"g":{"type":"list","addresses":["a"],"#x":1}}
wrong kind tests <- "groups":{"g":{"type":"list","addresses":["a"]}},"tests":[]
wrong kind t <- "groups":{"g":{"type":"list","addresses":["a"]}},"tests":{"t":1}
missing tasks <- "groups":{"g":{"type":"list","addresses":["a"]}},"tests":{}
wrong kind schedules <- "groups":{"g":{"type":"list","addresses":["a"]}},"tests":{},"schedules":1
wrong kind s <- "groups":{"g":{"type":"list","addresses":["a"]}},"tests":{},"schedules":{"s":"PT1H"}"##;

#[test]
fn groups(rt: HostRuntime) -> Result<(), Fail> {
    check(rt.alloc(), HOSTS, GROUPS, "}")
}

// Before the tasks: `one` is a test of the lead alone, `two` of both hosts.
static WHAT: &str =
    r##""groups":{"l":{"type":"list","addresses":["a","b"]},"g":{"type":"mesh","addresses":["a","b"]}},
"tests":{"one":{"type":"idle","spec":{"duration":"PT1S","#second":"{% address[1] %}"}},
"two":{"type":"idlemany","spec":{"duration":"PT1S","hosts":["{% address[0] %}","{% address[1] %}"]}},
"turned":{"type":"idlemany","spec":{"duration":"PT1S","hosts":["{% address[1] %}","{% address[0] %}"]}},
"broken":{"type":"idle"}},
"schedules":{"hourly":{"repeat":"PT1H"},"never":{"repeat":"PT0S"}},"##;

static TASKS: &str = r##"wrong kind tasks <- "tasks":[]
empty tasks <- "tasks":{}
wrong kind k <- "tasks":{"k":1}
missing group <- "tasks":{"k":{}}
wrong kind group <- "tasks":{"k":{"group":1}}
unknown name x <- "tasks":{"k":{"group":"x"}}
missing test <- "tasks":{"k":{"group":"g"}}
wrong kind test <- "tasks":{"k":{"group":"g","test":{}}}
unknown name x <- "tasks":{"k":{"group":"g","test":"x"}}
bad template two <- "tasks":{"k":{"group":"l","test":"two","schedule":"x"}}
wrong kind schedule <- "tasks":{"k":{"group":"g","test":"two","schedule":1}}
unknown name x <- "tasks":{"k":{"group":"g","test":"two","schedule":"x"}}
unknown member reference <- "tasks":{"k":{"group":"g","test":"two","reference":1}}
unknown member tool <- "tasks":{"k":{"group":"g","test":"broken","tool":"sleep"}}
bad task k <- "tasks":{"k":{"group":"g","test":"broken"}}
bad task k <- "tasks":{"k":{"group":"g","test":"turned"}}
bad task k <- "tasks":{"k":{"group":"g","test":"two","schedule":"never"}}
bad task k <- "tasks":{"k":{"group":"g","test":"two","tools":5}}
bad task k <- "tasks":{"k":{"group":"g","test":"two","tools":["hammer"]}}
bad task k <- "tasks":{"k":{"group":"g","test":"two","archives":[{"archiver":"shelf"}]}}
bad task k <- "tasks":{"k":{"group":"g","test":"two","priority":1001}}
bad task j <- "tasks":{"k":{"group":"x"},"j":{"group":"g","test":"broken"}}
unknown name x <- "tasks":{"k":{"group":"x"},"j":{"group":"g","test":"two"}}
none <- "tasks":{"k":{"group":"l","test":"one"}}
none <- "tasks":{"k":{"group":"g","test":"two","schedule":"hourly","tools":["sleep"],"archives":[{"archiver":"bitbucket"}],"priority":5}}
unknown member more <- "tasks":{"k":{"group":"g","test":"two"}},"more":1,"#more":1"##;

#[test]
fn tasks(rt: HostRuntime) -> Result<(), Fail> {
    let before = format!(in rt.alloc(); "{HOSTS}{WHAT}")?;
    check(rt.alloc(), before.as_str(), TASKS, "}")
}
