//! Requests that a host understands, for measuring. Its words are the kind of request and how often it is understood. It
//! prints how often it was. The status is 2 for other words, and 1 without memory.
#![tactic(auto)]

use api_input::understand::understand;
use host_model::config::Config;
use limit_apply::limits::Limits;
use ps_http::message::Request;
use ps_time::items::Items;
use ps_time::memory::Memory;
use ps_time::text::Text;
use std::alloc::Global;
use std::process::ExitCode;
use std::{env, io, println};

/// What is asked.
#[derive(Clone, Copy)]
enum Kind {
    /// The first of the paths.
    Home,
    /// A run, which is among the last of them.
    Run,
    /// The schedule of a day.
    Schedule,
    /// A task with a body of 52 bytes.
    Post,
}

/// What is measured.
#[derive(Clone, Copy)]
struct Task {
    kind: Kind,
    count: u32,
}

fn method_of(kind: Kind) -> &'static str {
    match kind {
        Kind::Post => "POST",
        _ => "GET",
    }
}

fn path_of(kind: Kind) -> &'static str {
    match kind {
        Kind::Home => "/pscheduler",
        Kind::Run => {
            "/pscheduler/tasks/00010000-0001-8000-8000-000000000000/runs/00010000-0001-8001-8000-000000000000"
        }
        Kind::Schedule => "/pscheduler/schedule",
        Kind::Post => "/pscheduler/tasks",
    }
}

fn body_of(kind: Kind) -> &'static str {
    match kind {
        Kind::Post => r#"{"test":{"spec":{"duration":"PT10S"},"type":"idle"}}"#,
        _ => "",
    }
}

fn a_query(alloc: Global, kind: Kind) -> Result<Option<Text>, Memory> {
    match kind {
        Kind::Schedule => Ok(Some(Text::new(
            alloc,
            "start=2026-01-01T00:00:00Z&end=2026-01-02T00:00:00Z",
        )?)),
        _ => Ok(None),
    }
}

fn bytes_of(alloc: Global, text: &str) -> Result<Items<u8>, Memory> {
    Ok(Items::from_vec(Vec::from_slice(alloc, text.as_bytes())?))
}

fn a_request(alloc: Global, kind: Kind) -> Result<Request, Memory> {
    let method = Text::new(alloc, method_of(kind))?;
    let path = Text::new(alloc, path_of(kind))?;
    let query = a_query(alloc, kind)?;
    Ok(Request {
        method,
        path,
        query,
        peer: None,
        close: false,
        body: bytes_of(alloc, body_of(kind))?,
    })
}

/// The host `a` with number 1, without peers.
fn a_host(alloc: Global) -> Result<Config, Memory> {
    let name = Text::new(alloc, "a")?;
    let authority = Text::new(alloc, "localhost:8080")?;
    Ok(Config {
        number: 1,
        name,
        authority,
        peers: Items::new(alloc),
        installed: Items::new(alloc),
        limits: Limits::open(alloc)?,
    })
}

fn is_understood(alloc: Global, config: &Config, request: &Request) -> bool {
    understand(alloc, config, request, "10.0.0.9", 1000).is_ok()
}

fn count_understood(alloc: Global, config: &Config, request: &Request, count: u32) -> u64 {
    let mut understood: u64 = 0;
    for _ in 0..count {
        if is_understood(alloc, config, request) {
            understood = understood.wrapping_add(1);
        }
    }
    understood
}

fn measured(alloc: Global, task: &Task) -> Result<u64, Memory> {
    let config = a_host(alloc)?;
    let request = a_request(alloc, task.kind)?;
    Ok(count_understood(alloc, &config, &request, task.count))
}

fn kind_of(word: &str) -> Option<Kind> {
    match word {
        "home" => Some(Kind::Home),
        "run" => Some(Kind::Run),
        "schedule" => Some(Kind::Schedule),
        "post" => Some(Kind::Post),
        _ => None,
    }
}

fn task_of(rt: &HostRuntime) -> io::Result<Option<Task>> {
    let mut words = env::args(rt)?.skip(1);
    let (Some(kind), Some(count)) = (words.next(), words.next()) else {
        return Ok(None);
    };
    let (Some(kind), Ok(count)) = (kind_of(kind.as_str()), count.parse()) else {
        return Ok(None);
    };
    Ok(Some(Task { kind, count }))
}

fn main(rt: HostRuntime) -> ExitCode {
    let Ok(Some(task)) = task_of(&rt) else {
        return ExitCode::from(2);
    };
    match measured(rt.alloc(), &task) {
        Ok(understood) => print_count(&rt, understood),
        Err(Memory) => ExitCode::from(1),
    }
}

fn print_count(rt: &HostRuntime, understood: u64) -> ExitCode {
    match println!(rt; "{understood} understood") {
        Ok(()) => ExitCode::SUCCESS,
        Err(_) => ExitCode::from(1),
    }
}
