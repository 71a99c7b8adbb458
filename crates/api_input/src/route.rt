//! The paths of the interface, and the methods of each.
ghost use Rattle.std.specs.Prelude.{◌≡◌, [], ◌∷◌};
ghost use Rattle.api_input.specs.Routes.{methods_text, allows, found, found_of, is_under, route_of};

use crate::parts::Parts;

/// The methods that a path has.
#[derive(Clone, Copy, Debug, PartialEq, Eq)]
pub enum Methods {
    Get,
    GetPost,
    GetDelete,
    Post,
    Put,
    Delete,
}

impl Methods {
    /// The methods as the field Allow of a response names them (RFC 9110, 10.2.1).
    pub fn text(self) -> &'static str
        ensures { result.now ≡ methods_text self }
    {
        match self {
            Methods::Get => "GET",
            Methods::GetPost => "GET, POST",
            Methods::GetDelete => "GET, DELETE",
            Methods::Post => "POST",
            Methods::Put => "PUT",
            Methods::Delete => "DELETE",
        }
    }

    /// Whether the path has this method.
    pub fn allows(self, method: &str) -> bool
        ensures { result ≡ allows self method.now }
    {
        match self {
            Methods::Get => method == "GET",
            Methods::GetPost => method == "GET" || method == "POST",
            Methods::GetDelete => method == "GET" || method == "DELETE",
            Methods::Post => method == "POST",
            Methods::Put => method == "PUT",
            Methods::Delete => method == "DELETE",
        }
    }
}

/// What a path is for.
#[derive(Clone, Copy, Debug, PartialEq, Eq)]
pub enum Route {
    Home,
    Clock,
    Tests,
    Tools,
    Archivers,
    /// One test, by its name.
    Test,
    Tasks,
    Task,
    Runs,
    Run,
    Schedule,
    /// A peer's question for free starts.
    Free,
    /// A peer's proposal.
    Propose,
    /// A peer's run, which may be dropped.
    Drop,
    Confirm,
    Material,
    Result,
}

/// The route of a path, and the path's methods.
#[derive(Clone, Copy, Debug, PartialEq, Eq)]
pub struct Found {
    pub route: Route,
    pub methods: Methods,
}

impl Found {
    fn new(route: Route, methods: Methods) -> Option<Found>
        ensures { result ≡ found route methods }
    {
        Some(Found { route, methods })
    }
}

fn route_of_one(page: &str) -> Option<Found>
    ensures { result ≡ found_of (page.now ∷ []) }
{
    match page {
        "clock" => Found::new(Route::Clock, Methods::Get),
        "tests" => Found::new(Route::Tests, Methods::Get),
        "tools" => Found::new(Route::Tools, Methods::Get),
        "archivers" => Found::new(Route::Archivers, Methods::Get),
        "tasks" => Found::new(Route::Tasks, Methods::GetPost),
        "schedule" => Found::new(Route::Schedule, Methods::Get),
        _ => None,
    }
}

fn route_of_two(first: &str, second: &str) -> Option<Found>
    ensures { result ≡ found_of (first.now ∷ second.now ∷ []) }
{
    match first {
        "tests" if !second.is_empty() => Found::new(Route::Test, Methods::Get),
        "tasks" => Found::new(Route::Task, Methods::GetDelete),
        "peer" => match second {
            "free" => Found::new(Route::Free, Methods::Post),
            "runs" => Found::new(Route::Propose, Methods::Post),
            _ => None,
        },
        _ => None,
    }
}

fn route_of_three(first: &str, second: &str, third: &str) -> Option<Found>
    ensures { result ≡ found_of (first.now ∷ second.now ∷ third.now ∷ []) }
{
    if first == "tasks" && third == "runs" {
        return Found::new(Route::Runs, Methods::Get);
    }
    if first == "peer" && second == "runs" {
        return Found::new(Route::Drop, Methods::Delete);
    }
    None
}

fn route_of_four(first: &str, second: &str, third: &str, fourth: &str) -> Option<Found>
    ensures { result ≡ found_of (first.now ∷ second.now ∷ third.now ∷ fourth.now ∷ []) }
{
    if first == "tasks" && third == "runs" {
        return Found::new(Route::Run, Methods::Get);
    }
    if first != "peer" || second != "runs" {
        return None;
    }
    match fourth {
        "confirm" => Found::new(Route::Confirm, Methods::Put),
        "material" => Found::new(Route::Material, Methods::Put),
        "result" => Found::new(Route::Result, Methods::Get),
        _ => None,
    }
}

/// Whether the path begins with `/pscheduler`.
fn is_under(parts: &Parts) -> bool
    ensures { result ≡ is_under parts.now }
{
    parts.at(0).is_empty() && parts.at(1) == "pscheduler"
}

/// The route of a path that is cut at its slashes, and its methods; `None` where no path of the interface is so.
pub fn find_route(parts: &Parts) -> Option<Found>
    ensures { result ≡ route_of parts.now }
{
    if !is_under(parts) {
        return None;
    }
    match parts.len() {
        2 => Found::new(Route::Home, Methods::Get),
        3 => route_of_one(parts.at(2)),
        4 => route_of_two(parts.at(2), parts.at(3)),
        5 => route_of_three(parts.at(2), parts.at(3), parts.at(4)),
        6 => route_of_four(parts.at(2), parts.at(3), parts.at(4), parts.at(5)),
        _ => None,
    }
}
