//! What a path names.
ghost use Rattle.std.specs.Prelude.{◌≡◌, ◌≤◌, ◌==◌, ◌&&◌, IfSome, IsTrue, Some, length, option_map};
ghost use Rattle.std.specs.List.{list_all, slice_split};
ghost use Rattle.ps_time.specs.Numbers.{most_head_bytes};
ghost use Rattle.api_input.specs.Routes.{part};
ghost use Rattle.api_input.specs.Places.{is_ascii_byte, is_plain, serial_in, key_in, below_task, run_in, place_in, target_in, target_of};

use crate::parts::Parts;
use crate::route::{Methods, Route, find_route};
use ps_time::id::{Id, read_id};
use ps_time::key::RunKey;

/// A place that is open to everybody.
#[derive(Clone, Copy, Debug, PartialEq, Eq)]
pub enum PublicPlace {
    Home,
    Clock,
    Tests,
    Tools,
    Archivers,
    /// A test, whose name is the last part of the path.
    Test,
    Tasks,
    /// The task of this serial.
    Task(u32),
    /// The runs of the task of this serial.
    Runs(u32),
    Run(RunKey),
    Schedule,
}

/// A place that is for peers alone.
#[derive(Clone, Copy, Debug, PartialEq, Eq)]
pub enum PeerPlace {
    Free,
    Propose,
    Drop(RunKey),
    Confirm(RunKey),
    Material(RunKey),
    Result(RunKey),
}

/// What a path names: something that anybody may ask for, or something of a run that peers ask for.
#[derive(Clone, Copy, Debug, PartialEq, Eq)]
pub enum Place {
    Public(PublicPlace),
    Peer(PeerPlace),
}

/// A place, and its methods.
#[derive(Clone, Copy, Debug, PartialEq, Eq)]
pub struct Target {
    pub place: Place,
    pub methods: Methods,
}

/// The longest path, in bytes: that of the longest head.
const MOST_PATH: usize = 16_384;

fn is_ascii(bytes: &[u8]) -> bool
    ensures { result ≡ list_all is_ascii_byte bytes.now }
{
    for byte in bytes {
        if *byte >= 128 {
            return false;
        }
    }
    true
}

/// Whether a path is short enough and ASCII.
fn is_plain(path: &str) -> bool
    ensures value { result ≡ is_plain path.now }
    ensures short { IsTrue result → length path.now ≤ most_head_bytes }
{
    path.len() <= MOST_PATH && is_ascii(path.as_bytes())
}

/// The serial of a task of the host with this number.
fn serial_in(number: u16, id: &str) -> Option<u32>
    ensures { result ≡ serial_in number id.now }
{
    match read_id(id) {
        Some(Id::Task { lead, task }) if lead == number => Some(task),
        _ => None,
    }
}

fn key_in(id: &str) -> Option<RunKey>
    ensures { result ≡ key_in id.now }
{
    match read_id(id) {
        Some(Id::Run(key)) => Some(key),
        _ => None,
    }
}

fn is_of(key: RunKey, lead: u16, task: u32) -> bool
    ensures { result ≡ (key.lead == lead && key.task == task) }
{
    key.lead == lead && key.task == task
}

fn below_task(id: Option<Id>, key: RunKey) -> Option<RunKey>
    ensures { result ≡ below_task id key }
{
    match id {
        Some(Id::Task { lead, task }) => {
            if is_of(key, lead, task) {
                return Some(key);
            }
            None
        }
        _ => None,
    }
}

/// The key of a run that is named below its own task.
fn run_in(id: &str, run: &str) -> Option<RunKey>
    ensures { result ≡ run_in id.now run.now }
{
    let key = key_in(run)?;
    below_task(read_id(id), key)
}

fn public(place: PublicPlace) -> Option<Place>
    ensures { result ≡ Some (Place.Public place) }
{
    Some(Place::Public(place))
}

fn peer(place: PeerPlace) -> Option<Place>
    ensures { result ≡ Some (Place.Peer place) }
{
    Some(Place::Peer(place))
}

fn run_at(parts: &Parts) -> Option<RunKey>
    ensures { result ≡ run_in (part parts.now 3) (part parts.now 5) }
{
    run_in(parts.at(3), parts.at(5))
}

fn run_place(parts: &Parts) -> Option<Place>
    ensures { result ≡ option_map (λ k. Place.Public (PublicPlace.Run k)) (run_in (part parts.now 3) (part parts.now 5)) }
{
    let key = run_at(parts)?;
    public(PublicPlace::Run(key))
}

/// What the path names that is cut into these parts.
fn place_in(number: u16, parts: &Parts, route: Route) -> Option<Place>
    ensures { result ≡ place_in number parts.now route }
{
    match route {
        Route::Home => public(PublicPlace::Home),
        Route::Clock => public(PublicPlace::Clock),
        Route::Tests => public(PublicPlace::Tests),
        Route::Tools => public(PublicPlace::Tools),
        Route::Archivers => public(PublicPlace::Archivers),
        Route::Test => public(PublicPlace::Test),
        Route::Tasks => public(PublicPlace::Tasks),
        Route::Task => public(PublicPlace::Task(serial_in(number, parts.at(3))?)),
        Route::Runs => public(PublicPlace::Runs(serial_in(number, parts.at(3))?)),
        Route::Run => run_place(parts),
        Route::Schedule => public(PublicPlace::Schedule),
        Route::Free => peer(PeerPlace::Free),
        Route::Propose => peer(PeerPlace::Propose),
        Route::Drop => peer(PeerPlace::Drop(key_in(parts.at(4))?)),
        Route::Confirm => peer(PeerPlace::Confirm(key_in(parts.at(4))?)),
        Route::Material => peer(PeerPlace::Material(key_in(parts.at(4))?)),
        Route::Result => peer(PeerPlace::Result(key_in(parts.at(4))?)),
    }
}

fn target_in(number: u16, parts: &Parts) -> Option<Target>
    ensures { result ≡ target_in number parts.now }
{
    let found = find_route(parts)?;
    let place = place_in(number, parts, found.route)?;
    Some(Target {
        place,
        methods: found.methods,
    })
}

/// What a path names on the host with this number, where `parts` are its parts; `None` where it names nothing.
pub fn find_target(number: u16, path: &str, parts: &Parts) -> Option<Target>
    requires { parts.now ≡ slice_split (λ b. b == 47) path.now }
    ensures value { result ≡ target_of number path.now }
    ensures short { IfSome result (λ target. length path.now ≤ most_head_bytes) }
{
    if !is_plain(path) {
        return None;
    }
    target_in(number, parts)
}
