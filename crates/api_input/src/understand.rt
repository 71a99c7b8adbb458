//! Requests as inputs.
ghost use Rattle.std.specs.List.{slice_split};
ghost use Rattle.std.specs.Prelude.{◌≡◌, ◌==◌, ◌≤◌, IfOk, IfSome, Ok, Some, length};
ghost use Rattle.std.specs.Option.{option_copied};
ghost use Rattle.ps_json.specs.Answer.{GivesUnless};
ghost use Rattle.ps_time.specs.Numbers.{most_head_bytes};
ghost use Rattle.ps_time.specs.declared.moment.TheConstants.{MAX_MOMENT};
ghost use Rattle.host_model.specs.Conditions.{IsInput};
ghost use Rattle.host_model.specs.InputLength.{input_texts, most_input_texts};
ghost use Rattle.host_model.specs.Propose.{find_peer};
ghost use Rattle.host_model.specs.declared.config.Config.{Config};
ghost use Rattle.api_input.specs.Query.{window_of};
ghost use Rattle.api_input.specs.Routes.{part};
ghost use Rattle.api_input.specs.Understood.{most_address_bytes, sender_of, schedule_input, posted_input, task_input, open_input, public_input, asked_by, from_peer, input_at, understood};

use crate::parts::Parts;
use crate::place::{PeerPlace, Place, PublicPlace, find_target};
use crate::query::read_window;
use crate::refusal::Refusal;
use api_body::bodies::{read_body, read_material, read_proposal, read_question};
use host_model::config::{Config, Peer};
use host_model::input::Input;
use host_model::view::Page;
use plugin_core::write_test::law_test_text;
use ps_http::message::{PeerMark, Request};
use ps_time::key::RunKey;
use ps_time::memory::Memory;
use ps_time::moment::Moment;
use ps_time::text::Text;
use std::alloc::Global;
use task_spec::task::Task;
use task_spec::write_task::law_task_text;

/// The most bytes of the texts of a proposal: no body has more, and the name of a peer has at most 63.
const MOST_TEXTS: usize = 1_114_112;

fn find_peer<'c>(peers: &'c [Peer], number: u16) -> Option<&'c Peer>
    ensures value { option_copied result ≡ find_peer peers.entry.now number }
    ensures number { IfSome result (λ peer. peer.now.number ≡ number) }
{
    for peer in peers {
        if peer.number == number {
            return Some(peer);
        }
    }
    None
}

/// The peer that sends a request with this mark, if it shows that peer's key.
fn find_sender<'c>(peers: &'c [Peer], mark: &Option<PeerMark>) -> Option<&'c Peer>
    ensures value { option_copied result ≡ sender_of peers.entry.now mark.now }
    ensures found { IfSome result (λ peer. find_peer peers.entry.now peer.now.number ≡ Some peer.now) }
{
    let mark = mark.as_ref()?;
    let peer = find_peer(peers, mark.number)?;
    if !peer.key.is(mark.key.as_str()) {
        return None;
    }
    Some(peer)
}

fn view(page: Page) -> Result<Input, Refusal>
    ensures { result ≡ Ok (Input.View page) }
{
    Ok(Input::View(page))
}

fn read_schedule(alloc: Global, moment: Moment, query: &Option<Text>) -> Result<Input, Refusal>
    requires { moment ≤ MAX_MOMENT }
    ensures value { GivesUnless Refusal.Memory result (schedule_input (window_of moment query.now)) }
    ensures input { (c : Config) → IfOk result (IsInput c) }
    ensures short { IfOk result (λ input. input_texts input ≤ most_input_texts) }
{
    match read_window(alloc, moment, query)? {
        None => Err(Refusal::Query),
        Some(window) => view(Page::Schedule {
            start: window.start,
            end: window.end,
        }),
    }
}

fn read_post(
    alloc: Global,
    config: &Config,
    body: &[u8],
    address: &str,
    moment: Moment,
) -> Result<Input, Refusal>
    requires { moment ≤ MAX_MOMENT }
    ensures value { GivesUnless Refusal.Memory result (posted_input config.now.name body.now address.now moment) }
    ensures input { IfOk result (IsInput config.now) }
    ensures short { length address.now ≤ most_address_bytes → IfOk result (λ input. input_texts input ≤ most_input_texts) }
{
    law_task_text();
    let requester = Text::new(alloc, address)?;
    let value = read_body(alloc, body)?;
    let task = Task::read(alloc, value, moment, config.name.as_str())?;
    Ok(Input::Post { task, requester })
}

fn read_tasks(
    alloc: Global,
    config: &Config,
    request: &Request,
    address: &str,
    moment: Moment,
) -> Result<Input, Refusal>
    requires { moment ≤ MAX_MOMENT }
    ensures value { GivesUnless Refusal.Memory result (open_input config.now PublicPlace.Tasks request.now address.now moment) }
    ensures input { IfOk result (IsInput config.now) }
    ensures short { length address.now ≤ most_address_bytes → IfOk result (λ input. input_texts input ≤ most_input_texts) }
{
    if request.method.is("POST") {
        return read_post(alloc, config, request.body.as_slice(), address, moment);
    }
    view(Page::Tasks)
}

fn read_task(alloc: Global, request: &Request, address: &str, serial: u32) -> Result<Input, Refusal>
    ensures value { GivesUnless Refusal.Memory result (task_input serial request.now.method address.now) }
    ensures input { (c : Config) → IfOk result (IsInput c) }
    ensures short { length address.now ≤ most_address_bytes → IfOk result (λ input. input_texts input ≤ most_input_texts) }
{
    if request.method.is("DELETE") {
        let requester = Text::new(alloc, address)?;
        return Ok(Input::Cancel {
            task: serial,
            requester,
        });
    }
    view(Page::Task(serial))
}

/// The name of the test that a path names.
#[tactic(auto, using(crate::proofs::PartLemmas::part_short))]
fn read_test_name(alloc: Global, path: &str) -> Result<Text, Memory>
    ensures value { IfOk result (λ name. name ≡ part (slice_split (λ b. b == 47) path.now) 3) }
    ensures short { IfOk result (λ name. length name ≤ length path.now) }
{
    let parts = Parts::of_path(alloc, path)?;
    Text::new(alloc, parts.at(3))
}

fn read_test(alloc: Global, path: &str) -> Result<Input, Refusal>
    requires { length path.now ≤ most_head_bytes }
    ensures value { GivesUnless Refusal.Memory result (Ok (Input.View (Page.Test (part (slice_split (λ b. b == 47) path.now) 3)))) }
    ensures input { (c : Config) → IfOk result (IsInput c) }
    ensures short { IfOk result (λ input. input_texts input ≤ most_input_texts) }
{
    view(Page::Test(read_test_name(alloc, path)?))
}

fn read_open(
    alloc: Global,
    config: &Config,
    place: PublicPlace,
    request: &Request,
    address: &str,
    moment: Moment,
) -> Result<Input, Refusal>
    requires moment { moment ≤ MAX_MOMENT }
    requires path { length request.now.path ≤ most_head_bytes }
    ensures value { GivesUnless Refusal.Memory result (open_input config.now place request.now address.now moment) }
    ensures input { IfOk result (IsInput config.now) }
    ensures short { length address.now ≤ most_address_bytes → IfOk result (λ input. input_texts input ≤ most_input_texts) }
{
    match place {
        PublicPlace::Home => view(Page::Home),
        PublicPlace::Clock => view(Page::Clock),
        PublicPlace::Tests => view(Page::Tests),
        PublicPlace::Tools => view(Page::Tools),
        PublicPlace::Archivers => view(Page::Archivers),
        PublicPlace::Test => read_test(alloc, request.path.as_str()),
        PublicPlace::Tasks => read_tasks(alloc, config, request, address, moment),
        PublicPlace::Task(serial) => read_task(alloc, request, address, serial),
        PublicPlace::Runs(serial) => view(Page::Runs(serial)),
        PublicPlace::Run(key) => view(Page::Run(key)),
        PublicPlace::Schedule => read_schedule(alloc, moment, &request.query),
    }
}

fn read_public(
    alloc: Global,
    config: &Config,
    place: PublicPlace,
    request: &Request,
    address: &str,
    moment: Moment,
) -> Result<Input, Refusal>
    requires moment { moment ≤ MAX_MOMENT }
    requires path { length request.now.path ≤ most_head_bytes }
    ensures value { GivesUnless Refusal.Memory result (public_input config.now place request.now address.now moment) }
    ensures input { IfOk result (IsInput config.now) }
    ensures short { length address.now ≤ most_address_bytes → IfOk result (λ input. input_texts input ≤ most_input_texts) }
{
    if request.query.is_some() && place != PublicPlace::Schedule {
        return Err(Refusal::Query);
    }
    read_open(alloc, config, place, request, address, moment)
}

fn read_free(alloc: Global, body: &[u8], peer: &Peer) -> Result<Input, Refusal>
    ensures value { GivesUnless Refusal.Memory result (asked_by PeerPlace.Free body.now peer.now) }
    ensures input { (c : Config) → find_peer c.peers peer.now.number ≡ Some peer.now → IfOk result (IsInput c) }
    ensures short { IfOk result (λ input. input_texts input ≤ most_input_texts) }
{
    law_test_text();
    let question = read_question(alloc, read_body(alloc, body)?)?;
    Ok(Input::Free {
        sender: peer.number,
        question,
    })
}

fn read_proposed(alloc: Global, body: &[u8], peer: &Peer) -> Result<Input, Refusal>
    ensures value { GivesUnless Refusal.Memory result (asked_by PeerPlace.Propose body.now peer.now) }
    ensures input { (c : Config) → find_peer c.peers peer.now.number ≡ Some peer.now → IfOk result (IsInput c) }
    ensures short { IfOk result (λ input. input_texts input ≤ most_input_texts) }
{
    law_test_text();
    let value = read_body(alloc, body)?;
    let proposal = read_proposal(alloc, value, peer.name.as_str(), MOST_TEXTS)?;
    Ok(Input::Propose {
        sender: peer.number,
        proposal,
    })
}

fn read_handed(alloc: Global, key: RunKey, body: &[u8], peer: &Peer) -> Result<Input, Refusal>
    ensures value { GivesUnless Refusal.Memory result (asked_by (PeerPlace.Material key) body.now peer.now) }
    ensures input { (c : Config) → find_peer c.peers peer.now.number ≡ Some peer.now → IfOk result (IsInput c) }
    ensures short { IfOk result (λ input. input_texts input ≤ most_input_texts) }
{
    let text = read_material(alloc, read_body(alloc, body)?)?;
    Ok(Input::Material {
        sender: peer.number,
        key,
        text,
    })
}

fn read_asked(alloc: Global, place: PeerPlace, body: &[u8], peer: &Peer) -> Result<Input, Refusal>
    ensures value { GivesUnless Refusal.Memory result (asked_by place body.now peer.now) }
    ensures input { (c : Config) → find_peer c.peers peer.now.number ≡ Some peer.now → IfOk result (IsInput c) }
    ensures short { IfOk result (λ input. input_texts input ≤ most_input_texts) }
{
    let sender = peer.number;
    match place {
        PeerPlace::Free => read_free(alloc, body, peer),
        PeerPlace::Propose => read_proposed(alloc, body, peer),
        PeerPlace::Drop(key) => Ok(Input::Drop { sender, key }),
        PeerPlace::Confirm(key) => Ok(Input::Confirm { sender, key }),
        PeerPlace::Material(key) => read_handed(alloc, key, body, peer),
        PeerPlace::Result(key) => Ok(Input::Collect { sender, key }),
    }
}

fn read_from_peer(
    alloc: Global,
    config: &Config,
    place: PeerPlace,
    request: &Request,
) -> Result<Input, Refusal>
    ensures value { GivesUnless Refusal.Memory result (from_peer place request.now (sender_of config.now.peers request.now.peer)) }
    ensures input { IfOk result (IsInput config.now) }
    ensures short { IfOk result (λ input. input_texts input ≤ most_input_texts) }
{
    let Some(peer) = find_sender(config.peers.as_slice(), &request.peer) else {
        return Err(Refusal::NoPeerKey);
    };
    if request.query.is_some() {
        return Err(Refusal::Query);
    }
    read_asked(alloc, place, request.body.as_slice(), peer)
}

fn read_at(
    alloc: Global,
    config: &Config,
    place: Place,
    request: &Request,
    address: &str,
    moment: Moment,
) -> Result<Input, Refusal>
    requires moment { moment ≤ MAX_MOMENT }
    requires path { length request.now.path ≤ most_head_bytes }
    ensures value { GivesUnless Refusal.Memory result (input_at config.now place request.now address.now moment) }
    ensures input { IfOk result (IsInput config.now) }
    ensures short { length address.now ≤ most_address_bytes → IfOk result (λ input. input_texts input ≤ most_input_texts) }
{
    match place {
        Place::Public(place) => read_public(alloc, config, place, request, address, moment),
        Place::Peer(place) => read_from_peer(alloc, config, place, request),
    }
}

/// What a request from this address asks of the host with this configuration at this moment, in seconds since 1970
/// UTC; or why it is refused, by the first of the tests of path, method, peer key, query and body that it fails.
pub fn understand(
    alloc: Global,
    config: &Config,
    request: &Request,
    address: &str,
    moment: Moment,
) -> Result<Input, Refusal>
    requires { moment ≤ MAX_MOMENT }
    ensures value { GivesUnless Refusal.Memory result (understood config.now request.now address.now moment) }
    ensures input { IfOk result (IsInput config.now) }
    ensures short { length address.now ≤ most_address_bytes → IfOk result (λ input. input_texts input ≤ most_input_texts) }
{
    let path = request.path.as_str();
    let parts = Parts::of_path(alloc, path)?;
    let Some(target) = find_target(config.number, path, &parts) else {
        return Err(Refusal::NotFound);
    };
    if !target.methods.allows(request.method.as_str()) {
        return Err(Refusal::Method(target.methods));
    }
    read_at(alloc, config, target.place, request, address, moment)
}
