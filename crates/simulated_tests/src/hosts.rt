//! A host on new disks, and bookings of it.
ghost use Rattle.std.specs.Prelude.{◌≡◌, IfOk, OnOk, pos};
ghost use Rattle.host_model.specs.Conditions.{IsConfig};
ghost use Rattle.host_model.specs.declared.input.Input.TheVariants.{Book as AsBook};
ghost use Rattle.ps_time.specs.declared.class.Class.TheVariants.{Exclusive};

use host_input_trials::config::config;
use host_model::input::Input;
use host_model::reply::Reply;
use host_model::view::Page;
use ps_disks::image::Image;
use ps_time::class::Class;
use ps_time::memory::Memory;
use rehearsal_script::script::Stop;
use simulated_host::simulated::SimulatedHost;
use std::alloc::Global;

/// What came of a booking.
#[derive(Clone, Copy, PartialEq, Eq)]
pub(crate) enum Told {
    Accepted,
    Denied,
    /// A call of a disk failed.
    Nothing,
}

pub(crate) fn new_held_host(alloc: Global) -> Result<SimulatedHost, Memory>
    ensures { IfOk result (λ held_host. IsConfig held_host.state.config) }
{
    SimulatedHost::open(alloc, config(alloc)?)
}

/// Ten seconds alone, from 100 on.
fn booking() -> Input
    ensures { result ≡ AsBook Exclusive (pos 0) 100 10 }
{
    Input::Book {
        class: Class::Exclusive,
        priority: 0,
        start: 100,
        length: 10,
    }
}

pub(crate) fn book(alloc: Global, held_host: &mut SimulatedHost) -> Result<Told, Memory>
    requires { IsConfig held_host.old.state.config }
    ensures { OnOk result (IsConfig held_host.new.state.config) }
{
    let told = match held_host.act(alloc, 0, booking())? {
        Some(Reply::Booked { .. }) => Told::Accepted,
        Some(_) => Told::Denied,
        None => Told::Nothing,
    };
    Ok(told)
}

/// The host behind a booking that is to stop, and whether it stopped.
pub(crate) fn stop_booking(
    alloc: Global,
    held_host: SimulatedHost,
    call: u64,
    image: Image,
) -> Result<(SimulatedHost, bool), Memory>
    requires { IsConfig held_host.state.config }
    ensures { IfOk result (λ ended. IsConfig ended.0.state.config) }
{
    held_host.crash(alloc, 0, booking(), Stop { call, image })
}

/// The same of a look at its first page.
pub(crate) fn stop_look(
    alloc: Global,
    held_host: SimulatedHost,
    call: u64,
    image: Image,
) -> Result<(SimulatedHost, bool), Memory>
    requires { IsConfig held_host.state.config }
    ensures { IfOk result (λ ended. IsConfig ended.0.state.config) }
{
    held_host.crash(alloc, 0, Input::View(Page::Home), Stop { call, image })
}
