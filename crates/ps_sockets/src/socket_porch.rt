//! A porch over listening sockets.
ghost use Rattle.std.specs.Prelude.{◌≡◌, ◌≤◌, ◌<◌, ◌==◌, not, length, map, All, IfOk, ⊤};
ghost use Rattle.std.specs.List.{list_any};
ghost use Rattle.ps_ports.specs.Causes.{counted};
ghost use Rattle.ps_doors.specs.Porch.{HasShare, porch_faults_after, porch_faults_shut};

use crate::listener::{Binder, Listener};
use crate::socket_door::SocketDoor;
use ps_doors::porch::{Porch, PorchFault};
use ps_ports::faults::Faults;
use std::alloc::Global;

/// A porch whose doors are handles of one listening socket. Each door has a share of the connections, the shares differ
/// by at most one, and together they are `most`.
#[derive(Drop)]
pub struct SocketPorch<B> {
    binder: B,
    faults: Faults,
}

impl<B: Binder> SocketPorch<B> {
    /// A porch without a fault so far.
    pub fn new(binder: B) -> SocketPorch<B>
        ensures { result.faults ≡ 0 }
    {
        SocketPorch {
            binder,
            faults: Faults::none(),
        }
    }

    /// How many openings failed, and how often doors of which one had failed came back.
    pub fn faults(&self) -> u64
        ensures { result ≡ self.now.faults }
    {
        self.faults.count()
    }
}

// The share of the first of so many doors, where all together have what is left; it is taken from that.
fn take_share(left: &mut Option<u64>, doors: u64) -> Option<u64>
    requires { 0 < doors }
    ensures share { HasShare left.old result }
    ensures left { HasShare left.old left.new }
{
    let all = (*left)?;
    let share = all.div_ceil(doors).min(all);
    *left = Some(all - share);
    Some(share)
}

fn open_doors<B: Binder>(
    binder: &mut B,
    alloc: Global,
    address: &str,
    number: u8,
    most: Option<u64>,
) -> Result<Vec<SocketDoor<B::Listener>>, PorchFault>
    ensures number { IfOk result (λ doors. length doors.items ≡ number) }
    ensures no_fault { IfOk result (λ doors. All (λ d. d.faults ≡ 0) doors.items) }
    ensures shares { IfOk result (λ doors. All (λ d. HasShare most d.share) doors.items) }
{
    let listener = binder.bind(alloc, address)?;
    let mut doors = Vec::new(alloc);
    let mut left = most;
    for place in 0..number {
        let share = take_share(&mut left, u64::from(number - place));
        let handle = binder.another(&listener)?;
        if doors.push(SocketDoor::new(handle, share)).is_err() {
            return Err(PorchFault::Memory);
        }
    }
    Ok(doors)
}

fn have_failed<L: Listener>(doors: &[SocketDoor<L>]) -> bool
    ensures { result ≡ list_any (λ n. not (n == 0)) (map (λ d. counted d.faults) doors.now) }
{
    for door in doors {
        if door.has_failed() {
            return true;
        }
    }
    false
}

impl<B: Binder> Porch for SocketPorch<B>
where
    B::Listener: Send,
    <B::Listener as Listener>::Stream: Send,
{
    ghost use Rattle.std.specs.Prelude.{None};
    ghost use Rattle.ps_ports.specs.Causes.{counted, counted_fits};

    type Door = SocketDoor<B::Listener>;

    ghost porch_faults = { λ p. counted p.faults };

    ghost shut_doors = { λ _. None };

    ghost is_open = { λ _. Unit {0} };

    fn open(
        &mut self,
        alloc: Global,
        address: &str,
        number: u8,
        most: Option<u64>,
    ) -> Result<Vec<SocketDoor<B::Listener>>, PorchFault>
        ensures number { IfOk result (λ doors. length doors.items ≡ number) }
        ensures no_fault { IfOk result (λ doors. All (λ d. counted d.faults ≡ 0) doors.items) }
        ensures unused { IfOk result (λ doors. All (λ _. ⊤ × ⊤) doors.items) }
        ensures shares { IfOk result (λ doors. All (λ d. HasShare most d.share) doors.items) }
        ensures count { counted self.new.faults ≡ porch_faults_after (counted self.old.faults) result }
        ensures later { counted self.old.faults ≤ counted self.new.faults }
    {
        match open_doors(&mut self.binder, alloc, address, number, most) {
            Ok(doors) => Ok(doors),
            Err(PorchFault::Failed) => {
                self.faults.raise();
                Err(PorchFault::Failed)
            }
            Err(PorchFault::Memory) => Err(PorchFault::Memory),
        }
    }

    fn shut(&mut self, doors: Vec<SocketDoor<B::Listener>>)
        ensures count { counted self.new.faults ≡ porch_faults_shut (counted self.old.faults) (map (λ d. counted d.faults) doors.items) }
        ensures later { counted self.old.faults ≤ counted self.new.faults }
    {
        if have_failed(doors.as_slice()) {
            self.faults.raise();
        }
    }

    ghost porch_faults_fit = { λ p. counted_fits p.faults };
}
