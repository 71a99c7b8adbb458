//! What is drawn and counted while the work goes on.
ghost use Rattle.std.specs.Prelude.{◌≡◌, OnOk};
ghost use Rattle.rehearsal_generate.specs.Draws.{drawn, next_seed};
ghost use Rattle.rehearsal_generate.specs.Work.{first_tally, noted};

use ps_time::items::Items;
use ps_time::memory::Memory;
use ps_time::moment::Moment;
use std::alloc::Global;

/// What generated work keeps beside its hosts.
pub struct Tally {
    /// What the next draw comes from.
    pub seed: u64,
    /// The numbers of the messages that were lost.
    pub lost: Items<u64>,
    /// When hosts crashed.
    pub crashes: Items<Moment>,
}

// Written out, so that a drop elsewhere is one call.
impl Drop for Tally {
    fn drop(self) {
        let Tally {
            seed: _,
            lost: _,
            crashes: _,
        } = self;
    }
}

impl Tally {
    /// Before the first draw.
    pub fn new(alloc: Global) -> Tally
        ensures { result ≡ first_tally }
    {
        Tally {
            seed: 1,
            lost: Items::new(alloc),
            crashes: Items::new(alloc),
        }
    }

    /// The next number, of 31 bits.
    pub fn draw(&mut self) -> u64
        ensures number { result ≡ drawn (next_seed self.old.seed) }
        ensures seed { self.new ≡ record self.old { seed = next_seed self.old.seed } }
    {
        self.seed = seed_after(self.seed);
        number_at(self.seed)
    }

    /// The host crashed at a moment, where this is true.
    pub fn note_crash(&mut self, is_crash: bool, moment: Moment) -> Result<(), Memory>
        ensures { OnOk result (self.new ≡ record self.old { crashes = noted is_crash moment self.old.crashes }) }
    {
        if is_crash {
            self.crashes.push(moment)?;
        }
        Ok(())
    }

    /// The message was lost, where this is true.
    pub fn note_loss(&mut self, is_loss: bool, message: u64) -> Result<(), Memory>
        ensures { OnOk result (self.new ≡ record self.old { lost = noted is_loss message self.old.lost }) }
    {
        if is_loss {
            self.lost.push(message)?;
        }
        Ok(())
    }
}

#[tactic(auto, unfolding(crate::specs::Draws::next_seed))]
fn seed_after(seed: u64) -> u64
    ensures { result ≡ next_seed seed }
{
    seed.wrapping_mul(6_364_136_223_846_793_005)
        .wrapping_add(1_442_695_040_888_963_407)
}

#[tactic(auto, unfolding(crate::specs::Draws::drawn))]
fn number_at(seed: u64) -> u64
    ensures { result ≡ drawn seed }
{
    seed >> 33
}
