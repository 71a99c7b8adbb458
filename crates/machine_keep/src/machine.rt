//! A machine whose steps can be kept.
ghost use Rattle.machine_keep.specs.declared.machine.RestoreFault.TheVariants.{NotARecord};
ghost use Rattle.machine_keep.specs.Refusal.{IsFirstRefused, StandsOf};
ghost use Rattle.std.specs.Prelude.{◌≡◌, ◌⊎◌, ◌<◌, ◌≤◌, Err, ◌++◌, ◌∷◌, [], ℕ, List, Option, IfOk, IfSome, IsFalse, IsTrue, length};

use host_journal::image::SnapshotImage;
use ps_time::items::Items;
use ps_time::memory::Memory;
use std::alloc::Global;

/// Why no machine was made of a list.
#[derive(Clone, Copy, Debug, PartialEq, Eq)]
pub enum RestoreFault {
    /// The item of this index, from 0 on, is no snapshot, or no record that may follow those before it.
    NotARecord(usize),
    Memory,
}

impl From<Memory> for RestoreFault {
    ghost use Rattle.machine_keep.specs.declared.machine.RestoreFault.TheVariants.{Memory as no_memory};
    ghost use Rattle.std.specs.Prelude.{◌≡◌};

    ghost from_gives = { λ _ fault. fault ≡ no_memory };

    fn from(_memory: Memory) -> RestoreFault {
        RestoreFault::Memory
    }
}

/// A machine for which a list stands, and whether the list is in the earlier form, which is only read.
#[derive(Drop)]
pub struct Restored<M> {
    pub machine: M,
    pub is_earlier: bool,
}

/// What a call comes to: its reply, and the step that it makes, if there is one.
#[derive(Drop)]
pub struct Decided<R, S> {
    pub reply: R,
    pub step: Option<S>,
}

/// A state that changes in steps, each of which can be written as a record.
pub trait Machine: Sized {
    /// What a machine is made of beside its list, and what may be set again later, as a configuration.
    type Origin: Drop;

    /// What is asked.
    type Call: Drop;

    /// What is answered.
    type Reply: Drop;

    /// What a call changes, with all that is needed to take it in.
    type Step: Drop;

    // What the machine is seen as.
    ghost State: { Type 0 };

    ghost state: { Self → State };

    // What every step leaves as it is, and what of it an origin brings.
    ghost Fixed: { Type 0 };

    ghost fixed: { State → Fixed };

    ghost fixed_of: { Self.Origin → Fixed };

    // The list, a snapshot and then records, stands for the state: in the form that is written, and in the earlier
    // one, which is only read.
    ghost stands_for: { List (List ℕ) → State → Type 0 };

    ghost stood_for: { List (List ℕ) → State → Type 0 };

    // The bytes of a step's record.
    ghost record_of: { Self.Step → List ℕ };

    // The call may be made.
    ghost may_ask: { Fixed → Self.Call → Type 0 };

    // The second may be set where the first stands, and the state with it.
    ghost may_set: { Fixed → Fixed → Type 0 };

    ghost with_fixed: { Fixed → State → State };

    // What a call is answered in a state, and the step that it makes.
    ghost answers: { State → Self.Call → Self.Reply → Option Self.Step → Type 0 };

    // The step may follow the state.
    ghost follows: { State → Self.Step → Type 0 };

    // What becomes of a state by a step.
    ghost after: { State → Self.Step → State };

    // There are places for the step.
    ghost has_room: { Self → Self.Step → Type 0 };

    /// The machine for which a list stands: a snapshot, and then records. That of a new pair of disks is an empty
    /// snapshot alone.
    fn restore(
        alloc: Global,
        origin: Self::Origin,
        list: &[Items<u8>],
    ) -> Result<Restored<Self>, RestoreFault>
        ensures stands { IfOk result (λ r. IsFalse r.is_earlier → stands_for list.now (state r.machine)) }
        ensures stood { IfOk result (λ r. IsTrue r.is_earlier → stood_for list.now (state r.machine)) }
        ensures fixed { IfOk result (λ r. fixed (state r.machine) ≡ fixed_of origin) }
        ensures refused { (index : ℕ) → result ≡ Err (NotARecord index) → index < length list.now
            × ((s : State) → fixed s ≡ fixed_of origin → stands_for list.now s ⊎ stood_for list.now s → ⊥) }
        // The item is the first that is refused.
        ensures front { (index : ℕ) → result ≡ Err (NotARecord index) → IsFirstRefused (StandsOf fixed (fixed_of origin) stands_for stood_for) list.now index };

    /// Sets an origin again. Takes no memory.
    fn set_config(&mut self, origin: Self::Origin)
        requires { may_set (fixed (state self.old)) (fixed_of origin) }
        ensures state { state self.new ≡ with_fixed (fixed_of origin) (state self.old) }
        ensures room { (step : Self.Step) → has_room self.old step → has_room self.new step };

    /// What the call comes to. Makes room for its step, and takes nothing in. A record has at most 8,388,608 bytes.
    fn decide(
        &mut self,
        alloc: Global,
        call: Self::Call,
    ) -> Result<Decided<Self::Reply, Self::Step>, Memory>
        requires { may_ask (fixed (state self.old)) call }
        ensures same { state self.new ≡ state self.old }
        ensures answer { IfOk result (λ d. answers (state self.old) call d.reply d.step) }
        ensures follows { IfOk result (λ d. IfSome d.step (λ step. follows (state self.old) step)) }
        ensures room { IfOk result (λ d. IfSome d.step (λ step. has_room self.new step)) }
        ensures short { IfOk result (λ d. IfSome d.step (λ step. length (record_of step) ≤ 8388608)) };

    /// Takes a step in. Takes no memory.
    fn take(&mut self, step: Self::Step)
        requires follows { follows (state self.old) step }
        requires room { has_room self.old step }
        ensures { state self.new ≡ after (state self.old) step };

    /// The bytes of the step's record.
    fn write_record(&self, alloc: Global, step: &Self::Step) -> Result<Vec<u8>, Memory>
        ensures { IfOk result (λ bytes. bytes.items ≡ record_of step.now) };

    /// About how many bytes the snapshot of the state has. So much room is made before it is written; no more is
    /// promised.
    fn image_guess(&self) -> usize;

    /// Writes a snapshot of the state, which alone stands for it, in an empty image.
    fn write_image(&self, alloc: Global, image: SnapshotImage) -> Result<SnapshotImage, Memory>
        requires { image.bytes ≡ [] }
        ensures { IfOk result (λ made. stands_for (made.bytes ∷ []) (state self.now)) };

    // With the record of a step behind it a list stands for the state after the step.
    ghost stands_more: { (list : List (List ℕ)) (s : State) (step : Self.Step) → stands_for list s → follows s step → stands_for (list ++ record_of step ∷ []) (after s step) };

    // A step leaves what is fixed.
    ghost fixed_after: { (s : State) (step : Self.Step) → follows s step → fixed (after s step) ≡ fixed s };

    // A list stands for a state, and a step may follow it, also with what may be set.
    ghost stands_set: { (list : List (List ℕ)) (f : Fixed) (s : State) → may_set (fixed s) f → stands_for list s → stands_for list (with_fixed f s) };

    ghost follows_set: { (f : Fixed) (s : State) (step : Self.Step) → may_set (fixed s) f → follows s step → follows (with_fixed f s) step };

    // It is what is fixed then, and a step leaves the same behind it as with what was set before.
    ghost fixed_set: { (f : Fixed) (s : State) → fixed (with_fixed f s) ≡ f };

    ghost after_set: { (f : Fixed) (s : State) (step : Self.Step) → after (with_fixed f s) step ≡ with_fixed f (after s step) };
}
