//! Doors.
ghost use Rattle.std.specs.Prelude.{◌≡◌, ◌≤◌, ◌<◌, ◌^◌, ℕ, List, Option, ◌∷◌, [], ◌++◌};
ghost use Rattle.std.specs.Option.{option_map};
ghost use Rattle.ps_doors.specs.Door.{HasAddress, is_closed, is_used_up, GoesOn, door_faults_after, given_after, share_after};

use ps_ports::stream::Stream;
use ps_time::text::Text;
use std::alloc::Global;

/// The longest address of who made a connection, in bytes.
pub const MOST_ADDRESS: usize = 255;

/// What a door answers.
#[derive(Drop)]
pub enum Accepted<S> {
    /// A connection, and the address of who made it: at most `MOST_ADDRESS` bytes.
    Stream(S, Text),
    /// Nobody waits now.
    Nobody,
    /// The door gives no more connections.
    Closed,
    /// The door failed, and has counted that.
    Failed,
    Memory,
}

/// A door at which connections come. A door and its streams may move to a thread.
pub trait Door {
    type Stream: Stream + Send + Drop;

    // How many calls failed: a `u64` that never falls.
    ghost door_faults: { Self → ℕ };

    // How many streams it will still give, where that is bounded.
    ghost share: { Self → Option ℕ };

    // The streams that were given out, as they were then, each with its address; where they are told.
    ghost given: { Self → Option (List (Self.Stream × List ℕ)) };

    // The streams that came back, as they were then; where they are told.
    ghost returned: { Self → Option (List Self.Stream) };

    // A stream was given out and isn't back.
    ghost is_out: { Self → Type 0 };

    /// Takes a connection that waits. Closed comes exactly where the door has given all that it will.
    fn accept(&mut self, alloc: Global) -> Accepted<Self::Stream>
        ensures address { HasAddress result }
        ensures closed { is_closed result ≡ is_used_up (share self.old) }
        ensures share { share self.new ≡ share_after (share self.old) result }
        ensures given { given self.new ≡ given_after (given self.old) result }
        ensures returned { returned self.new ≡ returned self.old }
        ensures out { GoesOn (is_out self.old) (is_out self.new) result }
        ensures count { door_faults self.new ≡ door_faults_after (door_faults self.old) result }
        ensures later { door_faults self.old ≤ door_faults self.new };

    /// Gives a stream back that came from this door. Takes no memory.
    fn done(&mut self, stream: Self::Stream)
        requires { is_out self.old }
        ensures returned { returned self.new ≡ option_map (λ l. l ++ stream ∷ []) (returned self.old) }
        ensures given { given self.new ≡ given self.old }
        ensures share { share self.new ≡ share self.old }
        ensures count { door_faults self.new ≡ door_faults self.old };

    // The count is a `u64`, at each moment.
    ghost door_faults_fit: { (door : Self) → door_faults door < 2 ^ 64 };
}
