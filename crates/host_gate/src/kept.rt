//! What lies behind a gate.
ghost use Rattle.std.specs.Prelude.{◌≡◌, Bool, false};

/// A state that changes in steps, each of which answers a call.
pub trait Kept {
    /// What is asked of the state.
    type Call;

    /// What a step answers.
    type Reply;

    // The call may be made on the state.
    ghost may: { Self → Self.Call → Type 0 };

    // The second state has grown from the first.
    ghost grown: { Self → Self → Type 0 };

    // A step that the call asks for may go from the first state to the second, answer the reply, and say whether it counts as a change.
    ghost steps: { Self → Self.Call → Self.Reply → Bool → Self → Type 0 };

    /// Makes one step. The truth value says whether it counts as a change, as each step does that
    /// changes the state.
    fn apply(&mut self, call: Self::Call) -> (Self::Reply, bool)
        requires { may self.old call }
        ensures step { steps self.old call result.0 result.1 self.new }
        ensures grown { grown self.old self.new }
        ensures same { result.1 ≡ false → self.new ≡ self.old };

    ghost grown_refl: { (x : Self) → grown x x };

    ghost grown_trans: { (x y z : Self) → grown x y → grown y z → grown x z };

    ghost may_grown: { (x y : Self) (call : Self.Call) → grown x y → may x call → may y call };
}
