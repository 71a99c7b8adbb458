//! The single steps of a call, on the seat of its pass, in their order.
ghost use Rattle.std.specs.Prelude.{◌≡◌, ◌≤◌, ◌+◌, ◌^◌, ◌<◌, ℕ, true, false, [], ◌∷◌, Some, None, IfOk, IfErr};
ghost use Rattle.host_gate.specs.declared.view.Mark.{Mark};
ghost use Rattle.host_gate.specs.declared.view.Stage.TheVariants.{Outside, Waits, Holds, Leaves};
ghost use Rattle.host_gate.specs.Marks.{Meets, HasFront, added};
ghost use Rattle.host_gate.specs.Plays.{mark, leaving, TakesTurn};
ghost use Rattle.host_gate.specs.Calls.{Stepped};

use crate::kept::Kept;
use crate::plays::{Compares, Counts, Draws, Ends, Joins, Looks, Reads};
use crate::view::{Turns, View};
use atomic_table::{Seat, Shared};
use std::snapshot::Snapshot;
use std::sync::Wait;

/// The words and the slot that all passes of a gate share.
pub type Board<K> = Shared<Option<K>, View<K>, Snapshot<K>, Turns>;

/// The seat at the table that a pass has.
pub type PassSeat<K> = Seat<Option<K>, View<K>>;

/// The ticket of the turn that closes a gate. Calls draw those below it.
pub(crate) const LAST_TURN: u64 = 1 << 63;

/// Reads the next ticket.
pub(crate) fn read_ticket<K: Kept>(board: &Board<K>, seat: &mut PassSeat<K>) -> u64
    requires table { (seat.old.table_id ≡ board.now.table_id) × (board.now.table_id.words ≡ 3) }
    requires outside { seat.old.me.0.stage ≡ Outside }
    ensures table { seat.new.table_id ≡ seat.old.table_id }
    ensures read { seat.new.me ≡ (record seat.old.me.0 { read = result }, seat.old.me.1) }
    ensures later { seat.old.me.0.read ≤ result }
{
    board.load::<Reads>(seat, 0)
}

/// Tries to draw the ticket that was read. It isn't drawn where another pass drew it.
pub(crate) fn draw<K: Kept>(board: &Board<K>, seat: &mut PassSeat<K>, ticket: u64) -> bool
    requires table { (seat.old.table_id ≡ board.now.table_id) × (board.now.table_id.words ≡ 3) }
    requires outside { seat.old.me.0.stage ≡ Outside }
    requires bound { ticket ≤ 2 ^ 63 }
    ensures table { seat.new.table_id ≡ seat.old.table_id }
    ensures drawn { result ≡ true → seat.new.me ≡ (record seat.old.me.0 { stage = Waits ticket }, seat.old.me.1) }
    ensures not { result ≡ false → seat.new.me ≡ seat.old.me }
{
    board.compare_exchange::<Draws>(seat, 0, ticket, ticket + 1) == ticket
}

/// Looks which ticket is served. Where it is the seat's own, the seat has its turn, and the state.
pub(crate) fn look<K: Kept>(board: &Board<K>, seat: &mut PassSeat<K>, ticket: u64) -> u64
    requires table { (seat.old.table_id ≡ board.now.table_id) × (board.now.table_id.words ≡ 3) }
    requires waits { seat.old.me.0.stage ≡ Waits ticket }
    ensures table { seat.new.table_id ≡ seat.old.table_id }
    ensures served { result ≡ ticket → TakesTurn K.grown ticket seat.old.me seat.new.me }
    ensures not { ¬ (result ≡ ticket) → seat.new.me ≡ seat.old.me }
{
    board.load::<Looks>(seat, 1)
}

/// Makes one step of the state that the seat has taken, and puts back the state that it leaves.
pub(crate) fn step<K: Kept>(
    board: &Board<K>,
    seat: &mut PassSeat<K>,
    call: K::Call,
) -> (K::Reply, bool)
    requires table { seat.old.table_id ≡ board.now.table_id }
    requires taken { (x : K) × (seat.old.me.1 ≡ (0, Some x) ∷ []) × K.may x call }
    ensures table { seat.new.table_id ≡ seat.old.table_id }
    ensures view { seat.new.me.0 ≡ seat.old.me.0 }
    ensures step { (x : K) × (y : K) × (seat.old.me.1 ≡ (0, Some x) ∷ []) × (seat.new.me.1 ≡ (0, Some y) ∷ [])
        × K.steps x call result.0 result.1 y × K.grown x y × (result.1 ≡ false → y ≡ x) }
{
    let Some(mut state) = board.exchange(seat, 0, None) else {
        unreachable!()
    };
    let reply = state.apply(call);
    let empty = board.exchange(seat, 0, Some(state));
    let None = empty else { unreachable!() };
    reply
}

/// Counts the step where it changed the state. Answers the front of the state that is left.
pub(crate) fn count<K: Kept>(board: &Board<K>, seat: &mut PassSeat<K>, changed: bool) -> u64
    requires table { (seat.old.table_id ≡ board.now.table_id) × (board.now.table_id.words ≡ 3) }
    requires left { (t : ℕ) × (m : Mark K) × (y : K) × (seat.old.me.0.stage ≡ Holds t m) × (seat.old.me.1 ≡ (0, Some y) ∷ []) × K.grown m.state y × (changed ≡ false → y ≡ m.state) }
    ensures table { seat.new.table_id ≡ seat.old.table_id }
    ensures counted { (t : ℕ) (m : Mark K) (y : K) → seat.old.me.0.stage ≡ Holds t m → seat.old.me.1 ≡ (0, Some y) ∷ []
        → (result ≡ m.front + added changed) × (seat.new.me ≡ (leaving seat.old.me.0 t y result, seat.old.me.1)) }
{
    let step = u64::from(changed);
    board.fetch_add::<Counts>(seat, 2, step) + step
}

/// Ends the turn. The state that was left is at home again.
pub(crate) fn end<K: Kept>(board: &Board<K>, seat: &mut PassSeat<K>)
    requires table { (seat.old.table_id ≡ board.now.table_id) × (board.now.table_id.words ≡ 3) }
    requires left { (t : ℕ) × (m : Mark K) × (seat.old.me.0.stage ≡ Leaves t m) × (seat.old.me.1 ≡ (0, Some m.state) ∷ []) }
    ensures table { seat.new.table_id ≡ seat.old.table_id }
    ensures ended { seat.new.me ≡ (record seat.old.me.0 { stage = Outside }, []) }
{
    board.fetch_add::<Ends>(seat, 1, 1);
    board.wake_all(1);
}

/// Draws the next ticket, where it is at most `most`. Else answers it.
pub(crate) fn enter<K: Kept, R: Wait>(
    rt: &R,
    board: &Board<K>,
    seat: &mut PassSeat<K>,
    most: u64,
) -> Result<u64, u64>
    requires table { (seat.old.table_id ≡ board.now.table_id) × (board.now.table_id.words ≡ 3) }
    requires outside { seat.old.me.0.stage ≡ Outside }
    requires bound { most ≤ 2 ^ 63 }
    ensures table { seat.new.table_id ≡ seat.old.table_id }
    ensures drawn { IfOk result (λ t. (t ≤ most) × (seat.new.me ≡ (record seat.old.me.0 { read = t; stage = Waits t }, seat.old.me.1))) }
    ensures beyond { IfErr result (λ t. (most < t) × (seat.new.me ≡ (record seat.old.me.0 { read = t }, seat.old.me.1))) }
    ensures later { seat.old.me.0.read ≤ seat.new.me.0.read }
{
    for _ in rt.forever() {
        let ticket = read_ticket(board, seat);
        if ticket > most {
            return Err(ticket);
        }
        if draw(board, seat, ticket) {
            return Ok(ticket);
        }
    }
    unreachable!()
}

/// Draws the ticket of the last turn. Where another has it this never returns, which no gate meets that is closed once.
pub(crate) fn enter_last<K: Kept, R: Wait>(rt: &R, board: &Board<K>, seat: &mut PassSeat<K>) -> u64
    requires table { (seat.old.table_id ≡ board.now.table_id) × (board.now.table_id.words ≡ 3) }
    requires outside { seat.old.me.0.stage ≡ Outside }
    ensures table { seat.new.table_id ≡ seat.old.table_id }
    ensures drawn { seat.new.me ≡ (record seat.old.me.0 { read = result; stage = Waits result }, seat.old.me.1) }
{
    match enter(rt, board, seat, LAST_TURN) {
        Ok(ticket) => ticket,
        Err(_) => {
            for _ in rt.forever() {}
            unreachable!()
        }
    }
}

/// Waits until the ticket is served.
pub(crate) fn wait<K: Kept, R: Wait>(rt: &R, board: &Board<K>, seat: &mut PassSeat<K>, ticket: u64)
    requires table { (seat.old.table_id ≡ board.now.table_id) × (board.now.table_id.words ≡ 3) }
    requires waits { seat.old.me.0.stage ≡ Waits ticket }
    ensures table { seat.new.table_id ≡ seat.old.table_id }
    ensures served { TakesTurn K.grown ticket seat.old.me seat.new.me }
{
    for _ in rt.forever() {
        let serving = look(board, seat, ticket);
        if serving == ticket {
            return;
        }
        board.park(rt, 1, (serving % (1 << 32)) as u32);
    }
    unreachable!()
}

/// A whole turn: waits until the ticket is served, makes the step, and ends the turn. Answers the front too.
pub(crate) fn serve<K: Kept, R: Wait>(
    rt: &R,
    board: &Board<K>,
    seat: &mut PassSeat<K>,
    ticket: u64,
    call: K::Call,
) -> (K::Reply, u64)
    requires table { (seat.old.table_id ≡ board.now.table_id) × (board.now.table_id.words ≡ 3) }
    requires waits { (seat.old.me.0.stage ≡ Waits ticket) × (seat.old.me.1 ≡ []) }
    requires may { (before : Mark K) × (seat.old.me.0.seen ≡ Some before) × K.may before.state call }
    ensures table { seat.new.table_id ≡ seat.old.table_id }
    ensures step { Stepped K.grown K.steps seat.old.me.0.seen call result.0 seat.new.me.0.seen }
    ensures front { HasFront seat.new.me.0.seen result.1 }
    ensures rest { seat.new.me ≡ (record seat.old.me.0 { stage = Outside; seen = seat.new.me.0.seen }, []) }
{
    wait(rt, board, seat, ticket);
    let (reply, changed) = step(board, seat, call);
    let front = count(board, seat, changed);
    end(board, seat);
    (reply, front)
}

/// Joins another seat to this one, which keeps the later of what the two have seen.
pub(crate) fn join<K: Kept>(board: &Board<K>, seat: &mut PassSeat<K>, other: PassSeat<K>)
    requires table { (seat.old.table_id ≡ board.now.table_id) × (other.table_id ≡ board.now.table_id) × (board.now.table_id.words ≡ 3) }
    requires outside { (seat.old.me.0.stage ≡ Outside) × (other.me.0.stage ≡ Outside) }
    requires alone { (seat.old.me.0.met ≡ None) × (other.me.0.met ≡ None) × (other.me.1 ≡ []) }
    requires seen { (x : Mark K) × (y : Mark K) × (seat.old.me.0.seen ≡ Some x) × (other.me.0.seen ≡ Some y) }
    ensures table { seat.new.table_id ≡ seat.old.table_id }
    ensures kept { Meets K.grown seat.old.me.0.seen other.me.0.seen seat.new.me.0.seen }
    ensures rest { seat.new.me ≡ (record seat.old.me.0 { seen = seat.new.me.0.seen; met = None }, seat.old.me.1) }
{
    board.join_seat::<Joins>(seat, other);
    board.load::<Compares>(seat, 0);
}

/// Takes the last turn, and the state for good. Answers it with its front.
pub(crate) fn take<K: Kept>(board: &Board<K>, seat: &mut PassSeat<K>) -> (K, u64)
    requires table { (seat.old.table_id ≡ board.now.table_id) × (board.now.table_id.words ≡ 3) }
    requires holds { (t : ℕ) × (m : Mark K) × (seat.old.me.0.stage ≡ Holds t m) × (seat.old.me.1 ≡ (0, Some m.state) ∷ []) }
    ensures { (t : ℕ) (m : Mark K) → seat.old.me.0.stage ≡ Holds t m → m ≡ mark result.0 result.1 }
{
    let front = count(board, seat, false);
    let Some(kept) = board.exchange(seat, 0, None) else {
        unreachable!()
    };
    (kept, front)
}
