//! What holds of all that a lead says and hears.
ghost use Rattle.std.specs.Prelude.{◌≡◌, ◌↔◌, Contains, IsSome, List, None, Some, ℕ};
ghost use Rattle.ps_time.specs.Numbers.{most_orders};
ghost use Rattle.run_states.specs.Life.{settled_rows};
ghost use Rattle.run_states.specs.declared.answer.Other.{Other};
ghost use Rattle.run_states.specs.declared.row.RunRow.{RunRow};
ghost use Rattle.host_model.specs.Book.{Book, moment_at};
ghost use Rattle.host_model.specs.Effect.{effect};
ghost use Rattle.host_model.specs.Heard.{other_at};
ghost use Rattle.host_model.specs.Lawful.{Lawful};
ghost use Rattle.host_model.specs.Orders.{order_to, orders, row_orders};
ghost use Rattle.host_model.specs.declared.change.Change.TheVariants.{AcceptHeard};
ghost use Rattle.host_model.specs.declared.order.Order.{Order};
ghost use Rattle.host_model.specs.declared.order.OrderBody.{OrderBody};
ghost use Rattle.host_model.specs.declared.task_row.TaskRow.{TaskRow};
ghost use Rattle.lead_orders.specs.Due.{IsDue, WantsOnly};
ghost use Rattle.lead_orders.specs.Listed.{AreFirst, IsDueOrder, all_orders, order_cmp};

/// A law: an acceptance confirms an unconfirmed row exactly where the run is booked and every other participant has
/// accepted it: where it was the last one that wanted.
pub fn law_confirm()
    ensures { (m : ℕ) (tasks : List TaskRow) (r : RunRow) (place : ℕ) (o : Other) → r.confirmed ≡ None → other_at r place ≡ Some o
        → IsSome (effect m tasks (AcceptHeard r.key place) r).confirmed ↔ WantsOnly r place }
{}

/// A law: a row that was asked about lists an order to a participant exactly while the condition of its kind holds.
pub fn law_order()
    ensures { (m : ℕ) (r : RunRow) (place : ℕ) (o : Other) (body : OrderBody) → IsSome r.asked → other_at r place ≡ Some o
        → Contains (row_orders m r) (order_to r place body) ↔ IsDue m r o body }
{}

/// A law of every lawful book, at every moment: before the cut its orders are exactly those that are due: whose row is this
/// host's and was asked about, and for whose participant the condition of their kind holds. What is listed are the first
/// 64 of these, by key, then by place, then by kind.
pub fn law_listing()
    ensures due { (self clock : ℕ) (b : Book) → Lawful self b → (x : Order)
        → Contains (all_orders (moment_at b clock) (settled_rows (moment_at b clock) b.rows)) x ↔ IsDueOrder self (moment_at b clock) (settled_rows (moment_at b clock) b.rows) x }
    ensures first { (self clock : ℕ) (b : Book) → Lawful self b
        → AreFirst order_cmp most_orders (IsDueOrder self (moment_at b clock) (settled_rows (moment_at b clock) b.rows)) (orders b clock) }
{}
