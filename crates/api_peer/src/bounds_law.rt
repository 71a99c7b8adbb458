//! The laws of lawful books and the interface.
ghost use Rattle.std.specs.Prelude.{◌≡◌, ◌≤◌, All, List, Ok, Some, length, ℕ};
ghost use Rattle.ps_http.specs.Sendable.{IsSendable};
ghost use Rattle.ps_http.specs.declared.message.HttpLimits.{HttpLimits};
ghost use Rattle.ps_http.specs.declared.message.Request.{Request};
ghost use Rattle.ps_time.specs.declared.key.RunKey.{RunKey};
ghost use Rattle.run_states.specs.declared.proposal.Proposal.{Proposal};
ghost use Rattle.host_model.specs.Book.{Book, empty_book};
ghost use Rattle.host_model.specs.Conditions.{IsConfig, MayStep};
ghost use Rattle.host_model.specs.Lawful.{Lawful};
ghost use Rattle.host_model.specs.Orders.{orders};
ghost use Rattle.host_model.specs.Step.{step_book, step_reply};
ghost use Rattle.host_model.specs.declared.config.Config.{Config};
ghost use Rattle.host_model.specs.declared.input.Input.{Input};
ghost use Rattle.host_model.specs.declared.order.Order.{Order};
ghost use Rattle.host_model.specs.declared.order.OrderBody.{OrderBody};
ghost use Rattle.world_law.specs.Laws.{SaysDiffers};
ghost use Rattle.world_law.specs.World.{input_of};
ghost use Rattle.api_input.specs.Understood.{most_address_bytes, understood};
ghost use Rattle.api_reply.specs.Bounds.{IsReplyShown};
ghost use Rattle.api_peer.specs.Meant.{KeepsBounds};
ghost use Rattle.api_peer.specs.Ordered.{IsOrder, order_request_of};
ghost use Rattle.api_peer.specs.Replied.{IsReplyTo};
ghost use Rattle.api_peer.specs.Listed.{IsListed};
ghost use Rattle.api_peer.specs.Orderly.{IsOrderly, IsSized};
ghost use Rattle.api_peer.specs.Sent.{HasKeys, HasRoom};
ghost use Rattle.api_peer.specs.Told.{AreTold};
ghost use Rattle.api_peer.specs.Widths.{HasWidths};

/// A law: what each step that may be made replies can be shown, as `respond` asks.
pub fn law_reply()
    ensures { (c : Config) (b : Book) (clock : ℕ) (i : Input) → MayStep c b clock i → IsReplyShown (step_reply c b clock i) }
{}

/// A law: each order that a lawful book lists, whatever its clock, can be sent, as `order_request` asks. Its window and
/// its start are moments that are kept, and its material is short.
pub fn law_orders()
    ensures sent { (self : ℕ) (b : Book) (clock : ℕ) → Lawful self b → All (λ order. IsOrder order.body) (orders b clock) }
    ensures bounds { (self : ℕ) (b : Book) (clock : ℕ) → Lawful self b → All (λ order. IsListed order.body) (orders b clock) }
{}

/// A law: the empty book is orderly, and each step of a host leaves an orderly book so, where a task is posted from an
/// address of at most 255 bytes. Each input that a request from such an address asks for is one that keeps a book so.
pub fn law_orderly()
    ensures empty { (name : List ℕ) → IsOrderly name empty_book }
    ensures step { (c : Config) (b : Book) (clock : ℕ) (i : Input) → IsSized i → IsOrderly c.name b → IsOrderly c.name (step_book c b clock i) }
    ensures input { (c : Config) (r : Request) (address : List ℕ) (m : ℕ) (i : Input) → length address ≤ most_address_bytes
        → understood c r address m ≡ Ok i → IsSized i }
{}

/// A law: each order that a lawful and orderly book lists, whatever its clock, keeps the bounds within which its request
/// is understood, as `order_request` says.
pub fn law_bounds()
    ensures { (c : Config) (b : Book) (clock : ℕ) → IsConfig c → Lawful c.number b → IsOrderly c.name b
        → All (λ order. KeepsBounds c.name order.body) (orders b clock) }
{}

/// A law: the request of each order can be sent to the authority of its peer, so that its bytes are read again as it.
pub fn law_request()
    ensures { (limits : HttpLimits) (c : Config) (order : Order) (r : Request) (authority : List ℕ) → HasKeys c → order_request_of c order ≡ Some r
        → HasRoom limits authority r → IsSendable limits r authority }
{}

/// A law: the results of the empty book are compact texts, and each step that may be made leaves a book whose results are so.
pub fn law_told()
    ensures empty { AreTold empty_book }
    ensures step { (c : Config) (b : Book) (clock : ℕ) (i : Input) → MayStep c b clock i → AreTold b → AreTold (step_book c b clock i) }
{}

/// A law: what a step replies to an order is a reply to that order, as `law_heard` asks, where the results of the book are
/// compact texts. A proposal is one that doesn't differ from the row of its key, as none does that was sent.
pub fn law_answer()
    ensures { (c : Config) (b : Book) (clock sender : ℕ) (k : RunKey) (body : OrderBody) → MayStep c b clock (input_of sender k body) → AreTold b
        → ((p : Proposal) → body ≡ OrderBody.Propose p → SaysDiffers (step_reply c b clock (input_of sender k body)) → ⊥)
        → HasWidths (step_reply c b clock (input_of sender k body)) → IsReplyTo body (step_reply c b clock (input_of sender k body)) }
{}
