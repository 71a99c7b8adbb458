//! The law of replies and answers.
ghost use Rattle.std.specs.Prelude.{◌≡◌, ◌≤◌, Ok, Some, length};
ghost use Rattle.serde_json.specs.Data.{depth};
ghost use Rattle.ps_json.specs.Tree.{tree_of};
ghost use Rattle.ps_time.specs.Numbers.{most_request_bytes};
ghost use Rattle.ps_http.specs.declared.message.Response.{Response};
ghost use Rattle.host_model.specs.declared.config.Config.{Config};
ghost use Rattle.host_model.specs.declared.input.Input.{Input};
ghost use Rattle.host_model.specs.declared.order.Order.{Order};
ghost use Rattle.host_model.specs.declared.reply.Reply.{Reply};
ghost use Rattle.world_law.specs.World.{heard_as};
ghost use Rattle.api_reply.specs.Replies.{reply_data, response_of};
ghost use Rattle.api_answer.specs.Heard.{heard_of};
ghost use Rattle.api_peer.specs.Replied.{IsReplyTo};

use plugin_core::write_test::law_test;

/// A law: the response that `respond` makes of a reply to an order is heard as exactly what was meant by the host that ordered, if
/// its body isn't too long.
pub fn law_heard()
    ensures { (c : Config) (o : Order) (r : Reply) (response : Response) → response ≡ response_of c r
        → (depth (reply_data c r) ≤ 64 → tree_of response.body ≡ Ok (reply_data c r)) → IsReplyTo o.body r
        → length response.body ≤ most_request_bytes → heard_of o response ≡ Some (Input.Heard o (heard_as r)) }
{
    law_test();
}
