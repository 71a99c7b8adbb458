//! Orders, each by its name.
ghost use Rattle.std.specs.Prelude.{IfOk};
ghost use Rattle.api_peer.specs.Ordered.{IsOrder};

use crate::tests::given::a_test;
use host_model::order::{Order, OrderBody};
use ps_time::asker::Asker;
use ps_time::interval::Window;
use ps_time::key::RunKey;
use ps_time::text::Text;
use run_states::proposal::{Proposal, Question};
use std::alloc::Global;
use std::test::Fail;

const KEY: RunKey = RunKey {
    lead: 1,
    task: 1,
    number: 0,
    attempt: 0,
};

fn a_question(alloc: Global) -> Result<OrderBody, Fail>
    ensures { IfOk result IsOrder }
{
    let window = Window {
        first: 1000,
        last: 2000,
    };
    Ok(OrderBody::Free(Question {
        key: KEY,
        test: a_test(alloc)?,
        priority: 0,
        window,
    }))
}

fn a_proposal(alloc: Global) -> Result<OrderBody, Fail>
    ensures { IfOk result IsOrder }
{
    let tool = Text::new(alloc, "sleep")?;
    let requester = Text::new(alloc, "10.0.0.9")?;
    let server = Text::new(alloc, "a")?;
    Ok(OrderBody::Propose(Proposal {
        key: KEY,
        test: a_test(alloc)?,
        tool,
        start: 1007,
        priority: 0,
        asker: Asker { requester, server },
    }))
}

fn a_body(alloc: Global, name: &str) -> Result<OrderBody, Fail>
    ensures { IfOk result IsOrder }
{
    match name {
        "free" => a_question(alloc),
        "propose" => a_proposal(alloc),
        "confirm" => Ok(OrderBody::Confirm),
        "cancel" => Ok(OrderBody::Cancel),
        "material" => Ok(OrderBody::Material(Text::new(alloc, "hello")?)),
        "result" => Ok(OrderBody::Result),
        _ => Err(Fail::from("no order")),
    }
}

/// An order of this name to host b.
pub(crate) fn an_order(alloc: Global, name: &str) -> Result<Order, Fail>
    ensures { IfOk result (λ order. IsOrder order.body) }
{
    let to = Text::new(alloc, "b")?;
    Ok(Order {
        key: KEY,
        place: 1,
        to,
        body: a_body(alloc, name)?,
    })
}
