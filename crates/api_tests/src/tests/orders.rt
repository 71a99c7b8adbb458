//! That orders can be sent, taken and answered. What they say is told by the theorems of this crate.
ghost use Rattle.api_peer.specs.Ordered.{IsOrder};

use crate::tests::given::a_host;
use crate::tests::orders_given::an_order;
use api_answer::heard::heard;
use api_input::refusal::Refusal;
use api_input::understand::understand;
use api_peer::request::order_request;
use host_model::config::Config;
use host_model::input::Input;
use host_model::order::Order;
use ps_http::message::{Request, Response};
use ps_time::items::Items;
use ps_time::memory::Memory;
use std::alloc::Global;
use std::test::Fail;

/// An order by its name, and the body of an answer with status 200.
static ORDERS: [(&str, &str); 6] = [
    (
        "free",
        r#"{"first-tier":[[1006,1300]],"second-tier":[],"tools":["sleep"]}"#,
    ),
    ("propose", r#"{"accepted":1003}"#),
    ("confirm", r#"{"confirmed":1003}"#),
    ("cancel", r#"{"dropped":true}"#),
    ("material", r#"{"heard":true}"#),
    ("result", r#"{"state":"running"}"#),
];

fn is_input(read: Result<Input, Refusal>) -> bool {
    read.is_ok()
}

// Whether the other host takes the request.
fn is_taken(alloc: Global, other: &Config, request: Option<Request>) -> bool {
    match request {
        Some(request) => is_input(understand(alloc, other, &request, "10.0.0.9", 1000)),
        None => false,
    }
}

fn request_of(alloc: Global, config: &Config, order: Order) -> Result<Option<Request>, Memory>
    requires { IsOrder order.body }
{
    order_request(alloc, config, &order)
}

fn is_sent(alloc: Global, lead: &Config, other: &Config, name: &str) -> Result<bool, Fail> {
    let order = an_order(alloc, name)?;
    Ok(is_taken(alloc, other, request_of(alloc, lead, order)?))
}

fn a_response(alloc: Global, body: &str) -> Result<Response, Memory> {
    let body = Items::from_vec(Vec::from_slice(alloc, body.as_bytes())?);
    Ok(Response {
        status: 200,
        allow: None,
        close: true,
        body,
    })
}

fn is_there(input: Option<Input>) -> bool {
    input.is_some()
}

fn is_heard_of(alloc: Global, order: Order, response: &Response) -> Result<bool, Memory> {
    Ok(is_there(heard(alloc, order, response)?))
}

fn is_heard(alloc: Global, name: &str, body: &str) -> Result<bool, Fail> {
    let response = a_response(alloc, body)?;
    let order = an_order(alloc, name)?;
    match is_heard_of(alloc, order, &response) {
        Ok(heard) => Ok(heard),
        Err(_) => Err(Fail::from("no memory")),
    }
}

fn check(alloc: Global, lead: &Config, other: &Config, cases: &[(&str, &str)]) -> Result<(), Fail> {
    for (name, body) in cases {
        if !is_sent(alloc, lead, other, name)? || !is_heard(alloc, name, body)? {
            return Err(Fail::new(format_args!("{name}")));
        }
    }
    Ok(())
}

#[test]
fn orders_are_sent_and_answered(rt: HostRuntime) -> Result<(), Fail> {
    let alloc = rt.alloc();
    let lead = a_host(alloc, 1, "a", 2, "b")?;
    let other = a_host(alloc, 2, "b", 1, "a")?;
    check(alloc, &lead, &other, &ORDERS)
}
