//! What a host answers: its replies, and refusals of requests that ask nothing of it, as responses of HTTP.
#![tactic(auto)]

pub mod denial;
pub mod object;
pub mod refusal;
pub mod respond;
pub mod run_view;
pub mod shown;
pub mod task_view;
pub mod told;
pub mod view;
