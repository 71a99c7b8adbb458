//! Identifiers of tasks and runs: UUIDs of version 8 (RFC 9562) that hold their fields.
ghost use Rattle.std.specs.Prelude.{◌≡◌, ◌≢◌, ◌≤◌, ◌+◌, ◌*◌, ◌^◌, IfOk, IfSome, IfNone, Some};
ghost use Rattle.ps_time.specs.Id.{uuid_of, id_of, id_text, id_of_text, InRange, OrderedAsKeys};

use crate::key::RunKey;
use crate::memory::Memory;
use crate::text::Text;
use std::alloc::Global;
use uuid::Uuid;

/// What an identifier names.
#[derive(Clone, Copy, Debug, PartialEq, Eq)]
pub enum Id {
    /// A task on its lead.
    Task {
        /// The number of the lead host, 1 to 65535.
        lead: u16,
        /// The serial of the task on its lead.
        task: u32,
    },
    /// A run.
    Run(RunKey),
}

/// From the highest bit: lead 16, task 32, version 4 (8), kind 12 (0 task, 1 run).
fn high_half(lead: u16, task: u32, kind: u64) -> u64
    requires { kind ≤ 1 }
    ensures { result ≡ lead * 2 ^ 48 + task * 2 ^ 16 + 8 * 2 ^ 12 + kind }
{
    u64::from(lead) * (1 << 48) + u64::from(task) * (1 << 16) + 8 * (1 << 12) + kind
}

/// From the highest bit: variant 2 (binary 10), zero 14, number 32, attempt 16.
fn low_half(number: u32, attempt: u16) -> u64
    ensures { result ≡ 2 * 2 ^ 62 + number * 2 ^ 16 + attempt }
{
    2 * (1 << 62) + u64::from(number) * (1 << 16) + u64::from(attempt)
}

/// The UUID's value: from the highest bit lead 16, task 32, version 4 (value 8), kind 12 (0 task, 1 run),
/// variant 2 (binary 10), zero 14, number 32, attempt 16. A task has number and attempt 0.
pub fn key_uuid(id: Id) -> u128
    ensures value { result ≡ uuid_of id }
    ensures read_back { id_of result ≡ Some id }
{
    let (high, low) = match id {
        Id::Task { lead, task } => (high_half(lead, task, 0), low_half(0, 0)),
        Id::Run(key) => (
            high_half(key.lead, key.task, 1),
            low_half(key.number, key.attempt),
        ),
    };
    u128::from(high) * (1 << 64) + u128::from(low)
}

/// What the UUID names; `None` exactly where its bits aren't of the layout of `key_uuid`.
pub fn uuid_key(value: u128) -> Option<Id>
    ensures value { result ≡ id_of value }
    ensures found { IfSome result (λ id. InRange id × (uuid_of id ≡ value)) }
    ensures none { IfNone result ((id : Id) → InRange id → uuid_of id ≢ value) }
{
    let high = (value / (1 << 64)) as u64;
    let low = (value % (1 << 64)) as u64;
    if high / (1 << 12) % 16 != 8 || low / (1 << 62) != 2 || low / (1 << 48) % (1 << 14) != 0 {
        return None;
    }
    let lead = (high / (1 << 48)) as u16;
    let task = (high / (1 << 16) % (1 << 32)) as u32;
    let number = (low / (1 << 16) % (1 << 32)) as u32;
    let attempt = (low % (1 << 16)) as u16;
    match high % (1 << 12) {
        0 if number == 0 && attempt == 0 => Some(Id::Task { lead, task }),
        1 => Some(Id::Run(RunKey {
            lead,
            task,
            number,
            attempt,
        })),
        _ => None,
    }
}

/// The identifier as it is written: lower-case hexadecimal digits and hyphens.
pub fn id_text(alloc: Global, id: Id) -> Result<Text, Memory>
    ensures text { IfOk result (λ text. text ≡ id_text id) }
    ensures read_back { IfOk result (λ text. id_of_text text ≡ Some id) }
{
    let mut buffer = Uuid::encode_buffer();
    let uuid = Uuid::from_u128(key_uuid(id));
    Text::new(alloc, uuid.hyphenated().encode_lower(&mut buffer))
}

/// What a text names, in every form in which `uuid` reads one; `None` exactly where it reads no
/// value, or one that isn't of the layout.
pub fn read_id(text: &str) -> Option<Id>
    ensures { result ≡ id_of_text text.now }
{
    match Uuid::parse_str(text) {
        Ok(uuid) => uuid_key(uuid.as_u128()),
        Err(_) => None,
    }
}

/// A law: identifiers of runs are ordered as their keys, as numbers and as texts. So the bytes of a text, as a key of
/// rows that are kept by text, give the order of keys.
pub fn law_id_order()
    ensures { OrderedAsKeys }
{}
