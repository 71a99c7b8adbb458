//! Keys of runs, as the texts of rows.
ghost use Rattle.std.specs.Prelude.{◌≡◌, IfOk, IfSome};
ghost use Rattle.ps_time.specs.Id.{InRange};
ghost use Rattle.ps_time.specs.declared.id.Id.TheVariants.{Run};
ghost use Rattle.result_rows.specs.Rows.{key_text, text_above, HasAfter};

use ps_time::id::{Id, id_text, read_id};
use ps_time::key::RunKey;
use ps_time::memory::Memory;
use ps_time::text::Text;
use std::alloc::Global;

/// The fields of a key have their widths.
fn known_range(key: RunKey)
    ensures { InRange (Run key) }
{
    let RunKey {
        lead: _lead,
        task: _task,
        number: _number,
        attempt: _attempt,
    } = key;
}

/// The identifier of the run, as it is written.
#[tactic(auto, unfolding(crate::specs::Rows::key_text))]
pub fn write_key(alloc: Global, key: RunKey) -> Result<Text, Memory>
    ensures text { IfOk result (λ text. text ≡ key_text key) }
    ensures range { InRange (Run key) }
{
    known_range(key);
    id_text(alloc, Id::Run(key))
}

/// The text that the texts of the identifiers above a key are above.
pub fn write_after(alloc: Global, after: Option<RunKey>) -> Result<Text, Memory>
    ensures text { IfOk result (λ text. text ≡ text_above after) }
    ensures range { HasAfter after }
{
    match after {
        Some(key) => write_key(alloc, key),
        None => Text::new(alloc, ""),
    }
}

/// The key whose identifier is written so.
pub fn read_key(alloc: Global, text: &Text) -> Result<Option<RunKey>, Memory>
    ensures text { IfOk result (λ key. IfSome key (λ k. text.now ≡ key_text k)) }
    ensures range { IfOk result (λ key. IfSome key (λ k. InRange (Run k))) }
{
    let Some(Id::Run(key)) = read_id(text.as_str()) else {
        return Ok(None);
    };
    let written = write_key(alloc, key)?;
    if text.is(written.as_str()) {
        Ok(Some(key))
    } else {
        Ok(None)
    }
}
