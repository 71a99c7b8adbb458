//! The names of tools in a script.
ghost use Rattle.std.specs.Prelude.{◌≡◌, IfOk};
ghost use Rattle.rehearsal_script.specs.Words.{tools_of};

use crate::fields::Fields;
use plugin_core::read_test::all_differ;
use ps_time::items::Items;
use ps_time::memory::Memory;
use ps_time::text::Text;
use std::alloc::Global;
use task_spec::read_task::all_tools;

/// The tools whose names stand between commas, where each is known and none stands there twice.
#[tactic(auto, unfolding(crate::specs::Words::tools_of))]
pub fn read_tools(alloc: Global, field: &str) -> Result<Option<Items<Text>>, Memory>
    ensures { IfOk result (λ tools. tools ≡ tools_of field.now) }
{
    let tools = Fields::cut(alloc, field, ',')?.texts(alloc)?;
    if all_tools(tools.as_slice()) && all_differ(tools.as_slice()) {
        Ok(Some(tools))
    } else {
        Ok(None)
    }
}
