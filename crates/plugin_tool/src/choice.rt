//! Which tools run a test, and which of them is chosen.
ghost use Rattle.std.specs.Prelude.{◌≡◌, ◌↔◌, false, IfOk, IfSome, IsNone, Contains};
ghost use Rattle.std.specs.Cmp.Lexicographic.{slice_cmp};
ghost use Rattle.std.specs.List.{filter};
ghost use Rattle.std.specs.Ordering.{nat_cmp};
ghost use Rattle.ps_time.specs.Sorted.{IsAscending};
ghost use Rattle.plugin_core.specs.Kind.{test_kind};
ghost use Rattle.plugin_tool.specs.Tool.{tool_text};
ghost use Rattle.plugin_tool.specs.Choice.{tool_of_text, tool_runs, is_tool_for, preference, in_all, offered, first_wanted, exceeds, or_better, best_of, tools_by_name, chosen, IsChoice, qualifies};
ghost use Rattle.plugin_tool.specs.declared.tool.Tool.{Tool};

use crate::tool::{Tool, tool_name};
use plugin_core::kind::{TestKind, kind_of};
use plugin_core::participants::is_named;
use plugin_core::test_spec::TestSpec;
use ps_time::items::Items;
use ps_time::memory::Memory;
use ps_time::text::Text;
use std::alloc::Global;

static TOOLS: [Tool; 4] = [
    Tool::Simplestreamer,
    Tool::Sleep,
    Tool::Sleepbgm,
    Tool::Snooze,
];

/// Every tool, ascending by name.
pub fn tools() -> &'static [Tool]
    ensures list { result.now ≡ tools_by_name }
    ensures every { (tool : Tool) → Contains result.now tool }
    ensures ascending { IsAscending (slice_cmp nat_cmp) tool_text result.now }
{
    &TOOLS
}

/// The tool of a name; `None` exactly for every other text.
pub fn read_tool(text: &str) -> Option<Tool>
    ensures { result ≡ tool_of_text text.now }
{
    match text {
        "sleep" => Some(Tool::Sleep),
        "snooze" => Some(Tool::Snooze),
        "sleepbgm" => Some(Tool::Sleepbgm),
        "simplestreamer" => Some(Tool::Simplestreamer),
        _ => None,
    }
}

/// Whether the tool runs tests of the kind.
pub fn runs(tool: Tool, kind: TestKind) -> bool
    ensures { result ≡ tool_runs tool kind }
{
    match tool {
        Tool::Sleep => matches!(kind, TestKind::Idle | TestKind::Idleex | TestKind::Idlemany),
        Tool::Snooze => matches!(kind, TestKind::Idle | TestKind::Idleex),
        Tool::Sleepbgm => matches!(kind, TestKind::Idlebgm),
        Tool::Simplestreamer => matches!(kind, TestKind::Simplestream),
    }
}

/// Those of the installed tools that run the test, in their order.
pub fn tools_for(alloc: Global, test: &TestSpec, installed: &[Text]) -> Result<Items<Text>, Memory>
    ensures { IfOk result (λ tools. tools ≡ filter (is_tool_for (test_kind test.now)) installed.now) }
{
    let kind = kind_of(test);
    let mut tools = Items::new(alloc);
    for name in installed {
        if is_tool_for(name.as_str(), kind) {
            tools.push(name.copy(alloc)?)?;
        }
    }
    Ok(tools)
}

fn is_tool_for(name: &str, kind: TestKind) -> bool
    ensures { result ≡ is_tool_for kind name.now }
{
    match read_tool(name) {
        Some(tool) => runs(tool, kind),
        None => false,
    }
}

/// The tool for a run whose participants offer these lists: the first wanted one that is in all lists;
/// where none is wanted, the one in all lists with the greatest sum of preferences, and of equal ones
/// the first by name. `None` exactly where there is none.
pub fn choose_tool(lists: &[Items<Text>], wanted: &[Text]) -> Option<Tool>
    ensures value { result ≡ chosen lists.now wanted.now }
    ensures choice { IfSome result (IsChoice lists.now wanted.now) }
    ensures none { IsNone result ↔ ((tool : Tool) → qualifies lists.now wanted.now tool ≡ false) }
{
    chosen(lists, wanted)
}

fn chosen(lists: &[Items<Text>], wanted: &[Text]) -> Option<Tool>
    ensures { result ≡ chosen lists.now wanted.now }
{
    if wanted.is_empty() {
        preferred(lists)
    } else {
        first_wanted(lists, wanted)
    }
}

fn first_wanted(lists: &[Items<Text>], wanted: &[Text]) -> Option<Tool>
    ensures { result ≡ first_wanted lists.now wanted.now }
{
    for name in wanted {
        if let Some(tool) = offered(lists, name.as_str()) {
            return Some(tool);
        }
    }
    None
}

/// The tool of this name, where it is in all lists.
fn offered(lists: &[Items<Text>], name: &str) -> Option<Tool>
    ensures { result ≡ offered lists.now (tool_of_text name.now) }
{
    match read_tool(name) {
        Some(tool) if is_in_all(lists, tool) => Some(tool),
        _ => None,
    }
}

fn is_in_all(lists: &[Items<Text>], tool: Tool) -> bool
    ensures { result ≡ in_all lists.now tool }
{
    let name = tool_name(tool);
    for list in lists {
        if !is_named(list.as_slice(), name) {
            return false;
        }
    }
    true
}

fn preferred(lists: &[Items<Text>]) -> Option<Tool>
    ensures { result ≡ best_of lists.now tools_by_name }
{
    let best = or_better(lists, Tool::Snooze, None);
    let best = or_better(lists, Tool::Sleepbgm, best);
    let best = or_better(lists, Tool::Sleep, best);
    or_better(lists, Tool::Simplestreamer, best)
}

/// The best of some tools by name, where `tool` comes before them.
fn or_better(lists: &[Items<Text>], tool: Tool, best: Option<Tool>) -> Option<Tool>
    ensures { result ≡ or_better lists.now tool best }
{
    if !is_in_all(lists, tool) {
        return best;
    }
    match best {
        Some(other) if exceeds(lists.len(), other, tool) => Some(other),
        _ => Some(tool),
    }
}

/// Whether the sum of the tool's preferences in so many lists is above that of another.
fn exceeds(count: usize, tool: Tool, other: Tool) -> bool
    ensures { result ≡ exceeds count tool other }
{
    count > 0 && preference(tool) > preference(other)
}

fn preference(tool: Tool) -> u8
    ensures { result ≡ preference tool }
{
    match tool {
        Tool::Sleep => 10,
        Tool::Snooze => 5,
        Tool::Sleepbgm => 10,
        Tool::Simplestreamer => 10,
    }
}
