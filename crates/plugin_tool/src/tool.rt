//! The programs that run tests.
ghost use Rattle.std.specs.Prelude.{◌≡◌};
ghost use Rattle.plugin_tool.specs.Tool.{tool_text};

use ps_time::duplicate::Duplicate;
use ps_time::memory::Memory;
use ps_time::same::Same;
use std::alloc::Global;
use std::fmt;

/// A tool, as the pScheduler reference names it.
#[derive(Clone, Copy, PartialEq, Eq)]
pub enum Tool {
    /// Runs `idle`, `idleex` and `idlemany`.
    Sleep,
    /// Runs `idle` and `idleex`.
    Snooze,
    /// Runs `idlebgm`.
    Sleepbgm,
    /// Runs `simplestream`.
    Simplestreamer,
}

/// The reference's name of the tool.
pub fn tool_name(tool: Tool) -> &'static str
    ensures { result.now ≡ tool_text tool }
{
    match tool {
        Tool::Sleep => "sleep",
        Tool::Snooze => "snooze",
        Tool::Sleepbgm => "sleepbgm",
        Tool::Simplestreamer => "simplestreamer",
    }
}

impl fmt::Display for Tool {
    ghost use Rattle.std.specs.Prelude.{Some};
    ghost use Rattle.plugin_tool.specs.Tool.{tool_text};

    ghost output = { λ t. Some (tool_text t) };

    fn fmt<W: fmt::Write>(&self, f: &mut fmt::Formatter<W>) -> fmt::Result {
        f.write_str(tool_name(*self))
    }
}

impl Duplicate for Tool {
    fn duplicate(&self, _alloc: Global) -> Result<Tool, Memory> {
        Ok(*self)
    }
}

impl Same for Tool {
    fn same(&self, other: &Tool) -> bool {
        self == other
    }
}
