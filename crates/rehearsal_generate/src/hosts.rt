//! The hosts that do the work.
ghost use Rattle.std.specs.Prelude.{◌≡◌, IfOk, length};
ghost use Rattle.rehearsal_script.specs.Lawful.{AreLawfulHosts};
ghost use Rattle.rehearsal_generate.specs.Work.{host_numbers, host_of, work_hosts};

use ps_time::items::Items;
use ps_time::memory::Memory;
use ps_time::text::Text;
use rehearsal_script::script::ScriptHost;
use std::alloc::Global;

static NUMBERS: [u16; 8] = [1, 2, 3, 4, 5, 6, 7, 8];

fn numbers() -> &'static [u16]
    ensures { result.now ≡ host_numbers }
{
    &NUMBERS
}

fn host_of(alloc: Global, number: u16) -> Result<ScriptHost, Memory>
    ensures { IfOk result (λ host. host ≡ host_of number) }
{
    let name = Text::from_string(format!(in alloc; "h{number}")?);
    Ok(ScriptHost { name, number })
}

/// `h1` to `h8`, with the numbers 1 to 8.
#[tactic(auto, unfolding(crate::specs::Work::work_hosts))]
pub fn work_hosts(alloc: Global) -> Result<Vec<ScriptHost>, Memory>
    ensures { IfOk result (λ hosts. hosts.items ≡ work_hosts) }
{
    let mut hosts = Vec::new(alloc);
    for number in numbers() {
        hosts.push(host_of(alloc, *number)?)?;
    }
    Ok(hosts)
}

/// A law: a script may declare these hosts.
pub fn law_hosts()
    ensures lawful { AreLawfulHosts work_hosts }
    ensures eight { length work_hosts ≡ 8 }
{}
