//! The tasks that a mesh wants.
ghost use Rattle.std.specs.Prelude.{◌≡◌, ◌≤◌, ◌++◌, [], All, length, true, IfOk, OnOk};
ghost use Rattle.std.specs.Option.{unwrap_or};
ghost use Rattle.psconfig_mesh.specs.Body.{body_data, fits};
ghost use Rattle.psconfig_mesh.specs.Mesh.{IsFit, IsMesh, IsWanted, wanted, wanted_by, wanted_of};
ghost use Rattle.mesh_parts.specs.Named.{find};

use crate::body::{write_body, write_mark};
use crate::mesh::{Mesh, MeshTask, Wanted};
use mesh_parts::group::Pair;
use mesh_parts::named::{Named, find};
use ps_json::tree::write_text;
use ps_time::memory::Memory;
use ps_time::text::Text;
use std::alloc::Global;

fn url_of(alloc: Global, host: &str, addresses: &[Named<Text>]) -> Result<Text, Memory>
    ensures { IfOk result (λ url. url ≡ unwrap_or (find host.now addresses.now) []) }
{
    match find(host, addresses) {
        Some(url) => url.copy(alloc),
        None => Text::new(alloc, ""),
    }
}

#[tactic(auto, using(crate::proofs::BodyLemmas::mark_whole, crate::proofs::BodyLemmas::mark_flat))]
fn mark_of(alloc: Global, mesh: &Mesh, task: &MeshTask, pair: &Pair) -> Result<Text, Memory>
    ensures { IfOk result (λ mark. mark ≡ (wanted mesh.now task.now pair.now).mark) }
{
    let mark = write_mark(alloc, mesh.name.as_str(), task.name.as_str(), pair)?;
    write_text(alloc, &mark)
}

#[tactic(auto, using(crate::proofs::BodyLemmas::body_whole, crate::proofs::BodyLemmas::body_flat))]
fn body_of(alloc: Global, mesh: &Mesh, task: &MeshTask, pair: &Pair) -> Result<Text, Memory>
    requires { fits mesh.now.moment pair.now.first (body_data mesh.now.name task.now pair.now) ≡ true }
    ensures text { IfOk result (λ body. body ≡ (wanted mesh.now task.now pair.now).body) }
    ensures reads { IfOk result (λ _. IsWanted mesh.now.moment (wanted mesh.now task.now pair.now)) }
{
    let body = write_body(alloc, mesh.name.as_str(), task, pair)?;
    let text = write_text(alloc, &body)?;
    Ok(text)
}

fn wanted_of(alloc: Global, mesh: &Mesh, task: &MeshTask, pair: Pair) -> Result<Wanted, Memory>
    requires { fits mesh.now.moment pair.first (body_data mesh.now.name task.now pair) ≡ true }
    ensures value { IfOk result (λ w. w ≡ wanted mesh.now task.now pair) }
    ensures reads { IfOk result (IsWanted mesh.now.moment) }
{
    let url = url_of(alloc, pair.first.as_str(), mesh.addresses.as_slice())?;
    let mark = mark_of(alloc, mesh, task, &pair)?;
    let body = body_of(alloc, mesh, task, &pair)?;
    Ok(Wanted {
        lead: pair.first,
        url,
        mark,
        body,
    })
}

fn push_wanted(
    alloc: Global,
    wanted: &mut Vec<Wanted>,
    mesh: &Mesh,
    task: &MeshTask,
) -> Result<(), Memory>
    requires { IsFit mesh.now.moment mesh.now.name mesh.now.addresses task.now }
    ensures value { OnOk result (wanted.new.items ≡ wanted.old.items ++ wanted_by mesh.now task.now) }
    ensures reads { All (IsWanted mesh.now.moment) wanted.old.items
        → OnOk result (All (IsWanted mesh.now.moment) wanted.new.items) }
{
    for pair in task.group.pairs(alloc, mesh.addresses.as_slice())? {
        wanted.push(wanted_of(alloc, mesh, task, pair)?)?;
    }
    Ok(())
}

/// The tasks that a mesh wants, by the task's name and then by the names of the first and the second host:
/// one for each task and member of its group.
pub fn wanted_tasks(alloc: Global, mesh: &Mesh) -> Result<Vec<Wanted>, Memory>
    requires { IsMesh mesh.now }
    ensures value { IfOk result (λ made. made.items ≡ wanted_of mesh.now) }
    ensures reads { IfOk result (λ made. All (IsWanted mesh.now.moment) made.items) }
    ensures few { IfOk result (λ made. length made.items ≤ 4_096) }
{
    let mut wanted = Vec::new(alloc);
    for task in mesh.tasks.as_slice() {
        push_wanted(alloc, &mut wanted, mesh, task)?;
    }
    Ok(wanted)
}
