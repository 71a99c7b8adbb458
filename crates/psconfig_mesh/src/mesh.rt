//! Meshes, and the tasks that they want.
use mesh_parts::group::Group;
use mesh_parts::named::Named;
use mesh_parts::tree::Tree;
use ps_time::items::Items;
use ps_time::moment::Moment;
use ps_time::text::Text;

/// A task of a mesh, before its templates give way to hosts.
#[derive(Drop)]
pub struct MeshTask {
    pub name: Text,
    pub group: Group,
    /// Without comments.
    pub test: Tree,
    /// An object of the task's other members, without comments: `archives`, `priority`, `schedule` and
    /// `tools`, where it has them.
    pub rest: Tree,
}

/// What a file says of the tasks of many hosts.
#[derive(Drop)]
pub struct Mesh {
    /// When it was read.
    pub moment: Moment,
    pub name: Text,
    /// The URL of each host's API, by the host's name.
    pub addresses: Items<Named<Text>>,
    /// By their names.
    pub tasks: Items<MeshTask>,
}

/// One task that is wanted of one host.
#[derive(Drop)]
pub struct Wanted {
    /// The name of the host that leads it.
    pub lead: Text,
    /// The URL of that host's API.
    pub url: Text,
    /// What tells it from every other task of the mesh: the compact text of
    /// `{"mesh":NAME,"pair":[HOST,..],"task":NAME}`.
    pub mark: Text,
    /// What is posted, with the mark as its reference.
    pub body: Text,
}
