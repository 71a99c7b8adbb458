//! Things that a mesh names.
ghost use Rattle.std.specs.Prelude.{◌≡◌, option_copied};
ghost use Rattle.mesh_parts.specs.Named.{find};

use ps_time::text::Text;

/// A thing and its name.
#[derive(Drop)]
pub struct Named<T> {
    pub name: Text,
    pub value: T,
}

/// The first thing of this name.
pub fn find<'a, T>(name: &str, entries: &'a [Named<T>]) -> Option<&'a T>
    ensures { option_copied result ≡ find name.now entries.now }
{
    for entry in entries {
        if entry.name.as_str() == name {
            return Some(&entry.value);
        }
    }
    None
}
