//! Scheduling classes, as the pScheduler reference names them.
ghost use Rattle.std.specs.Prelude.{◌≡◌};

use crate::duplicate::Duplicate;
use crate::memory::Memory;
use crate::same::Same;
use std::alloc::Global;
use std::fmt;

/// What a test tolerates beside itself on a host.
#[derive(Clone, Copy, Debug, PartialEq, Eq)]
pub enum Class {
    /// Conflicts with no class.
    BackgroundMulti,
    /// Conflicts with no class.
    Background,
    /// Conflicts with exclusive runs.
    Normal,
    /// Conflicts with normal and exclusive runs.
    Exclusive,
}

ghost use Rattle.ps_time.specs.Class.{conflicting_classes, class_text, class_of_text};

/// Whether runs of these classes may not overlap: one is exclusive, and the other exclusive or normal.
pub fn classes_conflict(a: Class, b: Class) -> bool
    ensures { result ≡ conflicting_classes a b }
{
    match (a, b) {
        (Class::Exclusive, Class::Exclusive) => true,
        (Class::Exclusive, Class::Normal) => true,
        (Class::Normal, Class::Exclusive) => true,
        _ => false,
    }
}

/// The reference's name of the class.
pub fn class_name(class: Class) -> &'static str
    ensures { result.now ≡ class_text class }
{
    match class {
        Class::BackgroundMulti => "background-multi",
        Class::Background => "background",
        Class::Normal => "normal",
        Class::Exclusive => "exclusive",
    }
}

/// The class of a name; `None` exactly for every other text.
pub fn read_class(text: &str) -> Option<Class>
    ensures { result ≡ class_of_text text.now }
{
    match text {
        "background-multi" => Some(Class::BackgroundMulti),
        "background" => Some(Class::Background),
        "normal" => Some(Class::Normal),
        "exclusive" => Some(Class::Exclusive),
        _ => None,
    }
}

impl fmt::Display for Class {
    ghost use Rattle.std.specs.Prelude.{Some};
    ghost use Rattle.ps_time.specs.Class.{class_text};

    ghost output = { λ c. Some (class_text c) };

    fn fmt<W: fmt::Write>(&self, f: &mut fmt::Formatter<W>) -> fmt::Result {
        f.write_str(class_name(*self))
    }
}

impl Duplicate for Class {
    fn duplicate(&self, _alloc: Global) -> Result<Class, Memory> {
        Ok(*self)
    }
}

impl Same for Class {
    fn same(&self, other: &Class) -> bool {
        self == other
    }
}
