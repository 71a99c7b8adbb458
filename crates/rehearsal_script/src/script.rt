//! Scripts as they were read, and why a script is refused.
ghost use Rattle.std.specs.Prelude.{◌≡◌};

use limit_apply::limits::Limits;
use ps_disks::image::Image;
use ps_time::boxed::Boxed;
use ps_time::class::Class;
use ps_time::items::Items;
use ps_time::moment::{Length, Moment};
use ps_time::text::Text;
use std::error::Error;
use std::fmt;

/// The most hosts that a script may declare.
pub const MAX_HOSTS: usize = 16;

/// A host that a script declares.
#[derive(Drop)]
pub struct ScriptHost {
    pub name: Text,
    /// From 1 to 65535.
    pub number: u16,
}

/// Where a crash stops a step, and what it leaves of the disks.
#[derive(Clone, Copy)]
pub struct Stop {
    /// At which of the writes, cuts and syncs that the step makes, counted from 1 over both disks; after the last where it makes
    /// fewer, and before them all for 0.
    pub call: u64,
    pub image: Image,
}

/// What happens at one line of a script. A host is told by its place among the script's hosts, a message by
/// its number, which may be of none.
pub enum ScriptLine {
    /// `host NAME NUMBER`: a host is declared.
    Host {
        place: usize,
    },
    /// `tools NAME T,T`: from now on the host has these tools, one or more, known and different.
    Tools {
        host: usize,
        tools: Items<Text>,
    },
    /// `limits NAME JSON`: from now on the host has these limits.
    Limits {
        host: usize,
        limits: Boxed<Limits>,
    },
    /// `T NAME book CLASS PRIORITY START LENGTH`: a run is booked on a host.
    Book {
        at: Moment,
        host: usize,
        class: Class,
        /// From -1000 to 1000.
        priority: i16,
        start: Moment,
        /// In seconds, at least 1.
        length: Length,
    },
    /// `T NAME post ADDRESS JSON`: a task is posted to a host.
    Post {
        at: Moment,
        host: usize,
        /// Whence it comes, at most 255 bytes; it may be no address at all.
        address: Text,
        /// What is posted, which may be no JSON at all.
        body: Text,
    },
    /// `T NAME get PATH`: a host is asked for what stands at a path.
    Get {
        at: Moment,
        host: usize,
        path: Text,
    },
    /// `T NAME delete ADDRESS PATH`: a host is asked to cancel what stands at a path.
    Delete {
        at: Moment,
        host: usize,
        /// As that of a post.
        address: Text,
        path: Text,
    },
    /// `T NAME turn`: a host takes its turn.
    Turn {
        at: Moment,
        host: usize,
    },
    /// `T NAME archive`: a host makes the first attempt at an archive that is due.
    Archive {
        at: Moment,
        host: usize,
    },
    /// `T NAME crash K IMAGE`: the host's next step stops there, and the host is opened again.
    Crash {
        at: Moment,
        host: usize,
        stop: Stop,
    },
    /// `T NAME fail K`: of each of the host's disks, the K-th write, cut or sync from now on is to fail; none for 0. The first
    /// fault disarms both.
    Fail {
        at: Moment,
        host: usize,
        call: u64,
    },
    /// `T deliver N`: a message comes.
    Deliver {
        at: Moment,
        message: u64,
    },
    /// `T repeat N`: a message that came comes again.
    Repeat {
        at: Moment,
        message: u64,
    },
    /// `lose N`: a message is lost.
    Lose {
        message: u64,
    },
}

// Written out, so that a drop elsewhere is one call, and not a case for each kind.
impl Drop for ScriptLine {
    fn drop(self) {
        match self {
            ScriptLine::Host { place: _ } => {}
            ScriptLine::Tools { host: _, tools: _ } => {}
            ScriptLine::Limits { host: _, limits: _ } => {}
            ScriptLine::Book {
                at: _,
                host: _,
                class: _,
                priority: _,
                start: _,
                length: _,
            } => {}
            ScriptLine::Post {
                at: _,
                host: _,
                address: _,
                body: _,
            } => {}
            ScriptLine::Get {
                at: _,
                host: _,
                path: _,
            } => {}
            ScriptLine::Delete {
                at: _,
                host: _,
                address: _,
                path: _,
            } => {}
            ScriptLine::Turn { at: _, host: _ } => {}
            ScriptLine::Archive { at: _, host: _ } => {}
            ScriptLine::Crash {
                at: _,
                host: _,
                stop: _,
            } => {}
            ScriptLine::Fail {
                at: _,
                host: _,
                call: _,
            } => {}
            ScriptLine::Deliver { at: _, message: _ } => {}
            ScriptLine::Repeat { at: _, message: _ } => {}
            ScriptLine::Lose { message: _ } => {}
        }
    }
}

impl ScriptLine {
    ghost use Rattle.rehearsal_script.specs.Told.{moment_told};

    /// When it happens, where the line tells that.
    pub fn moment(&self) -> Option<Moment>
        ensures { result ≡ moment_told self.now }
    {
        match self {
            ScriptLine::Host { .. }
            | ScriptLine::Tools { .. }
            | ScriptLine::Limits { .. }
            | ScriptLine::Lose { .. } => None,
            ScriptLine::Book { at, .. } => Some(*at),
            ScriptLine::Post { at, .. } => Some(*at),
            ScriptLine::Get { at, .. } => Some(*at),
            ScriptLine::Delete { at, .. } => Some(*at),
            ScriptLine::Turn { at, .. } => Some(*at),
            ScriptLine::Archive { at, .. } => Some(*at),
            ScriptLine::Crash { at, .. } => Some(*at),
            ScriptLine::Fail { at, .. } => Some(*at),
            ScriptLine::Deliver { at, .. } => Some(*at),
            ScriptLine::Repeat { at, .. } => Some(*at),
        }
    }
}

/// A line with its number. Numbers begin at 1 and count every line, the skipped ones too.
#[derive(Drop)]
pub struct Numbered {
    pub number: u64,
    pub line: ScriptLine,
}

/// A script: the hosts in the order of their declaration, and the lines that aren't skipped.
#[derive(Drop)]
pub struct Script {
    pub hosts: Items<ScriptHost>,
    pub lines: Items<Numbered>,
}

/// Why a line is refused. Where several reasons apply, the first of this list is told.
#[derive(Clone, Copy, Debug)]
pub enum Reason {
    NotUtf8,
    UnknownWord,
    WrongNumberOfFields,
    BadNumber,
    BadName,
    NoSuchHost,
    RepeatedHost,
    TooManyHosts,
    BadClass,
    BadTool,
    BadLimits,
    BadImage,
}

impl fmt::Display for Reason {
    ghost use Rattle.std.specs.Prelude.{Some};
    ghost use Rattle.rehearsal_script.specs.Refusal.{reason_text};

    ghost output = { λ reason. Some (reason_text reason) };

    fn fmt<W: fmt::Write>(&self, f: &mut fmt::Formatter<W>) -> fmt::Result {
        f.write_str(match self {
            Reason::NotUtf8 => "not utf-8",
            Reason::UnknownWord => "unknown word",
            Reason::WrongNumberOfFields => "wrong number of fields",
            Reason::BadNumber => "bad number",
            Reason::BadName => "bad name",
            Reason::NoSuchHost => "no such host",
            Reason::RepeatedHost => "repeated host",
            Reason::TooManyHosts => "too many hosts",
            Reason::BadClass => "bad class",
            Reason::BadTool => "bad tool",
            Reason::BadLimits => "bad limits",
            Reason::BadImage => "bad image",
        })
    }
}

/// Why a script isn't read.
#[derive(Clone, Copy, Debug)]
pub enum ScriptFault {
    /// The number of the first line that is refused, and why.
    Refused { line: u64, reason: Reason },
    Memory,
}

impl fmt::Display for ScriptFault {
    ghost use Rattle.std.specs.Prelude.{Some};
    ghost use Rattle.rehearsal_script.specs.Refusal.{fault_text};

    ghost output = { λ fault. Some (fault_text fault) };

    fn fmt<W: fmt::Write>(&self, f: &mut fmt::Formatter<W>) -> fmt::Result {
        match self {
            ScriptFault::Refused { line, reason } => write!(f, "line {line}: {reason}"),
            ScriptFault::Memory => f.write_str("out of memory"),
        }
    }
}

impl Error for ScriptFault {}
