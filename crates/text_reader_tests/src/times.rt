//! Times and numbers, and how they are written.

use crate::reader::after_number;
use ps_time::class::{Class, class_name, classes_conflict, read_class};
use ps_time::id::{Id, id_text, key_uuid, read_id, uuid_key};
use ps_time::length_text::length_text;
use ps_time::memory::Memory;
use ps_time::moment::{MAX_LENGTH, MAX_MOMENT, TimeFault};
use ps_time::moment_text::{day_text, moment_text};
use ps_time::number::read_decimal;
use ps_time::read_start::read_start;
use ps_time::text::Text;
use std::{io, print, println};

pub(crate) fn tell_time(rt: &HostRuntime, found: Result<u64, TimeFault>) -> io::Result<()> {
    match found {
        Ok(seconds) => println!(rt; "{seconds}"),
        Err(fault) => println!(rt; "{fault:?}"),
    }
}

/// A moment, a blank, and a text that is read as a start from then on.
pub(crate) fn tell_start(rt: &HostRuntime, text: &str) -> io::Result<()> {
    match after_number(text) {
        (Some(now), text) if now <= MAX_MOMENT => tell_time(rt, read_start(text, now)),
        _ => println!(rt; "no moment"),
    }
}

pub(crate) fn tell_text(rt: &HostRuntime, text: Result<Text, Memory>) -> io::Result<()> {
    match text {
        Ok(text) => println!(rt; "{text}"),
        Err(Memory) => println!(rt; "out of memory"),
    }
}

pub(crate) fn tell_moment(rt: &HostRuntime, text: &str) -> io::Result<()> {
    match text.parse::<u64>() {
        Ok(moment) if moment <= MAX_MOMENT => tell_text(rt, moment_text(rt.alloc(), moment)),
        _ => println!(rt; "no moment"),
    }
}

pub(crate) fn tell_day(rt: &HostRuntime, text: &str) -> io::Result<()> {
    match text.parse::<u64>() {
        Ok(moment) if moment <= MAX_MOMENT => tell_text(rt, day_text(rt.alloc(), moment)),
        _ => println!(rt; "no moment"),
    }
}

pub(crate) fn tell_length(rt: &HostRuntime, text: &str) -> io::Result<()> {
    match text.parse::<u64>() {
        Ok(length) if length <= MAX_LENGTH => tell_text(rt, length_text(rt.alloc(), length)),
        _ => println!(rt; "no length"),
    }
}

fn decimal(least: u64, most: u64, text: &str) -> Option<u64> {
    if least == 0 || most > 19 {
        return None;
    }
    read_decimal(text, least as usize, most as usize)
}

/// The least and the most digits, and a text.
pub(crate) fn tell_decimal(rt: &HostRuntime, text: &str) -> io::Result<()> {
    let (least, rest) = after_number(text);
    let (most, text) = after_number(rest);
    match decimal(least.unwrap_or(0), most.unwrap_or(0), text) {
        Some(number) => println!(rt; "{number}"),
        None => println!(rt; "none"),
    }
}

static CLASSES: [Class; 4] = [
    Class::BackgroundMulti,
    Class::Background,
    Class::Normal,
    Class::Exclusive,
];

// The name of a class, and for each of these one letter: `y` for those that conflict with it.
fn tell_conflicts(rt: &HostRuntime, class: Class, others: &[Class]) -> io::Result<()> {
    print!(rt; "{} ", class_name(class))?;
    for other in others {
        let letter = if classes_conflict(class, *other) {
            "y"
        } else {
            "n"
        };
        print!(rt; "{letter}")?;
    }
    println!(rt; "")
}

pub(crate) fn tell_class(rt: &HostRuntime, text: &str) -> io::Result<()> {
    match read_class(text) {
        Some(class) => tell_conflicts(rt, class, &CLASSES),
        None => println!(rt; "none"),
    }
}

fn is_kept_as_number(id: Id) -> bool {
    match uuid_key(key_uuid(id)) {
        Some(other) => other == id,
        None => false,
    }
}

fn tell_fields(rt: &HostRuntime, id: Id) -> io::Result<()> {
    match id {
        Id::Task { lead, task } => print!(rt; "task {lead} {task} "),
        Id::Run(key) => {
            let number = key.number;
            print!(rt; "run {} {} {number} {} ", key.lead, key.task, key.attempt)
        }
    }
}

/// What an identifier names, and its text.
pub(crate) fn tell_id(rt: &HostRuntime, text: &str) -> io::Result<()> {
    match read_id(text) {
        Some(id) if is_kept_as_number(id) => {
            tell_fields(rt, id)?;
            tell_text(rt, id_text(rt.alloc(), id))
        }
        Some(_) => println!(rt; "another number"),
        None => println!(rt; "none"),
    }
}
