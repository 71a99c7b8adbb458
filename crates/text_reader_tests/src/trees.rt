//! Trees of JSON, their members and values.
ghost use Rattle.serde_json.specs.View.{view};
ghost use Rattle.ps_json.specs.Tree.{IsWhole};

use crate::reader::{Reader, after_number};
use crate::times::tell_text;
use ps_json::fault::JsonFault;
use ps_json::fields::Fields;
use ps_json::kept::{is_tree_text, read_kept};
use ps_json::kinds::{read_boolean, read_count, read_integer, read_list, read_text};
use ps_json::shape::{is_deeper, is_whole};
use ps_json::tree::{read_tree, write_tree};
use ps_time::memory::Memory;
use ps_time::text::Text;
use serde_json::Value;
use std::alloc::Global;
use std::fmt::Display;
use std::{io, print, println};

/// Writes a line, and lets go what it shows: a call, where the drop of a fault would be a case for each variant.
pub(crate) fn tell_shown<T: Display + Drop>(rt: &HostRuntime, shown: T) -> io::Result<()> {
    println!(rt; "{shown}")
}

fn tell_answer<T: Display + Drop>(
    rt: &HostRuntime,
    answer: Result<T, JsonFault>,
) -> io::Result<()> {
    match answer {
        Ok(value) => tell_shown(rt, value),
        Err(fault) => tell_shown(rt, fault),
    }
}

// What is shown between others on a line.
fn print_part<T: Display + Drop>(rt: &HostRuntime, shown: T) -> io::Result<()> {
    print!(rt; "{shown}; ")
}

fn print_answer<T: Display + Drop>(
    rt: &HostRuntime,
    answer: Result<T, JsonFault>,
) -> io::Result<()> {
    match answer {
        Ok(value) => print_part(rt, value),
        Err(fault) => print_part(rt, fault),
    }
}

fn print_shown<T: Display + Drop>(rt: &HostRuntime, shown: T) -> io::Result<()> {
    print!(rt; "{shown} ")
}

fn print_member<T: Display + Drop>(
    rt: &HostRuntime,
    name: &str,
    answer: Result<T, JsonFault>,
) -> io::Result<()> {
    print!(rt; "{name}")?;
    match answer {
        Ok(value) => {
            print!(rt; "=")?;
            print_shown(rt, value)
        }
        Err(fault) => {
            print!(rt; ": ")?;
            print_shown(rt, fault)
        }
    }
}

fn written(alloc: Global, value: &Value) -> Result<Text, Memory>
    requires { IsWhole (view value.now) }
{
    match String::from_utf8(write_tree(alloc, value)?) {
        Ok(text) => Ok(Text::from_string(text)),
        Err(_) => Text::new(alloc, "no utf-8"),
    }
}

fn tell_value(rt: &HostRuntime, value: &Value) -> io::Result<()> {
    if is_whole(value) {
        tell_text(rt, written(rt.alloc(), value))
    } else {
        println!(rt; "not whole")
    }
}

pub(crate) fn tell_tree(rt: &HostRuntime, bytes: &[u8]) -> io::Result<()> {
    match read_tree(rt.alloc(), bytes) {
        Ok(value) => tell_value(rt, &value),
        Err(fault) => tell_shown(rt, fault),
    }
}

fn digit(letter: u8) -> u8 {
    match letter {
        b'0'..=b'9' => letter - b'0',
        b'a'..=b'f' => letter - b'a' + 10,
        _ => 0,
    }
}

// The bytes of so many pairs of hexadecimal digits.
fn bytes_of(alloc: Global, digits: &[u8]) -> Result<Vec<u8>, Memory> {
    let mut bytes = Vec::new(alloc);
    for pair in digits.chunks_exact(2) {
        if let [high, low] = pair {
            bytes.push(digit(*high).wrapping_mul(16).wrapping_add(digit(*low)))?;
        }
    }
    Ok(bytes)
}

/// A text of JSON by its bytes.
pub(crate) fn tell_bytes(rt: &HostRuntime, digits: &str) -> io::Result<()> {
    match bytes_of(rt.alloc(), digits.as_bytes()) {
        Ok(bytes) => tell_tree(rt, bytes.as_slice()),
        Err(Memory) => println!(rt; "out of memory"),
    }
}

fn opened(alloc: Global, text: &str) -> Result<Fields, JsonFault> {
    Fields::open(alloc, read_tree(alloc, text.as_bytes())?, "whole")
}

fn tell_end(rt: &HostRuntime, fields: Fields) -> io::Result<()> {
    match fields.end(rt.alloc()) {
        Ok(()) => println!(rt; "end"),
        Err(fault) => tell_shown(rt, fault),
    }
}

/// What the end of an object's members tells, where none was taken.
pub(crate) fn tell_end_of(rt: &HostRuntime, text: &str) -> io::Result<()> {
    match opened(rt.alloc(), text) {
        Ok(fields) => tell_end(rt, fields),
        Err(fault) => tell_shown(rt, fault),
    }
}

fn tell_member(rt: &HostRuntime, name: &str, value: Value) -> io::Result<()> {
    print_member(rt, name, read_count(rt.alloc(), value, "n", 0, 9))
}

fn tell_next(rt: &HostRuntime, fields: &mut Fields) -> Option<io::Result<()>> {
    let (name, value) = fields.next()?;
    Some(tell_member(rt, name.as_str(), value))
}

fn tell_members(rt: &HostRuntime, fields: &mut Fields) -> io::Result<()> {
    for _member in 0..9 {
        match tell_next(rt, fields) {
            None => return Ok(()),
            Some(told) => told?,
        }
    }
    Ok(())
}

/// The members of an object, one after another.
pub(crate) fn tell_members_of(rt: &HostRuntime, text: &str) -> io::Result<()> {
    match opened(rt.alloc(), text) {
        Ok(mut fields) => match tell_members(rt, &mut fields) {
            Ok(()) => tell_end(rt, fields),
            Err(fault) => Err(fault),
        },
        Err(fault) => tell_shown(rt, fault),
    }
}

fn tell_count(rt: &HostRuntime, name: &str, value: Value) -> io::Result<()> {
    print_answer(rt, read_count(rt.alloc(), value, name, 0, 9))
}

fn tell_needed(rt: &HostRuntime, fields: &mut Fields, name: &str) -> io::Result<()> {
    match fields.need(rt.alloc(), name) {
        Ok(value) => tell_count(rt, name, value),
        Err(fault) => print_part(rt, fault),
    }
}

fn tell_taken(rt: &HostRuntime, fields: &mut Fields, name: &str) -> io::Result<()> {
    match fields.take(name) {
        Some(value) => tell_count(rt, name, value),
        None => print!(rt; "none; "),
    }
}

fn tell_named(rt: &HostRuntime, fields: &mut Fields, names: &str) -> io::Result<()> {
    for name in names.split(' ') {
        match name.strip_suffix('?') {
            Some(name) => tell_taken(rt, fields, name)?,
            None => tell_needed(rt, fields, name)?,
        }
    }
    Ok(())
}

/// Names and, behind ` & `, an object: what is there when each of them is needed in turn, or taken where `?` stands behind it.
pub(crate) fn tell_taken_of(rt: &HostRuntime, text: &str) -> io::Result<()> {
    let (names, text) = text.split_once(" & ").unwrap_or(("", text));
    match opened(rt.alloc(), text) {
        Ok(mut fields) => match tell_named(rt, &mut fields, names) {
            Ok(()) => tell_end(rt, fields),
            Err(fault) => Err(fault),
        },
        Err(fault) => tell_shown(rt, fault),
    }
}

fn levels(value: &Value) -> usize {
    for most in 0..64 {
        if !is_deeper(value, most) {
            return most;
        }
    }
    64
}

/// How many levels a tree has.
pub(crate) fn tell_levels(rt: &HostRuntime, text: &str) -> io::Result<()> {
    match read_tree(rt.alloc(), text.as_bytes()) {
        Ok(value) => println!(rt; "{}", levels(&value)),
        Err(fault) => tell_shown(rt, fault),
    }
}

fn kept(alloc: Global, text: &str, most: usize) -> Result<Option<Value>, Memory> {
    if most > 64 || !is_tree_text(alloc, text, most)? {
        return Ok(None);
    }
    let text = Text::new(alloc, text)?;
    Ok(Some(read_kept(alloc, &text)?))
}

/// The most levels that are taken, and a text that may be kept.
pub(crate) fn tell_kept(rt: &HostRuntime, text: &str) -> io::Result<()> {
    let (most, text) = after_number(text);
    match kept(rt.alloc(), text, most.unwrap_or(99) as usize) {
        Ok(Some(value)) => tell_value(rt, &value),
        Ok(None) => println!(rt; "not kept"),
        Err(Memory) => println!(rt; "out of memory"),
    }
}

// A count from 1 to 1000, an integer from -5 to 5, a text, a boolean, or of a list its length.
fn tell_kind(rt: &HostRuntime, reader: Reader, value: Value) -> io::Result<()> {
    let alloc = rt.alloc();
    match reader {
        Reader::Count => tell_answer(rt, read_count(alloc, value, "n", 1, 1000)),
        Reader::Integer => tell_answer(rt, read_integer(alloc, value, "n", -5, 5)),
        Reader::Text => tell_answer(rt, read_text(alloc, value, "n")),
        Reader::Boolean => tell_answer(rt, read_boolean(alloc, value, "n")),
        _ => tell_answer(rt, read_list(alloc, value, "n").map(|items| items.len())),
    }
}

pub(crate) fn tell_kind_of(rt: &HostRuntime, reader: Reader, text: &str) -> io::Result<()> {
    match read_tree(rt.alloc(), text.as_bytes()) {
        Ok(value) => tell_kind(rt, reader, value),
        Err(fault) => tell_shown(rt, fault),
    }
}
