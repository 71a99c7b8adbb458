//! What the lowest crates read: texts of times, JSON, addresses, identifiers and classifiers. Standard input has a line for each
//! case: a word that says as what the rest of the line is read, a blank, and the text. For each the program writes a line:
//! what was read, as it is written again, or why it is refused. A line that begins with `#` is written as it is. The status is
//! 1 where standard input or output fails.
#![tactic(auto)]

mod limits;
mod reader;
mod times;
mod trees;

use crate::reader::{Reader, reader_of};
use ps_json::fault::JsonFault;
use ps_json::fields::is_comment;
use ps_time::memory::Memory;
use ps_time::moment::Round;
use ps_time::name::is_host_name;
use ps_time::read_length::read_length;
use ps_time::read_moment::read_moment;
use std::{io, println};

fn tell_time_of(rt: &HostRuntime, reader: Reader, text: &str) -> io::Result<()> {
    match reader {
        Reader::Up => times::tell_time(rt, read_moment(text, Round::Up)),
        Reader::Down => times::tell_time(rt, read_moment(text, Round::Down)),
        Reader::Length => times::tell_time(rt, read_length(text)),
        Reader::Start => times::tell_start(rt, text),
        Reader::MomentText => times::tell_moment(rt, text),
        Reader::DayText => times::tell_day(rt, text),
        Reader::LengthText => times::tell_length(rt, text),
        Reader::Host => println!(rt; "{}", is_host_name(text)),
        Reader::Decimal => times::tell_decimal(rt, text),
        Reader::Class => times::tell_class(rt, text),
        Reader::Id => times::tell_id(rt, text),
        _ => tell_tree_of(rt, reader, text),
    }
}

fn tell_tree_of(rt: &HostRuntime, reader: Reader, text: &str) -> io::Result<()> {
    match reader {
        Reader::Json => trees::tell_tree(rt, text.as_bytes()),
        Reader::Bytes => trees::tell_bytes(rt, text),
        Reader::End => trees::tell_end_of(rt, text),
        Reader::Members => trees::tell_members_of(rt, text),
        Reader::Kept => trees::tell_kept(rt, text),
        Reader::Taken => trees::tell_taken_of(rt, text),
        Reader::Levels => trees::tell_levels(rt, text),
        Reader::Comment => println!(rt; "{}", is_comment(text)),
        Reader::Memory => trees::tell_shown(rt, JsonFault::from(Memory)),
        Reader::Count | Reader::Integer | Reader::Text | Reader::Boolean | Reader::List => {
            trees::tell_kind_of(rt, reader, text)
        }
        _ => tell_limit_of(rt, reader, text),
    }
}

fn tell_limit_of(rt: &HostRuntime, reader: Reader, text: &str) -> io::Result<()> {
    match reader {
        Reader::Address => limits::tell_address(rt, text),
        Reader::Block => limits::tell_block(rt, text),
        Reader::Limits => limits::tell_limits(rt, text),
        Reader::Asker => limits::tell_asker(rt, text),
        _ => println!(rt; "no such word"),
    }
}

fn tell(rt: &HostRuntime, line: &str) -> io::Result<()> {
    let (word, text) = line.split_once(' ').unwrap_or((line, ""));
    match reader_of(word) {
        Reader::Heading => println!(rt; "{line}"),
        reader => tell_time_of(rt, reader, text),
    }
}

fn main(rt: HostRuntime) -> io::Result<()> {
    for line in rt.lines(rt.alloc()) {
        let line = line?;
        tell(&rt, line.as_str())?;
    }
    Ok(())
}
