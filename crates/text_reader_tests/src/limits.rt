//! Addresses and blocks, identifiers and classifiers.
use crate::trees::tell_shown;
use limit_ident::address::{Address, read_address, read_block};
use limit_ident::classifier::{Classifier, Classifiers};
use limit_ident::fault::LimitFault;
use limit_ident::identifier::{Identifier, Identifiers};
use limit_ident::known_asker::KnownAsker;
use limit_ident::named::Entries;
use limit_ident::read_classifiers::read_classifiers;
use limit_ident::read_identifiers::read_identifiers;
use ps_json::tree::read_tree;
use ps_time::asker::Asker;
use ps_time::memory::Memory;
use ps_time::text::Text;
use std::alloc::Global;
use std::{io, print, println};

pub(crate) fn tell_address(rt: &HostRuntime, text: &str) -> io::Result<()> {
    match read_address(text) {
        Some(Address::V4(number)) => println!(rt; "V4({number})"),
        Some(Address::V6(number)) => println!(rt; "V6({number})"),
        None => println!(rt; "none"),
    }
}

fn place(block: &str, address: &str) -> &'static str {
    let Some(block) = read_block(block) else {
        return "none";
    };
    match read_address(address) {
        Some(address) if block.contains(address) => "in",
        _ => "out",
    }
}

/// An address and, behind ` in `, a block.
pub(crate) fn tell_block(rt: &HostRuntime, text: &str) -> io::Result<()> {
    match text.split_once(" in ") {
        Some((address, block)) => println!(rt; "{}", place(block, address)),
        None => println!(rt; "no block"),
    }
}

fn identifiers_of(alloc: Global, text: &str) -> Result<Entries<Identifier>, LimitFault> {
    read_identifiers(alloc, read_tree(alloc, text.as_bytes())?)
}

fn classifiers_of(
    alloc: Global,
    identifiers: &Entries<Identifier>,
    text: &str,
) -> Result<Entries<Classifier>, LimitFault> {
    read_classifiers(alloc, read_tree(alloc, text.as_bytes())?, identifiers)
}

fn tell_classifiers(
    rt: &HostRuntime,
    identifiers: &Entries<Identifier>,
    text: &str,
) -> io::Result<()> {
    match classifiers_of(rt.alloc(), identifiers, text) {
        Ok(_) => println!(rt; "none"),
        Err(fault) => tell_shown(rt, fault),
    }
}

/// Identifiers and, behind ` & `, classifiers: what is wrong with them.
pub(crate) fn tell_limits(rt: &HostRuntime, text: &str) -> io::Result<()> {
    let (identifiers, classifiers) = text.split_once(" & ").unwrap_or((text, ""));
    match identifiers_of(rt.alloc(), identifiers) {
        Ok(identifiers) => tell_classifiers(rt, &identifiers, classifiers),
        Err(fault) => tell_shown(rt, fault),
    }
}

const IDENTIFIERS: &str =
    "[{\"name\":\"all\",\"type\":\"always\",\"data\":{\"#\":1}},{\"name\":\"nobody\",\"type\":\"always\",\"invert\":true},{\"name\":\"lead\",\"type\":\"hint\",\"data\":{\"hint\":\"server\",\"match\":{\"style\":\"exact\",\"match\":\"a.b\"}}},{\"name\":\"here\",\"type\":\"hint\",\"data\":{\"hint\":\"requester\",\"match\":{\"style\":\"contains\",\"match\":\".0.\"}}},{\"name\":\"net\",\"type\":\"ip-cidr-list\",\"data\":{\"cidrs\":[\"127.0.0.0/8\",\"::1\"]}}]";

const CLASSIFIERS: &str =
    "[{\"name\":\"default\",\"identifiers\":[\"lead\",\"here\",\"net\"]},{\"name\":\"every\",\"identifiers\":[\"lead\",\"here\",\"net\"],\"require\":\"all\"},{\"name\":\"one\",\"identifiers\":[\"lead\",\"here\",\"net\"],\"require\":\"one\"},{\"name\":\"none\",\"identifiers\":[\"lead\",\"here\",\"net\"],\"require\":\"none\"}]";

fn letter(answer: bool) -> &'static str {
    if answer { "y" } else { "n" }
}

fn tell_identified(
    rt: &HostRuntime,
    identifiers: &Identifiers,
    asker: &KnownAsker,
) -> io::Result<()> {
    for index in 0..identifiers.len() {
        print!(rt; "{}", letter(identifiers.identifies(index, asker)))?;
    }
    print!(rt; " ")
}

fn tell_classified(
    rt: &HostRuntime,
    identifiers: &Identifiers,
    classifiers: &Classifiers,
    asker: &KnownAsker,
) -> io::Result<()> {
    for index in 0..classifiers.len() {
        print!(rt; "{}", letter(classifiers.holds(index, identifiers, asker)))?;
    }
    println!(rt; "")
}

fn tell_asker_of(
    rt: &HostRuntime,
    identifiers: &Identifiers,
    classifiers: &Classifiers,
    asker: &Asker,
) -> io::Result<()> {
    let asker = KnownAsker::new(asker);
    tell_identified(rt, identifiers, &asker)?;
    tell_classified(rt, identifiers, classifiers, &asker)
}

fn asker_of(alloc: Global, text: &str) -> Result<Asker, Memory> {
    let (requester, server) = text.split_once(' ').unwrap_or((text, ""));
    let requester = Text::new(alloc, requester)?;
    let server = Text::new(alloc, server)?;
    Ok(Asker { requester, server })
}

fn tell_by(
    rt: &HostRuntime,
    identifiers: &Identifiers,
    classifiers: &Classifiers,
    text: &str,
) -> io::Result<()> {
    match asker_of(rt.alloc(), text) {
        Ok(asker) => tell_asker_of(rt, identifiers, classifiers, &asker),
        Err(Memory) => println!(rt; "out of memory"),
    }
}

fn tell_by_copies(
    rt: &HostRuntime,
    identifiers: &Identifiers,
    classifiers: &Classifiers,
    text: &str,
) -> io::Result<()> {
    match classifiers.copy(rt.alloc()) {
        Ok(classifiers) => tell_by(rt, identifiers, &classifiers, text),
        Err(_) => println!(rt; "out of memory"),
    }
}

fn tell_copied(
    rt: &HostRuntime,
    identifiers: &Identifiers,
    classifiers: &Classifiers,
    text: &str,
) -> io::Result<()> {
    match identifiers.copy(rt.alloc()) {
        Ok(identifiers) => tell_by_copies(rt, &identifiers, classifiers, text),
        Err(_) => println!(rt; "out of memory"),
    }
}

fn tell_read(rt: &HostRuntime, identifiers: Entries<Identifier>, text: &str) -> io::Result<()> {
    match classifiers_of(rt.alloc(), &identifiers, CLASSIFIERS) {
        Ok(classifiers) => {
            let classifiers = Classifiers::from_entries(classifiers);
            tell_copied(
                rt,
                &Identifiers::from_entries(identifiers),
                &classifiers,
                text,
            )
        }
        Err(fault) => tell_shown(rt, fault),
    }
}

/// Who asks, by address and server: which of the identifiers above are true, and which of the classifiers hold. Both are
/// copies.
pub(crate) fn tell_asker(rt: &HostRuntime, text: &str) -> io::Result<()> {
    match identifiers_of(rt.alloc(), IDENTIFIERS) {
        Ok(identifiers) => tell_read(rt, identifiers, text),
        Err(fault) => tell_shown(rt, fault),
    }
}
