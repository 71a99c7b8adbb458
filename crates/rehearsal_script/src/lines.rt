//! The lines of each kind. Where memory may run out it is the outer error, and a reason the inner one.
ghost use Rattle.std.specs.Prelude.{◌≡◌, ◌≤◌, IfOk, drop, length};
ghost use Rattle.rehearsal_script.specs.Line.{host_line, tools_line, limits_line, book_line, post_line, get_line, delete_line, turn_line, archive_line, crash_line, fail_line, deliver_line, repeat_line, lose_line, line_by_kind, limits_of};

use crate::fields::Fields;
use crate::hosts::{is_used, read_asked, read_name, read_place};
use crate::kind::Kind;
use crate::script::{MAX_HOSTS, Reason, ScriptHost, ScriptLine, Stop};
use crate::tools::read_tools;
use crate::words::{read_image, read_moment, read_number, read_numeral, read_priority};
use limit_apply::limits::Limits;
use limit_ident::fault::LimitFault;
use ps_time::boxed::Boxed;
use ps_time::class::read_class;
use ps_time::memory::Memory;
use ps_time::moment::{MAX_LENGTH, MAX_MOMENT};
use ps_time::name::is_host_name;
use ps_time::text::Text;
use std::alloc::Global;

/// What was read, or the reason for a refusal; memory may run out in place of either.
pub type Read<T> = Result<Result<T, Reason>, Memory>;

/// What a line says.
#[derive(Drop)]
pub enum Content {
    /// The line is skipped.
    Nothing,
    NewHost(ScriptHost),
    Event(ScriptLine),
}

fn read_host_line(alloc: Global, hosts: &[ScriptHost], fields: &Fields<'_>) -> Read<Content>
    ensures { IfOk result (λ r. r ≡ host_line hosts.now fields.now) }
{
    if fields.len() != 3 {
        return Ok(Err(Reason::WrongNumberOfFields));
    }
    let name = fields.at(1);
    let Some(number) = read_number(fields.at(2), 1, 65535) else {
        return Ok(Err(Reason::BadNumber));
    };
    if !is_host_name(name) {
        return Ok(Err(Reason::BadName));
    }
    if is_used(hosts, name, number) {
        return Ok(Err(Reason::RepeatedHost));
    }
    if hosts.len() >= MAX_HOSTS {
        return Ok(Err(Reason::TooManyHosts));
    }
    let name = Text::new(alloc, name)?;
    let number = number as u16;
    Ok(Ok(Content::NewHost(ScriptHost { name, number })))
}

fn read_tools_line(alloc: Global, hosts: &[ScriptHost], fields: &Fields<'_>) -> Read<Content>
    ensures { IfOk result (λ r. r ≡ tools_line hosts.now fields.now) }
{
    if fields.len() != 3 {
        return Ok(Err(Reason::WrongNumberOfFields));
    }
    let host = match read_name(hosts, fields.at(1)) {
        Ok(host) => host,
        Err(reason) => return Ok(Err(reason)),
    };
    let Some(tools) = read_tools(alloc, fields.at(2))? else {
        return Ok(Err(Reason::BadTool));
    };
    Ok(Ok(Content::Event(ScriptLine::Tools { host, tools })))
}

// The limits that a line's fields from the third on are.
#[tactic(auto, unfolding(crate::specs::Line::limits_of))]
fn read_limits(alloc: Global, fields: &Fields<'_>) -> Result<Option<Boxed<Limits>>, Memory>
    requires { 2 ≤ length fields.now }
    ensures { IfOk result (λ limits. limits ≡ limits_of (drop 2 fields.now)) }
{
    let text = fields.rest(alloc, 2)?;
    match Limits::from_text(alloc, text.as_str().as_bytes()) {
        Ok(limits) => Ok(Some(Boxed::new(alloc, limits)?)),
        Err(LimitFault::Memory) => Err(Memory),
        Err(_) => Ok(None),
    }
}

fn read_limits_line(alloc: Global, hosts: &[ScriptHost], fields: &Fields<'_>) -> Read<Content>
    ensures { IfOk result (λ r. r ≡ limits_line hosts.now fields.now) }
{
    if fields.len() < 3 {
        return Ok(Err(Reason::WrongNumberOfFields));
    }
    let host = match read_name(hosts, fields.at(1)) {
        Ok(host) => host,
        Err(reason) => return Ok(Err(reason)),
    };
    let Some(limits) = read_limits(alloc, fields)? else {
        return Ok(Err(Reason::BadLimits));
    };
    Ok(Ok(Content::Event(ScriptLine::Limits { host, limits })))
}

fn read_book_line(hosts: &[ScriptHost], fields: &Fields<'_>) -> Result<Content, Reason>
    ensures { result ≡ book_line hosts.now fields.now }
{
    if fields.len() != 7 {
        return Err(Reason::WrongNumberOfFields);
    }
    let at = read_moment(fields.at(0)).ok_or(Reason::BadNumber)?;
    let priority = read_priority(fields.at(4)).ok_or(Reason::BadNumber)?;
    let start = read_moment(fields.at(5)).ok_or(Reason::BadNumber)?;
    let length = read_number(fields.at(6), 1, MAX_LENGTH).ok_or(Reason::BadNumber)?;
    let host = read_name(hosts, fields.at(1))?;
    let class = read_class(fields.at(3)).ok_or(Reason::BadClass)?;
    Ok(Content::Event(ScriptLine::Book {
        at,
        host,
        class,
        priority,
        start,
        length,
    }))
}

fn read_post_line(alloc: Global, hosts: &[ScriptHost], fields: &Fields<'_>) -> Read<Content>
    ensures { IfOk result (λ r. r ≡ post_line hosts.now fields.now) }
{
    if fields.len() < 5 {
        return Ok(Err(Reason::WrongNumberOfFields));
    }
    let (at, host) = match read_asked(hosts, fields.at(0), fields.at(1), fields.at(3)) {
        Ok(place) => place,
        Err(reason) => return Ok(Err(reason)),
    };
    let address = Text::new(alloc, fields.at(3))?;
    let body = fields.rest(alloc, 4)?;
    Ok(Ok(Content::Event(ScriptLine::Post {
        at,
        host,
        address,
        body,
    })))
}

fn read_get_line(alloc: Global, hosts: &[ScriptHost], fields: &Fields<'_>) -> Read<Content>
    ensures { IfOk result (λ r. r ≡ get_line hosts.now fields.now) }
{
    if fields.len() != 4 {
        return Ok(Err(Reason::WrongNumberOfFields));
    }
    let (at, host) = match read_place(hosts, fields.at(0), fields.at(1)) {
        Ok(place) => place,
        Err(reason) => return Ok(Err(reason)),
    };
    let path = Text::new(alloc, fields.at(3))?;
    Ok(Ok(Content::Event(ScriptLine::Get { at, host, path })))
}

fn read_delete_line(alloc: Global, hosts: &[ScriptHost], fields: &Fields<'_>) -> Read<Content>
    ensures { IfOk result (λ r. r ≡ delete_line hosts.now fields.now) }
{
    if fields.len() != 5 {
        return Ok(Err(Reason::WrongNumberOfFields));
    }
    let (at, host) = match read_asked(hosts, fields.at(0), fields.at(1), fields.at(3)) {
        Ok(place) => place,
        Err(reason) => return Ok(Err(reason)),
    };
    let address = Text::new(alloc, fields.at(3))?;
    let path = Text::new(alloc, fields.at(4))?;
    Ok(Ok(Content::Event(ScriptLine::Delete {
        at,
        host,
        address,
        path,
    })))
}

fn read_turn_line(hosts: &[ScriptHost], fields: &Fields<'_>) -> Result<Content, Reason>
    ensures { result ≡ turn_line hosts.now fields.now }
{
    if fields.len() != 3 {
        return Err(Reason::WrongNumberOfFields);
    }
    let (at, host) = read_place(hosts, fields.at(0), fields.at(1))?;
    Ok(Content::Event(ScriptLine::Turn { at, host }))
}

fn read_archive_line(hosts: &[ScriptHost], fields: &Fields<'_>) -> Result<Content, Reason>
    ensures { result ≡ archive_line hosts.now fields.now }
{
    if fields.len() != 3 {
        return Err(Reason::WrongNumberOfFields);
    }
    let (at, host) = read_place(hosts, fields.at(0), fields.at(1))?;
    Ok(Content::Event(ScriptLine::Archive { at, host }))
}

fn read_crash_line(hosts: &[ScriptHost], fields: &Fields<'_>) -> Result<Content, Reason>
    ensures { result ≡ crash_line hosts.now fields.now }
{
    if fields.len() != 5 {
        return Err(Reason::WrongNumberOfFields);
    }
    let at = read_moment(fields.at(0)).ok_or(Reason::BadNumber)?;
    let call = read_numeral(fields.at(3)).ok_or(Reason::BadNumber)?;
    let host = read_name(hosts, fields.at(1))?;
    let image = read_image(fields.at(4)).ok_or(Reason::BadImage)?;
    let stop = Stop { call, image };
    Ok(Content::Event(ScriptLine::Crash { at, host, stop }))
}

fn read_fail_line(hosts: &[ScriptHost], fields: &Fields<'_>) -> Result<Content, Reason>
    ensures { result ≡ fail_line hosts.now fields.now }
{
    if fields.len() != 4 {
        return Err(Reason::WrongNumberOfFields);
    }
    let at = read_moment(fields.at(0)).ok_or(Reason::BadNumber)?;
    let call = read_numeral(fields.at(3)).ok_or(Reason::BadNumber)?;
    let host = read_name(hosts, fields.at(1))?;
    Ok(Content::Event(ScriptLine::Fail { at, host, call }))
}

fn read_deliver_line(fields: &Fields<'_>) -> Result<Content, Reason>
    ensures { result ≡ deliver_line fields.now }
{
    if fields.len() != 3 {
        return Err(Reason::WrongNumberOfFields);
    }
    let at = read_moment(fields.at(0)).ok_or(Reason::BadNumber)?;
    let message = read_numeral(fields.at(2)).ok_or(Reason::BadNumber)?;
    Ok(Content::Event(ScriptLine::Deliver { at, message }))
}

fn read_repeat_line(fields: &Fields<'_>) -> Result<Content, Reason>
    ensures { result ≡ repeat_line fields.now }
{
    if fields.len() != 3 {
        return Err(Reason::WrongNumberOfFields);
    }
    let at = read_moment(fields.at(0)).ok_or(Reason::BadNumber)?;
    let message = read_numeral(fields.at(2)).ok_or(Reason::BadNumber)?;
    Ok(Content::Event(ScriptLine::Repeat { at, message }))
}

fn read_lose_line(fields: &Fields<'_>) -> Result<Content, Reason>
    ensures { result ≡ lose_line fields.now }
{
    if fields.len() != 2 {
        return Err(Reason::WrongNumberOfFields);
    }
    let message = read_numeral(fields.at(1)).ok_or(Reason::BadNumber)?;
    Ok(Content::Event(ScriptLine::Lose { message }))
}

/// A line of a known kind.
#[tactic(auto, unfolding(crate::specs::Line::line_by_kind))]
pub fn read_by_kind(
    alloc: Global,
    hosts: &[ScriptHost],
    kind: Kind,
    fields: &Fields<'_>,
) -> Read<Content>
    ensures { IfOk result (λ r. r ≡ line_by_kind hosts.now kind fields.now) }
{
    match kind {
        Kind::Host => read_host_line(alloc, hosts, fields),
        Kind::Tools => read_tools_line(alloc, hosts, fields),
        Kind::Limits => read_limits_line(alloc, hosts, fields),
        Kind::Book => Ok(read_book_line(hosts, fields)),
        Kind::Post => read_post_line(alloc, hosts, fields),
        Kind::Get => read_get_line(alloc, hosts, fields),
        Kind::Delete => read_delete_line(alloc, hosts, fields),
        Kind::Turn => Ok(read_turn_line(hosts, fields)),
        Kind::Archive => Ok(read_archive_line(hosts, fields)),
        Kind::Crash => Ok(read_crash_line(hosts, fields)),
        Kind::Fail => Ok(read_fail_line(hosts, fields)),
        Kind::Deliver => Ok(read_deliver_line(fields)),
        Kind::Repeat => Ok(read_repeat_line(fields)),
        Kind::Lose => Ok(read_lose_line(fields)),
    }
}
