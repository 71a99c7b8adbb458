//! A reader of messages.
ghost use Rattle.std.specs.Prelude.{◌≡◌, ◌≤◌, ◌<◌, [], length, IfOk, IfSome, IfErr, IsErrOf, is_err, Ok, Err, None, true, false};
ghost use Rattle.std.specs.Borrow.{sem};
ghost use Rattle.std.specs.Io.KnownBytes.{prepend_known};
ghost use Rattle.ps_ports.specs.Causes.{Rose};
ghost use Rattle.ps_http.specs.Answer.{IsBegun, requests, responses, Refuses, RefusedInTime, TakesMessage, WasAtEnd, WasDue, WasEnough};
ghost use Rattle.ps_http.specs.Head.{IsHeaded, HeadFault};
ghost use Rattle.ps_http.specs.Lent.{LendsSource};

use crate::fault::HttpFault;
use crate::head::{Headed, response_head};
use crate::held::Held;
use crate::message::{HttpLimits, Request, Response};
use crate::next::{next_request, next_response};
use httparse::spans::{EMPTY_HEADER_SPAN, HeaderSpan};
use ps_ports::source::Source;
use ps_time::memory::Memory;
use std::alloc::Global;
use std::marker::Model;

/// A head of 16,384 bytes has fewer fields, since each has three bytes.
const FIELDS_ROOM: usize = 5_461;

/// Where the fields of a head lie: about 175,000 bytes, which are made once and lent to each call
/// that reads a head, of any reader.
#[derive(Drop)]
pub struct FieldSpans {
    spans: Vec<HeaderSpan>,
}

// Clauses see nothing of it, since each head is written over the last.
impl Model for FieldSpans {
    ghost use Rattle.std.specs.Prelude.{◌≡◌, ⊤, vec_len};

    ghost Value = { ⊤ };

    ghost view = { λ _. tt };

    ghost invariant = { λ f. vec_len f.spans ≡ 5461 };
}

impl FieldSpans {
    /// Room for the fields of the longest head, 5,461 of them.
    pub fn new(alloc: Global) -> Result<FieldSpans, Memory> {
        let spans = vec![in alloc; EMPTY_HEADER_SPAN; FIELDS_ROOM]?;
        Ok(FieldSpans { spans })
    }

    /// Reads the head of a response that is whole in memory.
    pub(crate) fn response_head(
        &mut self,
        alloc: Global,
        bytes: &[u8],
        limits: HttpLimits,
    ) -> Result<Headed<Response>, HttpFault>
        requires { length bytes.now ≤ 16384 }
        ensures ok { IfOk result (λ r. IsHeaded responses limits bytes.now r.message r.size r.length) }
        ensures err { IfErr result (HeadFault responses limits bytes.now) }
    {
        response_head(alloc, bytes, self.spans.as_mut_slice(), limits)
    }
}

/// Reads messages from a source, one after another. It holds at most 16,384 bytes beside them, for
/// which it takes memory when it is made.
#[derive(Drop)]
pub struct Reader<S> {
    source: S,
    held: Held,
    refused: bool,
}

impl<S> Model for Reader<S> {
    ghost use Rattle.ps_http.specs.Reader.{ReaderState};

    ghost Value = { ReaderState S };

    ghost view = { λ r. record { source = r.source; held = r.held; refused = r.refused } };
}

impl<S: Drop> Reader<S> {
    /// A reader that has read nothing. Without memory the source is let go.
    pub fn new(alloc: Global, source: S) -> Result<Reader<S>, Memory>
        ensures { IfOk result (λ r. r ≡ record { source = source; held = []; refused = false }) }
    {
        let held = Held::new(alloc)?;
        Ok(Reader {
            source,
            held,
            refused: false,
        })
    }
}

impl<S> Reader<S> {
    /// A reader over a source, of which nothing is read yet. Without memory the source is given back.
    pub fn over(alloc: Global, source: S) -> Result<Reader<S>, S>
        ensures made { IfOk result (λ r. r ≡ record { source = source; held = []; refused = false }) }
        ensures back { IfErr result (λ s. s ≡ source) }
    {
        match Held::new(alloc) {
            Ok(held) => Ok(Reader {
                source,
                held,
                refused: false,
            }),
            Err(_) => Err(source),
        }
    }

    /// The source, as far as it was read. What the reader holds is let go.
    pub fn into_source(self) -> S
        ensures { result ≡ self.source }
    {
        self.source
    }

    /// Lends the source, so that a reply can be written to it between two messages.
    pub fn source(&mut self) -> &mut S
        ensures* writes_back { sem 𝓛 (LendsSource S.row self.entry result) }
        ensures value { result.now ≡ self.old.source }
    {
        &mut self.source
    }
}

impl<S: Source> Reader<S> {
    /// Reads the next request, and leaves what follows it. `None` is the end of the input before
    /// any byte. A head's limit is at most 16,384 bytes.
    pub fn read_request(
        &mut self,
        alloc: Global,
        fields: &mut FieldSpans,
        limits: HttpLimits,
    ) -> Result<Option<Request>, HttpFault>
        requires some { 0 < limits.head }
        requires fits { limits.head ≤ 16384 }
        ensures message { IfOk result (λ o. IfSome o (λ r. TakesMessage requests limits r
            (prepend_known self.old.held (S.left self.old.source)) (prepend_known self.new.held (S.left self.new.source)))) }
        ensures body { IfOk result (λ o. IfSome o (λ r. length r.body ≤ limits.body)) }
        ensures end { result ≡ Ok None → WasAtEnd (prepend_known self.old.held (S.left self.old.source)) (prepend_known self.new.held (S.left self.new.source)) }
        ensures refusal { IfErr result (λ fault. IfSome (prepend_known self.old.held (S.left self.old.source)) (λ input. Refuses requests limits input fault)) }
        ensures begun { IfErr result (λ fault. IfSome (prepend_known self.old.held (S.left self.old.source)) (λ input. IsBegun input fault)) }

        // It doesn't give up by itself, and reads only what is missing.
        ensures fault { IsErrOf result HttpFault.ReadFault → Rose (S.read_faults self.old.source) (S.read_faults self.new.source) }
        ensures due { IsErrOf result HttpFault.ReadFault → WasDue requests limits self.old.held (S.left self.old.source) (S.left self.new.source) }
        ensures enough { IfOk result (λ o. IfSome o (λ _. WasEnough requests limits self.old.held self.new.held (S.left self.old.source) (S.left self.new.source))) }
        ensures in_time { IfErr result (λ fault. RefusedInTime requests limits fault self.old.held self.new.held (S.left self.old.source) (S.left self.new.source)) }

        // After a fault, and only then, it answers that and reads nothing.
        ensures refused { self.new.refused ≡ is_err result }
        ensures after { self.old.refused ≡ true → (result ≡ Err HttpFault.AfterRefusal) × (self.new ≡ self.old) }
        ensures only_after { IsErrOf result HttpFault.AfterRefusal → self.old.refused ≡ true }

        ensures later { S.read_faults self.old.source ≤ S.read_faults self.new.source }
        ensures kept { S.kept self.old.source self.new.source }
    {
        if self.refused {
            return Err(HttpFault::AfterRefusal);
        }
        let read = next_request(
            alloc,
            &mut self.source,
            &mut self.held,
            fields.spans.as_mut_slice(),
            limits,
        );
        self.refused = read.is_err();
        read
    }

    /// Reads the response, and leaves what follows it. The end of the input before any byte is
    /// `EndInside(0)`. A head's limit is at most 16,384 bytes.
    pub fn read_response(
        &mut self,
        alloc: Global,
        fields: &mut FieldSpans,
        limits: HttpLimits,
    ) -> Result<Response, HttpFault>
        requires some { 0 < limits.head }
        requires fits { limits.head ≤ 16384 }
        ensures message { IfOk result (λ r. TakesMessage responses limits r
            (prepend_known self.old.held (S.left self.old.source)) (prepend_known self.new.held (S.left self.new.source))) }
        ensures body { IfOk result (λ r. length r.body ≤ limits.body) }
        ensures refusal { IfErr result (λ fault. IfSome (prepend_known self.old.held (S.left self.old.source)) (λ input. Refuses responses limits input fault)) }

        // It doesn't give up by itself, and reads only what is missing.
        ensures fault { IsErrOf result HttpFault.ReadFault → Rose (S.read_faults self.old.source) (S.read_faults self.new.source) }
        ensures due { IsErrOf result HttpFault.ReadFault → WasDue responses limits self.old.held (S.left self.old.source) (S.left self.new.source) }
        ensures enough { IfOk result (λ _. WasEnough responses limits self.old.held self.new.held (S.left self.old.source) (S.left self.new.source)) }
        ensures in_time { IfErr result (λ fault. RefusedInTime responses limits fault self.old.held self.new.held (S.left self.old.source) (S.left self.new.source)) }

        // After a fault, and only then, it answers that and reads nothing.
        ensures refused { self.new.refused ≡ is_err result }
        ensures after { self.old.refused ≡ true → (result ≡ Err HttpFault.AfterRefusal) × (self.new ≡ self.old) }
        ensures only_after { IsErrOf result HttpFault.AfterRefusal → self.old.refused ≡ true }

        ensures later { S.read_faults self.old.source ≤ S.read_faults self.new.source }
        ensures kept { S.kept self.old.source self.new.source }
    {
        if self.refused {
            return Err(HttpFault::AfterRefusal);
        }
        let answer = next_response(
            alloc,
            &mut self.source,
            &mut self.held,
            fields.spans.as_mut_slice(),
            limits,
        );
        self.refused = answer.is_err();
        answer
    }
}
