//! The turns of a service: each reads one request, and writes its answer.

ghost use Rattle.std.specs.Prelude.{◌≡◌, ◌≤◌, List, [], IfErr, IfOk, IfSome, IfNone, IsErrOf, IsTrue};
ghost use Rattle.std.specs.Prelude.{OnErr, OnOk};
ghost use Rattle.std.specs.Io.KnownBytes.{Appends, IsAtEnd, prepend_known};
ghost use Rattle.gf_streams.specs.Counts.{CountsFailureAt, Rises};
ghost use Rattle.gf_streams.specs.Taken.{AppendsPrefix};
ghost use Rattle.gf_ops.specs.declared.op.Op.{Op};
ghost use Rattle.gf_replay.specs.Behind.{HasDelivered};
ghost use Rattle.gf_serve.specs.declared.serve_error.ServeError.TheVariants as serve;
ghost use Rattle.gf_serve.specs.RequestLines.{EndsRequests, Tells};
ghost use Rattle.gf_serve.specs.Requests.{HasSite};
ghost use Rattle.gf_serve.specs.ServingSteps.{AnswersRawRequest, IsUnread, IsUntold};
ghost use Rattle.gf_serve.specs.ServingSteps.{TakesRawRequest, WritesFault};
ghost use Rattle.gf_serve.specs.Turns.{IsRequest, LeavesTurn, TakesTurn};
ghost use Rattle.gf_site.specs.ReplicaState.{new_replica};

use crate::asking::{Task, asked, body_bytes, json};
use crate::inbox::{read_body, read_line};
use crate::request::TakeText;
use crate::writing::{refused_text, reply_text};
use crate::{Request, ServeError, Service};
use gf_base::OutOfMemory;
use gf_streams::{Sink, Source, write_whole};
use std::alloc::Global;
use std::marker::Model;
use std::thread::Threads;

/// A service that answers requests, and the bytes that came behind the last one. It is seen as the
/// replica of the service and these bytes.
#[derive(Drop)]
pub struct Dialogue {
    alloc: Global,
    service: Service,
    ahead: Vec<u8>,
}

impl Model for Dialogue {
    ghost use Rattle.gf_serve.specs.Turns.{DialogueState};

    ghost Value = { DialogueState };

    ghost view = { λ d. record { replica = d.service; ahead = d.ahead.items } };
}

/// What a turn came to.
#[derive(Clone, Copy, Debug, PartialEq, Eq)]
pub enum Turn {
    /// A request was answered.
    Answered,
    /// The input has ended.
    Ended,
}

/// A request as it came: what its line asks for, if that is a request, and its body.
#[derive(Drop)]
pub struct RawRequest {
    pub asks: Option<Task>,
    pub body: Vec<u8>,
}

impl Dialogue {
    /// A service that was given nothing, and asked nothing.
    pub fn new(alloc: Global) -> Dialogue
        ensures { result ≡ record { replica = new_replica; ahead = [] } }
    {
        Dialogue {
            alloc,
            service: Service::new(alloc),
            ahead: Vec::new(alloc),
        }
    }

    /// Reads one request, answers it by 1 to 16 workers, and writes and flushes the answer. It
    /// answers as the command of its name answers all operation lines that were taken before.
    pub fn turn<T: Threads + Sync, R: Source, W: Sink>(
        &mut self,
        rt: &T,
        source: &mut R,
        sink: &mut W,
        workers: u8,
    ) -> Result<Turn, ServeError>
        requires { (1 ≤ workers) × (workers ≤ 16) }
        // One request is used and its whole answer is written, or the input has ended.
        ensures turn { IfOk result (λ turn. (known : List Op)
            → HasDelivered known self.old.replica
            → TakesTurn known turn (prepend_known self.old.ahead (R.left source.old))
            (prepend_known self.new.ahead (R.left source.new)) (W.taken sink.old)
            (W.taken sink.new) self.new.replica) }
        ensures flushed { OnOk result (IsTrue (W.flushed sink.new)) }
        // Why there is no such turn, and what was written then.
        ensures refused { IfErr result (λ e. IfSome (prepend_known self.old.ahead
            (R.left source.old)) (λ rest. (known : List Op) → HasDelivered known self.old.replica
            → LeavesTurn known rest (W.taken sink.old) (W.taken sink.new) e)) }
        // A read failed exactly if the source did, and a write only if the sink did.
        ensures read_failed { CountsFailureAt serve.ReadFailed (R.failures source.old)
            (R.failures source.new) result }
        ensures write_failed { IsErrOf result serve.WriteFailed
            → Rises (W.failures sink.old) (W.failures sink.new) }
        ensures written { OnOk result (W.failures sink.new ≡ W.failures sink.old) }
    {
        let raw = match read_raw_request(self.alloc, source, &mut self.ahead) {
            Ok(Some(raw)) => raw,
            Ok(None) => {
                write(sink, b"")?;
                return Ok(Turn::Ended);
            }
            Err(fault) => return Err(refuse(self.alloc, sink, fault)),
        };
        let text = answer(rt, self.alloc, &mut self.service, raw, workers)?;
        write(sink, &text)?;
        Ok(Turn::Answered)
    }
}

/// Writes that what came is no request, where that is the fault, and hands on the fault.
fn refuse<W: Sink>(alloc: Global, sink: &mut W, fault: ServeError) -> ServeError
    ensures same { result ≡ fault }
    ensures writes { WritesFault fault (W.taken sink.old) (W.taken sink.new) }
{
    if fault == ServeError::NoRequest {
        if let Ok(text) = refused_text(alloc, b"no request") {
            let _ = write_whole(sink, &text);
        }
    }
    fault
}

/// Writes all of these bytes, and flushes.
fn write<W: Sink>(sink: &mut W, bytes: &[u8]) -> Result<(), ServeError>
    ensures ok { OnOk result (Appends (W.taken sink.old) (W.taken sink.new) bytes.now) }
    ensures flushed { OnOk result (IsTrue (W.flushed sink.new)) }
    ensures err { OnErr result (AppendsPrefix (W.taken sink.old) (W.taken sink.new) bytes.now) }
    ensures refused { IfErr result (λ e. e ≡ serve.WriteFailed) }
    ensures failed { OnErr result (Rises (W.failures sink.old) (W.failures sink.new)) }
    ensures written { OnOk result (W.failures sink.new ≡ W.failures sink.old) }
{
    match write_whole(sink, bytes) {
        Ok(()) => Ok(()),
        Err(_) => Err(ServeError::WriteFailed),
    }
}

/// The next request. None at the end of the input.
fn read_raw_request<R: Source>(
    alloc: Global,
    source: &mut R,
    held: &mut Vec<u8>,
) -> Result<Option<RawRequest>, ServeError>
    ensures raw { IfOk result (λ found. IfSome found (λ raw.
        TakesRawRequest (prepend_known held.old.items (R.left source.old))
        (prepend_known held.new.items (R.left source.new)) raw)) }
    ensures in_range { IfOk result (λ found. IfSome found (λ raw. IfSome raw.asks HasSite)) }
    ensures end { IfOk result (λ found. IfNone found
        (IsAtEnd (prepend_known held.old.items (R.left source.old)))) }
    ensures refused { IfErr result (λ e.
        IfSome (prepend_known held.old.items (R.left source.old)) (λ rest. EndsRequests rest e)) }
    ensures unread { IfErr result IsUnread }
    ensures counts { CountsFailureAt serve.ReadFailed (R.failures source.old) (R.failures source.new)
        result }
{
    let Some(line) = read_line(alloc, source, held)? else {
        return Ok(None);
    };
    let (asks, count) = told(alloc, &line)?;
    let body = read_body(alloc, source, held, count as usize)?;
    Ok(Some(RawRequest { asks, body }))
}

/// What a line asks for, and how many bytes stand behind it.
fn told(alloc: Global, line: &[u8]) -> Result<(Option<Task>, u64), ServeError>
    ensures told { IfOk result (λ told. Tells line.now told.0 told.1) }
    ensures in_range { IfOk result (λ told. IfSome told.0 HasSite) }
    ensures refused { IfErr result (IsUntold line.now) }
    ensures unread { IfErr result IsUnread }
{
    match json(alloc, line) {
        Ok(Some(value)) => match body_bytes(&value) {
            Some(count) => Ok((asked(&value), count)),
            None => Err(ServeError::NoRequest),
        },
        Ok(None) => Err(ServeError::NoRequest),
        Err(OutOfMemory) => Err(ServeError::OutOfMemory),
    }
}

/// The bytes that answer a request.
fn answer<T: Threads + Sync>(
    rt: &T,
    alloc: Global,
    service: &mut Service,
    raw: RawRequest,
    workers: u8,
) -> Result<Vec<u8>, ServeError>
    requires workers { (1 ≤ workers) × (workers ≤ 16) }
    requires in_range { IfSome raw.asks HasSite }
    ensures answers { (known : List Op) → HasDelivered known service.old
        → IfOk result (λ text. AnswersRawRequest known raw text.items service.new) }
    ensures refused { IfErr result (λ e. e ≡ serve.OutOfMemory) }
{
    let RawRequest { asks, body } = raw;
    let text = match asks {
        Some(asks) => {
            let reply = service.answer(rt, request(asks, body), workers);
            reply_text(alloc, &reply)
        }
        None => refused_text(alloc, b"no such request"),
    };
    match text {
        Ok(text) => Ok(text),
        Err(OutOfMemory) => Err(ServeError::OutOfMemory),
    }
}

/// The request that is asked for, with this body.
fn request(asks: Task, body: Vec<u8>) -> Request
    requires { HasSite asks }
    ensures { IsRequest asks body.items result }
{
    match asks {
        Task::Lines => Request::Lines(body),
        Task::Take(request) => Request::Take(TakeText { request, fig: body }),
        Task::Named => Request::Named,
        Task::Status(notation) => Request::Status(notation),
    }
}
