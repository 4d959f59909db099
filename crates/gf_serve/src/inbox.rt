//! What came from a source and was not used yet, and the reading of a line or a body.

ghost use Rattle.std.specs.Prelude.{◌≡◌, ◌<◌, ◌≤◌, ◌+◌, ◌∷◌, ◌++◌, [], IfErr, IfNone, IfOk, IfSome};
ghost use Rattle.std.specs.Prelude.{OnOk, drop, false, length, take, true};
ghost use Rattle.std.specs.Io.KnownBytes.{Consumes, IsAtEnd, Keeps, prepend_known};
ghost use Rattle.std.specs.List.{position};
ghost use Rattle.gf_streams.specs.TextLines.{is_line_end};
ghost use Rattle.gf_streams.specs.Counts.{CountsFailureAt};
ghost use Rattle.gf_serve.specs.declared.serve_error.ServeError.TheVariants.{OutOfMemory, ReadFailed};
ghost use Rattle.gf_serve.specs.RequestLines.{EndsRequests, IsLine};
ghost use Rattle.gf_serve.specs.ServingSteps.{IsReadFault, IsUnread, IsUnreadBody};

use crate::ServeError;
use gf_streams::Source;
use memchr::memchr;
use std::alloc::Global;
use std::mem;

/// The most bytes of a request's line, without its end.
pub const MOST_LINE_BYTES: usize = 1_000;

const CHUNK_BYTES: usize = 65_536;

/// The next line, without its end. None at the end of the input.
pub(crate) fn read_line<R: Source>(
    alloc: Global,
    source: &mut R,
    held: &mut Vec<u8>,
) -> Result<Option<Vec<u8>>, ServeError>
    ensures line { IfOk result (λ found. IfSome found (λ line. IsLine line.items)) }
    ensures takes { IfOk result (λ found. IfSome found (λ line.
        Consumes (prepend_known held.old.items (R.left source.old))
        (prepend_known held.new.items (R.left source.new)) (line.items ++ 10 ∷ []))) }
    ensures end { IfOk result (λ found. IfNone found
        (IsAtEnd (prepend_known held.old.items (R.left source.old)))) }
    ensures refused { IfErr result (λ e.
        IfSome (prepend_known held.old.items (R.left source.old)) (λ rest. EndsRequests rest e)) }
    ensures unread { IfErr result IsUnread }
    ensures counts { CountsFailureAt ReadFailed (R.failures source.old) (R.failures source.new)
        result }
{
    while held.len() <= MOST_LINE_BYTES && line_end(held).is_none() {
        if !fill(source, held)? {
            return if held.is_empty() {
                Ok(None)
            } else {
                Err(ServeError::CutOff)
            };
        }
    }
    match line_end(held) {
        Some(end) => {
            if MOST_LINE_BYTES < end {
                return Err(ServeError::NoRequest);
            }
            let mut line = cut(alloc, held, end + 1)?;
            line.truncate(end);
            Ok(Some(line))
        }
        None => Err(ServeError::NoRequest),
    }
}

/// Where the first line ends, if its end came.
fn line_end(held: &[u8]) -> Option<usize>
    ensures { result ≡ position is_line_end held.now }
{
    memchr(b'\n', held)
}

/// The next `count` bytes.
pub(crate) fn read_body<R: Source>(
    alloc: Global,
    source: &mut R,
    held: &mut Vec<u8>,
    count: usize,
) -> Result<Vec<u8>, ServeError>
    ensures count { IfOk result (λ body. length body.items ≡ count) }
    ensures takes { IfOk result (λ body.
        Consumes (prepend_known held.old.items (R.left source.old))
        (prepend_known held.new.items (R.left source.new)) body.items) }
    ensures refused { IfErr result (λ e.
        IfSome (prepend_known held.old.items (R.left source.old)) (λ rest.
        IsUnreadBody count rest e)) }
    ensures unread { IfErr result IsUnread }
    ensures counts { CountsFailureAt ReadFailed (R.failures source.old) (R.failures source.new)
        result }
{
    while held.len() < count {
        if !fill(source, held)? {
            return Err(ServeError::CutOff);
        }
    }
    cut(alloc, held, count)
}

/// One read, behind what is held. Answers whether something came.
fn fill<R: Source>(source: &mut R, held: &mut Vec<u8>) -> Result<bool, ServeError>
    ensures keeps { OnOk result (Keeps (prepend_known held.old.items (R.left source.old))
        (prepend_known held.new.items (R.left source.new))) }
    ensures more { IfOk result (λ more. more ≡ true
        → length held.old.items < length held.new.items) }
    ensures none { IfOk result (λ more. more ≡ false → (held.new.items ≡ held.old.items)
        × IsAtEnd (R.left source.new)) }
    ensures refused { IfErr result IsReadFault }
    ensures unread { IfErr result IsUnread }
    ensures counts { CountsFailureAt ReadFailed (R.failures source.old) (R.failures source.new)
        result }
{
    let mut chunk = [0u8; CHUNK_BYTES];
    let Ok(count) = source.read(&mut chunk) else {
        return Err(ServeError::ReadFailed);
    };
    match held.extend_from_slice(&chunk[..count]) {
        Ok(()) => Ok(count != 0),
        Err(_) => Err(ServeError::OutOfMemory),
    }
}

/// The first `count` of the bytes that are held, which they are no more.
fn cut(alloc: Global, held: &mut Vec<u8>, count: usize) -> Result<Vec<u8>, ServeError>
    requires { count ≤ length held.old.items }
    ensures front { IfOk result (λ front. front.items ≡ take count held.old.items) }
    ensures rest { OnOk result (held.new.items ≡ drop count held.old.items) }
    ensures refused { IfErr result (λ e. e ≡ OutOfMemory) }
    ensures unread { IfErr result IsUnread }
{
    let Ok(rest) = Vec::from_slice(alloc, &held[count..]) else {
        return Err(ServeError::OutOfMemory);
    };
    let mut front = mem::replace(held, rest);
    front.truncate(count);
    Ok(front)
}
