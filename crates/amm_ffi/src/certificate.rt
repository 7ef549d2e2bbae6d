// The check of a certificate.
ghost use Rattle.std.specs.Prelude.{◌≡◌, IfOk, length};
ghost use Rattle.std.specs.Fmt.{decimal};
ghost use Rattle.amm_ffi.specs.Certificates.{Checks, IsFoundOf, IsJudged, code_of, refusal};
ghost use Rattle.amm_ffi.specs.Progress.{over};

use crate::copied::copy;
use crate::outcome::{DONE, MEMORY};
use crate::verdict::{BAD_BOUND, BAD_CERT, BAD_DELIVERED, BAD_ROUTE, Checked, Judged, YES};
use amm_cert::read;
use amm_check::{Verdict, check};
use amm_model::{Memory, Quote};
use itoa::Buffer;
use std::alloc::Global;

/// What is found of a quote.
fn judge(quote: &Quote) -> Judged
    requires { length quote.now.prices ≡ length quote.now.problem.tokens }
    ensures { IsJudged quote.now result }
{
    Judged {
        verdict: check(quote),
        delivered: quote.delivered,
        bound: quote.bound,
    }
}

/// What is found of the bytes, where they are a certificate. Memory is the only error.
fn find(alloc: Global, bytes: &[u8]) -> Result<Option<Judged>, Memory>
    ensures { IfOk result (λ found. IsFoundOf bytes.now found) }
{
    match read(alloc, bytes)? {
        Some(quote) => Ok(Some(judge(&quote))),
        None => Ok(None),
    }
}

/// The code of a verdict.
fn code(verdict: Verdict) -> u8
    ensures { result ≡ code_of verdict }
{
    match verdict {
        Verdict::Yes => YES,
        Verdict::BadRoute => BAD_ROUTE,
        Verdict::BadDelivered => BAD_DELIVERED,
        Verdict::BadBound => BAD_BOUND,
    }
}

/// What C is told where there is no yes.
fn refuse(status: u8, verdict: u8) -> Checked
    ensures { result ≡ refusal status verdict }
{
    Checked {
        status,
        verdict,
        delivered: 0,
        length: 0,
    }
}

/// What C is told of a yes.
fn accept(delivered: u64, bound: u128, room: &mut [u8]) -> Checked
    ensures told { result ≡ record { status = DONE; verdict = YES; delivered = delivered; length = length (decimal bound) } }
    ensures digits { room.new ≡ over (decimal bound) room.old }
{
    let mut buffer = Buffer::new();
    let digits = buffer.format(bound).as_bytes();
    copy(digits, room);
    Checked {
        status: DONE,
        verdict: YES,
        delivered,
        length: digits.len(),
    }
}

/// Checks the certificate that the bytes are. After a yes, what its legs deliver is told, and the
/// digits of its bound are copied, as many as fit. The room takes any bound where it has 39 bytes.
#[unsafe(no_mangle)]
pub extern "C" fn exchange_check(alloc: Global, bytes: &[u8], room: &mut [u8]) -> Checked
    ensures { Checks bytes.now room.old result room.new }
{
    match find(alloc, bytes) {
        Err(_) => refuse(MEMORY, BAD_CERT),
        Ok(None) => refuse(DONE, BAD_CERT),
        Ok(Some(judged)) => {
            if judged.verdict == Verdict::Yes {
                accept(judged.delivered, judged.bound, room)
            } else {
                refuse(DONE, code(judged.verdict))
            }
        }
    }
}
