// What is found of the bytes of a certificate.
ghost use Rattle.std.specs.Prelude.{◌≡◌, ℕ, List, IfOk, OnOk, length};
ghost use Rattle.serde_json.specs.Events.{SendsValue};
ghost use Rattle.serde_json.specs.Written.{compact_text};
ghost use Rattle.amm_model.specs.Certificate.{IsCertificateOf};
ghost use Rattle.exchange.specs.Findings.{IsFindingOf, finding_line, finding_status, finding_value, flaw_code};

use amm_cert::read;
use amm_check::{Verdict, check};
use amm_engine::Status;
use amm_model::{Memory, Quote};
use amm_text::send_wide;
use serde::{Described, Serialize, Serializer};
use std::alloc::Global;

/// What is found of some bytes.
#[derive(Clone, Copy, Debug, PartialEq, Eq)]
pub enum Finding {
    /// They are a certificate and all of it is right: what its legs deliver, and its bound.
    Yes { delivered: u64, bound: u128 },
    /// The first thing that is not so.
    No(Flaw),
}

/// What is not so.
#[derive(Clone, Copy, Debug, PartialEq, Eq)]
pub enum Flaw {
    /// The bytes are no certificate.
    BadCert,
    /// The legs are no leg-by-leg route of the pools.
    BadRoute,
    /// The legs deliver another amount.
    BadDelivered,
    /// The bound is not that of the prices.
    BadBound,
}

impl Flaw {
    /// The code by which it is told.
    pub fn code(self) -> &'static str
        ensures { result.now ≡ flaw_code self }
    {
        match self {
            Flaw::BadCert => "BAD_CERT",
            Flaw::BadRoute => "BAD_ROUTE",
            Flaw::BadDelivered => "BAD_DELIVERED",
            Flaw::BadBound => "BAD_BOUND",
        }
    }
}

impl Finding {
    /// What is found of the bytes. Memory is the only error.
    pub fn of(alloc: Global, bytes: &[u8]) -> Result<Finding, Memory>
        ensures { IfOk result (λ finding. IsFindingOf bytes.now finding) }
    {
        match read(alloc, bytes)? {
            Some(quote) => Ok(of_quote(&quote)),
            None => Ok(Finding::No(Flaw::BadCert)),
        }
    }

    /// The status that tells it.
    pub fn status(self) -> Status
        ensures { result ≡ finding_status self }
    {
        match self {
            Finding::Yes { .. } => Status::Done,
            Finding::No(_) => Status::No,
        }
    }

    /// Its line.
    #[tactic(auto, unfolding(crate::specs::Findings::finding_line))]
    pub fn line(self, alloc: Global) -> Result<Vec<u8>, Memory>
        ensures { IfOk result (λ line. line.items ≡ finding_line self) }
    {
        let mut line = self.text(alloc)?;
        line.push(b'\n')?;
        Ok(line)
    }

    /// Its row, as `serde_json` writes it.
    fn text(self, alloc: Global) -> Result<Vec<u8>, Memory>
        ensures { IfOk result (λ text. text.items ≡ compact_text (finding_value self)) }
    {
        match serde_json::to_vec(alloc, &self) {
            Ok(text) => Ok(text),
            // A row sends no keys and flattens nothing, so nothing else fails.
            Err(_) => Err(Memory),
        }
    }
}

/// What is found of the certificates of a quote.
fn of_quote(quote: &Quote) -> Finding
    requires { length quote.now.prices ≡ length quote.now.problem.tokens }
    ensures { (bytes : List ℕ) → IsCertificateOf bytes quote.now → IsFindingOf bytes result }
{
    match check(quote) {
        Verdict::Yes => {
            Finding::Yes {
                delivered: quote.delivered,
                bound: quote.bound,
            }
        }
        Verdict::BadRoute => Finding::No(Flaw::BadRoute),
        Verdict::BadDelivered => Finding::No(Flaw::BadDelivered),
        Verdict::BadBound => Finding::No(Flaw::BadBound),
    }
}

/// What is written of it.
impl Described for Finding {
    ghost writes = { λ finding. SendsValue (finding_value finding) };
}

impl Serialize for Finding {
    fn serialize<S: Serializer>(&self, out: &mut S) -> Result<(), S::Error> {
        match self {
            Finding::Yes { delivered, bound } => send_yes(*delivered, *bound, out),
            Finding::No(flaw) => send_no(*flaw, out),
        }
    }
}

fn send_yes<S: Serializer>(delivered: u64, bound: u128, out: &mut S) -> Result<(), S::Error>
    ensures { OnOk result (SendsValue (finding_value (Finding.Yes delivered bound))
        (S.written out.old) (S.written out.new)) }
{
    out.begin_seq(Some(3))?;
    out.str("yes")?;
    out.u64(delivered)?;
    send_wide(bound, out)?;
    out.end_seq()
}

fn send_no<S: Serializer>(flaw: Flaw, out: &mut S) -> Result<(), S::Error>
    ensures { OnOk result (SendsValue (finding_value (Finding.No flaw))
        (S.written out.old) (S.written out.new)) }
{
    out.begin_seq(Some(2))?;
    out.str("no")?;
    out.str(flaw.code())?;
    out.end_seq()
}
