//! A whole certificate.
ghost use Rattle.std.specs.Prelude.{◌≡◌, IfOk, OnOk};
ghost use Rattle.serde_json.specs.Events.{SendsValue};
ghost use Rattle.amm_model.specs.Certificate.{certificate_value, certificate_text, IsCertifiable, IsCertificateOf, IsWritable};

use crate::quote::{send_legs, send_pools, send_prices};
use amm_model::{Memory, Quote};
use amm_text::{send_token, send_wide};
use serde::{Described, Serialize, Serializer};
use std::alloc::Global;

/// The certificate of a quote, in version 2: its compact text. Memory is the only error.
pub fn write(alloc: Global, quote: &Quote) -> Result<Vec<u8>, Memory>
    requires { IsWritable quote.now }
    ensures text { IfOk result (λ text. text.items ≡ certificate_text quote.now) }
    ensures certificate { IfOk result (λ text. IsCertificateOf text.items quote.now) }
{
    kept(quote);
    match serde_json::to_vec(alloc, &CertificateRow { quote }) {
        Ok(text) => Ok(text),
        // A row sends no keys and flattens nothing, so nothing else fails.
        Err(_) => Err(Memory),
    }
}

/// Does nothing: the parts of a quote are as their types keep them.
fn kept(quote: &Quote)
    requires { IsWritable quote.now }
    ensures { IsCertifiable quote.now }
{
    let _problem = quote.problem.d();
    let _prices = quote.prices.as_slice();
    let _delivered = quote.delivered;
    let _bound = quote.bound;
}

/// A quote as the row of its certificate.
#[derive(Drop)]
struct CertificateRow<'a> {
    quote: &'a Quote,
    ghost writable: { IsWritable quote.now },
}

impl Described for CertificateRow<'_> {
    ghost writes = { λ row. SendsValue (certificate_value row.quote.now) };
}

impl Serialize for CertificateRow<'_> {
    fn serialize<S: Serializer>(&self, out: &mut S) -> Result<(), S::Error> {
        send_certificate(self.quote, out)
    }
}

/// The certificate of a quote, as what it sends to a `Serializer`.
pub fn send_certificate<S: Serializer>(quote: &Quote, out: &mut S) -> Result<(), S::Error>
    requires { IsWritable quote.now }
    ensures { OnOk result (SendsValue (certificate_value quote.now) (S.written out.old) (S.written out.new)) }
{
    out.begin_seq(Some(10))?;
    out.str("amm-split-certificate")?;
    out.u64(2)?;
    send_token(quote.problem.s(), out)?;
    send_token(quote.problem.t(), out)?;
    out.u64(quote.problem.d())?;
    send_pools(quote.problem.pools(), out)?;
    send_prices(quote, out)?;
    send_legs(quote, out)?;
    out.u64(quote.delivered)?;
    send_wide(quote.bound, out)?;
    out.end_seq()
}
