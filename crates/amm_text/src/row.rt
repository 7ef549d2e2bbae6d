//! Values as what they send to a `Serializer`: `serde_json` writes them from it.
ghost use Rattle.std.specs.Prelude.{◌≡◌, IsUtf8, OnOk, map};
ghost use Rattle.serde_json.specs.Data.{string};
ghost use Rattle.serde_json.specs.Events.{SendsValue};
ghost use Rattle.amm_model.specs.Json.{whole, wide};
ghost use Rattle.amm_text.specs.Sends.{SendsEach};

use amm_model::{PoolName, TokenName};
use itoa::Buffer;
use serde::Serializer;

/// Numbers, one behind the other.
pub fn send_numbers<S: Serializer>(numbers: &[u64], out: &mut S) -> Result<(), S::Error>
    ensures { OnOk result (SendsEach (map whole numbers.now) (S.written out.old) (S.written out.new)) }
{
    for n in numbers {
        out.u64(*n)?;
    }
    Ok(())
}

/// A number that may have more than 64 bits, as the string of its digits.
pub fn send_wide<S: Serializer>(n: u128, out: &mut S) -> Result<(), S::Error>
    ensures { OnOk result (SendsValue (wide n) (S.written out.old) (S.written out.new)) }
{
    let mut buffer = Buffer::new();
    out.str(buffer.format(n))
}

/// The name of a token.
pub fn send_token<S: Serializer>(name: &TokenName, out: &mut S) -> Result<(), S::Error>
    ensures { OnOk result (SendsValue (string name.now) (S.written out.old) (S.written out.new)) }
{
    out.str(as_text(name.as_bytes()))
}

/// The name of a pool.
pub fn send_pool<S: Serializer>(name: &PoolName, out: &mut S) -> Result<(), S::Error>
    ensures { OnOk result (SendsValue (string name.now) (S.written out.old) (S.written out.new)) }
{
    out.str(as_text(name.as_bytes()))
}

/// The bytes of a name as text.
fn as_text(bytes: &[u8]) -> &str
    requires { IsUtf8 bytes.now }
    ensures { result.now ≡ bytes.now }
{
    str::from_utf8(bytes).unwrap()
}
