// Numbers in decimal.
ghost use Rattle.std.specs.Prelude.{◌≡◌, ◌≢◌, ◌≤◌, ℕ, decimal, IfSome, IfNone, IsTrue, ◌↔◌};

use itoa::Buffer;

/// The number that the bytes are, without sign or leading zero, up to a limit.
pub(crate) fn read_number(bytes: &[u8], limit: u64) -> Option<u64>
    ensures found { IfSome result (λ n. (n ≤ limit) × (bytes.now ≡ decimal n)) }
    ensures none { IfNone result ((n : ℕ) → n ≤ limit → bytes.now ≢ decimal n) }
{
    let Ok(text) = str::from_utf8(bytes) else {
        return None;
    };
    let Ok(n) = text.parse::<u64>() else {
        return None;
    };
    if n <= limit && is_decimal(bytes, n) {
        Some(n)
    } else {
        None
    }
}

fn is_decimal(bytes: &[u8], n: u64) -> bool
    ensures { IsTrue result ↔ (bytes.now ≡ decimal n) }
{
    let mut buffer = Buffer::new();
    buffer.format(n).as_bytes() == bytes
}
