// What is looked for in the bytes of a line.
ghost use Rattle.std.specs.Prelude.{◌≡◌, ◌≢◌, ◌<◌, ℕ, slice_index, IfNone, length, IfSome};
ghost use Rattle.std.specs.List.{list_all};
ghost use Rattle.amm_model.specs.Lines.{is_blank as blank};

use memchr::memchr;

const NEWLINE: u8 = b'\n';

/// Where the first newline stands.
pub(crate) fn newline_at(bytes: &[u8]) -> Option<usize>
    ensures found { IfSome result (λ at. (at < length bytes.now) × (slice_index bytes.now at ≡ 10)) }
    ensures first { IfSome result (λ at. (k : ℕ) → k < at → slice_index bytes.now k ≢ 10) }
    ensures none { IfNone result ((k : ℕ) → k < length bytes.now → slice_index bytes.now k ≢ 10) }
{
    memchr(NEWLINE, bytes)
}

fn is_blank(byte: u8) -> bool
    ensures { result ≡ blank byte }
{
    byte == b' ' || byte == b'\t' || byte == b'\r'
}

/// Whether all of the bytes are spaces, tabs or carriage returns.
pub(crate) fn all_blank(bytes: &[u8]) -> bool
    ensures { result ≡ list_all blank bytes.now }
{
    bytes.iter().all(|byte| is_blank(*byte))
}
