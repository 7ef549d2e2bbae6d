//! Bytes of a name, kept in place, compared and hashed as a list.
ghost use Rattle.std.specs.Prelude.{◌≡◌, ◌<◌, ◌≤◌, ◌+◌, [], ◌++◌, length, nat_eq};
ghost use Rattle.std.specs.Cmp.Lexicographic.{pointwise};
ghost use borrow.Rule.Slice.PartMut.{put_mid};

use std::cmp::Ordering;
use std::hash::{Hash, Hasher};
use std::marker::Model;

/// At most `N` bytes. Those behind the last are 0.
#[derive(Clone, Copy, Drop)]
pub struct Text<const N: usize> {
    bytes: [u8; N],
    len: u8,
}

impl<const N: usize> Model for Text<N> {
    ghost use Rattle.std.specs.Prelude.{List, ℕ, ◌-◌, ◌++◌, length, take};
    ghost use Rattle.amm_names.specs.Padded.{IsPadded, padded};

    ghost Value = { List ℕ };

    ghost view = { λ text. take text.len text.bytes };

    ghost invariant = { λ text. IsPadded N text.len text.bytes };

    ghost inverse = { λ bytes. record { bytes = padded N bytes; len = length bytes } };

    ghost inverse_ok = { λ text fits i. record { bytes = fits.zeros i; len = fits.full i } };
}

/// Writes the bytes into the field, beginning at a place.
fn write_at(field: &mut [u8], start: usize, bytes: &[u8])
    requires { start + length bytes.now ≤ length field.old }
    ensures { field.new ≡ put_mid start (length bytes.now) field.old bytes.now }
{
    field[start..start + bytes.len()].copy_from_slice(bytes);
}

/// Whether two fields hold the same. Each byte is looked at, in one stride of wide words: to stop
/// at the first that differs would take longer.
#[inline(always)]
#[tactic(auto, using(crate::proofs::Same::pointwise_step))]
fn are_same<const N: usize>(a: &[u8; N], b: &[u8; N]) -> bool
    ensures { result ≡ pointwise nat_eq a.now b.now }
{
    let mut differ = false;
    for i in 0..N {
        differ |= a[i] != b[i];
    }
    !differ
}

impl<const N: usize> Text<N> {
    pub fn empty() -> Text<N>
        ensures { result ≡ [] }
    {
        Text {
            bytes: [0; N],
            len: 0,
        }
    }

    /// Keeps these bytes.
    pub fn new(bytes: &[u8]) -> Text<N>
        requires room { length bytes.now ≤ N }
        requires small { N < 256 }
        ensures { result ≡ bytes.now }
    {
        Text::empty().with(bytes)
    }

    /// These bytes, and more behind them.
    pub fn with(self, more: &[u8]) -> Text<N>
        requires room { length self + length more.now ≤ N }
        requires small { N < 256 }
        ensures { result ≡ self.entry ++ more.now }
    {
        let start = self.len as usize;
        let mut bytes = self.bytes;
        write_at(&mut bytes, start, more);
        Text {
            bytes,
            len: (start + more.len()) as u8,
        }
    }

    /// These bytes, and those of a text behind them: its whole field is copied, and the zeros fall
    /// on zeros.
    pub fn joined<const M: usize>(self, more: Text<M>) -> Text<N>
        requires room { length self + M ≤ N }
        requires small { N < 256 }
        ensures { result ≡ self.entry ++ more.entry }
    {
        let start = self.len as usize;
        let mut bytes = self.bytes;
        write_at(&mut bytes, start, &more.bytes);
        Text {
            bytes,
            len: self.len + more.len,
        }
    }

    pub fn as_bytes(&self) -> &[u8]
        ensures { result.now ≡ self.now }
    {
        &self.bytes[..self.len as usize]
    }
}

impl<const N: usize> PartialEq for Text<N> {
    ghost use Rattle.std.specs.Prelude.{nat_eq};
    ghost use Rattle.std.specs.Cmp.{partial_equiv_from_equiv};
    ghost use Rattle.std.specs.Cmp.Lexicographic.{pointwise, nat_list_eq_equiv};

    ghost eq = { pointwise nat_eq };

    ghost laws = { partial_equiv_from_equiv nat_list_eq_equiv };

    fn eq(&self, other: &Text<N>) -> bool {
        self.len == other.len && are_same(&self.bytes, &other.bytes)
    }
}

impl<const N: usize> Eq for Text<N> {
    ghost use Rattle.std.specs.Cmp.Lexicographic.{nat_list_eq_equiv};

    ghost laws = { nat_list_eq_equiv };
}

impl<const N: usize> Hash for Text<N> {
    ghost use Rattle.std.proofs.Common.{rules};
    ghost use Rattle.std.specs.Prelude.{[], ◌∷◌};
    ghost use Rattle.std.specs.Cmp.Rules.{hashing};

    ghost hash_input = { λ bytes. bytes ∷ [] };

    ghost respects_eq = { Prim.search (hashing, rules) };

    fn hash<H: Hasher>(&self, state: &mut H) {
        state.write(self.as_bytes());
    }
}

impl<const N: usize> Ord for Text<N> {
    ghost use Rattle.std.proofs.Common.{rules};
    ghost use Rattle.std.specs.Cmp.Rules.{comparing};
    ghost use Rattle.std.specs.Cmp.Lexicographic.{slice_cmp, nat_list_cmp_total};
    ghost use Rattle.std.specs.Ordering.{nat_cmp};

    ghost cmp = { slice_cmp nat_cmp };

    ghost total = { nat_list_cmp_total };

    ghost matches_partial_cmp = { Prim.search (comparing, rules) };

    ghost matches_eq = { Prim.search (comparing, rules) };

    fn cmp(&self, other: &Text<N>) -> Ordering {
        self.as_bytes().cmp(&other.as_bytes())
    }
}

impl<const N: usize> PartialOrd for Text<N> {
    ghost use Rattle.std.proofs.Common.{rules};
    ghost use Rattle.std.specs.Cmp.{partial_order_from_own_ties};
    ghost use Rattle.std.specs.Cmp.Rules.{comparing};
    ghost use Rattle.std.specs.Cmp.Lexicographic.{slice_cmp};
    ghost use Rattle.std.specs.Ordering.{nat_cmp, as_partial_cmp};

    ghost partial_cmp = { as_partial_cmp (slice_cmp nat_cmp) };

    ghost laws = { partial_order_from_own_ties (Prim.search (comparing, rules)) (Prim.search (comparing, rules)) };

    fn partial_cmp(&self, other: &Text<N>) -> Option<Ordering> {
        Some(self.cmp(other))
    }
}
