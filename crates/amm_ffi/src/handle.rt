// What C keeps.
ghost use Rattle.std.specs.Prelude.{◌≡◌};

use crate::address::Address;

/// What C keeps, `struct exchange` of the header: a session, or none.
#[repr(C)]
#[derive(Drop)]
pub struct Handle {
    pub(crate) address: Address,
    pub(crate) is_open: bool,
    pub(crate) ghost agrees: { address.there ≡ is_open },
}
