// Where a boxed session lies, as C may keep it.
ghost use Rattle.std.specs.Prelude.{◌≡◌, Bool, true, false};
ghost use Rattle.amm_ffi.specs.Progress.{Progress, progress_code};

use crate::loose::Loose;
use crate::session::Session;
use std::alloc::Global;
use std::marker::Model;

/// The address of a boxed session, or of none. C never looks behind it.
#[repr(C)]
#[derive(Drop)]
pub struct Address {
    pub(crate) at: *mut u8,
    pub(crate) ghost there: { Bool },
    pub(crate) ghost held: { Progress } by { progress_code },
}

impl Model for Address {
    ghost use Rattle.amm_ffi.specs.Behind.{address_owns};

    ghost also_owns = { λ a. address_owns a.there a.at a.held };
}

impl Address {
    /// The address of no session.
    pub(crate) fn none() -> Address
        ensures { result.there ≡ false }
    {
        Address {
            at: std::ptr::null_mut(),
        }
    }

    /// The address of the session in a box, which goes with it.
    pub(crate) fn of(loose: Loose<Session, Global>) -> Address
        ensures { (result.there ≡ true) × (result.held ≡ loose.value) }
    {
        let Loose { at, alloc: _ } = loose;
        Address { at: at as *mut u8 }
    }

    /// The box again.
    pub(crate) fn into_loose(self, alloc: Global) -> Loose<Session, Global>
        requires { self.there ≡ true }
        ensures { result.value ≡ self.held }
    {
        let Address { at } = self;
        Loose {
            at: at as *mut Session,
            alloc,
        }
    }
}
