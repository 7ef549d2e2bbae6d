// Handles that are made, and the session taken out of one.
ghost use Rattle.std.specs.Prelude.{◌≡◌, None, Some};
ghost use Rattle.amm_ffi.specs.Sessions.{progress_of, value_in};

use crate::address::Address;
use crate::handle::Handle;
use crate::loose::Loose;
use crate::session::Session;
use std::alloc::Global;
use std::mem::replace;

impl Handle {
    /// A handle of no session.
    pub(crate) fn shut() -> Handle
        ensures { progress_of result ≡ None }
    {
        Handle {
            address: Address::none(),
            is_open: false,
        }
    }

    /// A handle of this session.
    pub(crate) fn of(session: Box<Session>) -> Handle
        ensures { progress_of result ≡ Some session.value }
    {
        Handle {
            address: Address::of(Loose::of(session)),
            is_open: true,
        }
    }

    /// Takes the session out, and leaves the handle shut.
    pub(crate) fn take(&mut self, alloc: Global) -> Option<Box<Session>>
        ensures rest { progress_of self.new ≡ None }
        ensures taken { value_in result ≡ progress_of self.old }
    {
        let Handle { address, is_open } = replace(self, Handle::shut());
        if is_open {
            Some(address.into_loose(alloc).into_box())
        } else {
            None
        }
    }
}
