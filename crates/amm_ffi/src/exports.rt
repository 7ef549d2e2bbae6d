// The calls of a session.
ghost use Rattle.std.specs.Prelude.{◌≡◌, IfSome, None, Some};
ghost use Rattle.amm_ffi.specs.Progress.{opening};
ghost use Rattle.amm_ffi.specs.Sessions.{Answers, Gives, Opens, Repeats, Takes, progress_of};

use crate::copied::copy;
use crate::handle::Handle;
use crate::outcome::{Answered, DONE, MEMORY, OPEN, SHUT};
use crate::session::Session;
use std::alloc::Global;

/// A boxed session on the opening ledger.
fn boxed(alloc: Global) -> Option<Box<Session>>
    ensures { IfSome result (λ session. session.value ≡ opening) }
{
    match Session::new(alloc) {
        Ok(session) => Box::new(alloc, session).ok(),
        Err(_) => None,
    }
}

/// Copies as much of the last reply as fits.
fn give(session: &Session, room: &mut [u8]) -> Answered
    ensures { Gives session.now.reply room.old result room.new }
{
    let reply = session.reply();
    copy(reply, room);
    Answered {
        status: DONE,
        length: reply.len(),
    }
}

/// Answers a line in a session, and gives the reply.
fn answer(alloc: Global, session: &mut Session, line: &[u8], room: &mut [u8]) -> Answered
    ensures { Takes session.old line.now room.old result (Some session.new) room.new }
{
    match session.answer(alloc, line) {
        Ok(()) => give(session, room),
        Err(why) => {
            Answered {
                status: why.status(),
                length: 0,
            }
        }
    }
}

/// Opens a session on the opening ledger.
#[unsafe(no_mangle)]
pub extern "C" fn exchange_open(alloc: Global, handle: &mut Handle) -> u8
    ensures { Opens (progress_of handle.old) result (progress_of handle.new) }
{
    if handle.is_open {
        return OPEN;
    }
    match boxed(alloc) {
        Some(session) => {
            *handle = Handle::of(session);
            DONE
        }
        None => MEMORY,
    }
}

/// Answers one line, keeps the reply, and copies as much of it as fits. A line that is not answered
/// changes nothing.
#[unsafe(no_mangle)]
pub extern "C" fn exchange_answer(
    alloc: Global,
    handle: &mut Handle,
    line: &[u8],
    room: &mut [u8],
) -> Answered
    ensures { Answers (progress_of handle.old) line.now room.old result (progress_of handle.new) room.new }
{
    let Some(mut session) = handle.take(alloc) else {
        return Answered {
            status: SHUT,
            length: 0,
        };
    };
    let answered = answer(alloc, &mut session, line, room);
    *handle = Handle::of(session);
    answered
}

/// Copies as much of the last reply as fits.
#[unsafe(no_mangle)]
pub extern "C" fn exchange_reply(alloc: Global, handle: &mut Handle, room: &mut [u8]) -> Answered
    ensures { Repeats (progress_of handle.old) room.old result (progress_of handle.new) room.new }
{
    let Some(session) = handle.take(alloc) else {
        return Answered {
            status: SHUT,
            length: 0,
        };
    };
    let answered = give(&session, room);
    *handle = Handle::of(session);
    answered
}

/// Ends the session, where there is one, and gives its memory back.
#[unsafe(no_mangle)]
pub extern "C" fn exchange_close(alloc: Global, handle: &mut Handle)
    ensures { progress_of handle.new ≡ None }
{
    let _session = handle.take(alloc);
}
