// Text in the room that C gives.
ghost use Rattle.std.specs.Prelude.{◌≡◌};
ghost use Rattle.amm_ffi.specs.Progress.{over};

/// Copies the text to the front of the room, as much of it as fits.
#[tactic(auto, unfolding(crate::specs::Progress::over))]
pub(crate) fn copy(text: &[u8], room: &mut [u8])
    ensures { room.new ≡ over text.now room.old }
{
    if text.len() <= room.len() {
        room[..text.len()].copy_from_slice(text);
    } else {
        room.copy_from_slice(&text[..room.len()]);
    }
}
