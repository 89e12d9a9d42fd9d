// The limits of F, W, T and N.
ghost use Rattle.std.specs.Prelude.{◌+◌, ◌≤◌, length};
ghost use Rattle.calls.specs.Lines.{Puts};
ghost use Rattle.faultwords.specs.PlanFaults.{frame_faults};

// Tells which of them are broken.
pub(crate) fn tell_frame(
    slots: usize,
    frames: usize,
    buffer: usize,
    found: &mut [usize],
    at: usize,
) -> usize
    requires { (slots ≤ 999999999) × (frames ≤ 999999999) × (at + 12 ≤ length found.old) }
    ensures put { Puts (frame_faults slots frames buffer) found.old found.new at result }
    ensures most { result ≤ at + 12 }
{
    let window = slots * frames;
    let after_slots = faults::tell_if(!limits::slots_fit(slots), 3, 0, slots, found, at);
    let after_frames = faults::tell_if(
        !limits::frames_fit(frames),
        3,
        1,
        frames,
        found,
        after_slots,
    );
    let after_window = faults::tell_if(
        limits::many_positions(window),
        3,
        2,
        window,
        found,
        after_frames,
    );
    faults::tell_if(
        !limits::buffer_fits(buffer),
        3,
        3,
        buffer,
        found,
        after_window,
    )
}
