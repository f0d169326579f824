// The second step of a synthesis frame over the configuration: the DCT's values to samples and
// memory. The gain and the window are picked here.
// Ported from src/decoder/modified_dct.rs of lc3-codec 0.2.0, and changed: a configuration number
// picks the gain and the window, and the work area is the function's own.

#![tactic(auto)]

ghost use Rattle.std.specs.Prelude.{◌≡◌, ◌-◌, T, length};
ghost use Rattle.config.specs.Config.{valid, nf, z};
ghost use Rattle.synthesis_steps.specs.Places.{output, remains};
ghost use Rattle.synthesis_overlap.specs.Overlap.{spread};

// The samples and the memory of a frame of 20 values, which configuration 15 alone has; its z is 0.
// Setting up a loop as short as these costs more than running it: called from here, the compiler
// knows how often each goes round.
fn overlap_20(c: u8, memory: &mut [f32], samples: &mut [f32])
    requires { (length memory.old ≡ nf c - z c) × (length samples.old ≡ nf c) × (c ≡ 15) }
    ensures memory { memory.new ≡ remains (nf c) (z c) (spread c samples.old) }
    ensures samples { samples.new ≡ output (nf c) (z c) memory.old (spread c samples.old) }
{
    let w = windows::window(15);
    let mut v = [0.0f32; 20];
    synthesis_steps::scaled(samples, gains::gain(20), &mut v);
    synthesis_steps::overlapped(&v, w, memory, samples, 0, 10);
    synthesis_steps::remaining(&v, w, memory, 0, 10);
}

// The samples and the memory of a frame of N values. There is a function for each N, so that the
// work area of one is on the stack at a time.
#[inline(never)]
fn overlap_by<const N: usize>(c: u8, memory: &mut [f32], samples: &mut [f32])
    requires { (length memory.old ≡ nf c - z c) × (length samples.old ≡ nf c) × T (valid c) × (nf c ≡ N) }
    ensures memory { memory.new ≡ remains (nf c) (z c) (spread c samples.old) }
    ensures samples { samples.new ≡ output (nf c) (z c) memory.old (spread c samples.old) }
{
    let mut v = [0.0f32; N];
    let w = windows::window(c);
    synthesis_frame::overlap_add(
        &mut v,
        w,
        memory,
        samples,
        gains::gain(N),
        config::z(c),
        N / 2,
    );
}

// Inner. The samples and the memory of any frame. A match, since a const parameter is no value.
pub fn overlap_of(c: u8, memory: &mut [f32], samples: &mut [f32])
    requires { (length memory.old ≡ nf c - z c) × (length samples.old ≡ nf c) × T (valid c) }
    ensures memory { memory.new ≡ remains (nf c) (z c) (spread c samples.old) }
    ensures samples { samples.new ≡ output (nf c) (z c) memory.old (spread c samples.old) }
{
    match samples.len() {
        20 => overlap_20(c, memory, samples),
        40 => overlap_by::<40>(c, memory, samples),
        60 => overlap_by::<60>(c, memory, samples),
        80 => overlap_by::<80>(c, memory, samples),
        120 => overlap_by::<120>(c, memory, samples),
        160 => overlap_by::<160>(c, memory, samples),
        180 => overlap_by::<180>(c, memory, samples),
        240 => overlap_by::<240>(c, memory, samples),
        320 => overlap_by::<320>(c, memory, samples),
        360 => overlap_by::<360>(c, memory, samples),
        _ => overlap_by::<480>(c, memory, samples),
    }
}
