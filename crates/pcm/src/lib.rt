//! Samples as bytes: little-endian signed 16-bit numbers, four steps of the filter to one step of a sample.
#![tactic(auto)]

ghost use Rattle.std.specs.Prelude.{◌≡◌, slice_index};
ghost use Rattle.pcm.specs.Samples.{sample_wave, sample_bytes};

/// How many steps of a wave make one step of a sample.
pub const SAMPLE_SCALE: i32 = 4;

/// The wave that a sample is fed as.
pub fn wave_of(sample: [u8; 2]) -> i32
    ensures { result ≡ sample_wave (slice_index sample 0) (slice_index sample 1) }
{
    SAMPLE_SCALE * i16::from_le_bytes(sample) as i32
}

/// The sample that a heard wave is written as: the wave's fraction is dropped, and its size held within a sample's.
pub fn bytes_of(heard: i32) -> [u8; 2]
    ensures { result ≡ sample_bytes heard }
{
    let held = (heard / SAMPLE_SCALE).clamp(i16::MIN as i32, i16::MAX as i32);
    (held as i16).to_le_bytes()
}
