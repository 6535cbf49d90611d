ghost use Rattle.std.specs.Prelude.{◌≡◌, ◌∷◌};
ghost use Rattle.wire_bytes.specs.Crc.{crc};
ghost use Rattle.chunk_files.specs.Layout.{xor};

/// A chunk of a series that is merged. Its data are lent.
#[derive(Clone, Copy)]
pub struct InputChunk<'a> {
    /// XOR data, as blocks store them.
    pub bytes: &'a [u8],
    /// The sum of the encoding and the data, as blocks store it.
    pub sum: u32,
    /// The time of the first sample.
    pub min: i64,
    /// The time of the last sample.
    pub max: i64,
    pub ghost summed: { sum ≡ crc (xor ∷ bytes.now) },
}
