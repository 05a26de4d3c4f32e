//! Frames: the blocks of a data file, uncompressed.

/// The checksum bytes at the start of a frame. Any may stand there; the writer puts zeros.
pub const CHECKSUM_BYTES: u64 = 16;

/// The byte of the compression method NONE (ClickHouse: `CompressionMethodByte::NONE`).
pub const METHOD_NONE: u8 = 2;

/// What a frame's first size counts besides its payload: the method byte and the two sizes.
pub const SIZES_EXTRA: u32 = 9;

/// The bytes of a frame before its payload: checksum, method and two sizes.
pub const HEADER_BYTES: usize = 25;

/// The largest payload of a frame, in bytes: 64 MiB. Larger ones are refused before they are read.
pub const MAX_PAYLOAD: u64 = 67_108_864;

/// The payload of a frame that the writer makes, in bytes: 1 MiB, but for the last of a granule
/// (ClickHouse: `max_compress_block_size`).
pub const FRAME_PAYLOAD: usize = 1_048_576;

/// A frame of a data file (docs/FORMAT.md, "Frames"; ClickHouse: a block of `CompressedReadBuffer`).
#[derive(Clone, Copy, Debug, PartialEq)]
pub struct Frame {
    /// Where it begins in the file, in bytes.
    pub offset: u64,
    /// The length of its payload, in bytes, from 1 to `MAX_PAYLOAD`.
    pub payload: u64,
}
