//! Why a substream's bytes aren't read, as a fault's reason.

ghost use Rattle.std.specs.Prelude.{◌≡◌};
ghost use Rattle.mt_granules.specs.FileFaults.{codec_why};

use mt_codec::CodecWhy;
use mt_fault::Why;

/// What is wrong with the bytes of a substream, as a fault's reason.
pub fn codec_why(why: CodecWhy) -> Why
    ensures { result ≡ codec_why why }
{
    match why {
        CodecWhy::Short => Why::Short,
        CodecWhy::Over => Why::Over,
        CodecWhy::Length => Why::Length,
        CodecWhy::NullByte => Why::NullByte,
        CodecWhy::HasByte => Why::HasByte,
        CodecWhy::TooLong => Why::TooLong,
    }
}
