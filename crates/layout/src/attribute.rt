// What a layer's description is made of.
ghost use Rattle.std.specs.Prelude.{◌≡◌};
ghost use Rattle.layout.specs.Channels.{sample_bytes};
ghost use Rattle.layout.specs.Codes.{level_mode, sample_type};
ghost use Rattle.numbers.specs.Codes.{decoded};

pub use blocks::line_order::LineOrder;
use numbers::code::UnknownCode;
use numbers::rounding::RoundingMode;
use numbers::vec2::Vec2;

// What a sample of a channel is.
#[derive(Clone, Copy, PartialEq, Eq, Debug)]
pub enum SampleType {
    U32,
    F16,
    F32,
}

// Which smaller copies of the image are stored beside it.
#[derive(Clone, Copy, PartialEq, Eq, Debug)]
pub enum LevelMode {
    Singular,
    MipMap,
    RipMap,
}

// How an image is cut into tiles, the same at every level.
#[derive(Clone, Copy, PartialEq, Eq, Debug)]
pub struct TileDescription {
    pub tile_size: Vec2<usize>,
    pub level_mode: LevelMode,
    pub rounding_mode: RoundingMode,
}

// How an image is cut into blocks.
#[derive(Clone, Copy, PartialEq, Eq, Debug)]
pub enum BlockDescription {
    ScanLines,
    Tiles(TileDescription),
}

// A channel, and how many pixels of each side share one of its samples.
#[derive(Clone, Copy, PartialEq, Eq, Debug)]
pub struct ChannelDescription {
    pub sample_type: SampleType,
    pub sampling: Vec2<usize>,
}

impl TryFrom<u8> for SampleType {
    type Error = UnknownCode;

    ghost try_from_gives = { λ code result. result ≡ decoded sample_type code };

    fn try_from(code: u8) -> Result<SampleType, UnknownCode> {
        match code {
            0 => Ok(SampleType::U32),
            1 => Ok(SampleType::F16),
            2 => Ok(SampleType::F32),
            _ => Err(UnknownCode(code)),
        }
    }
}

impl SampleType {
    pub fn bytes_per_sample(self) -> usize
        ensures { result ≡ sample_bytes self }
    {
        match self {
            SampleType::U32 | SampleType::F32 => 4,
            SampleType::F16 => 2,
        }
    }
}

impl TryFrom<u8> for LevelMode {
    type Error = UnknownCode;

    ghost try_from_gives = { λ code result. result ≡ decoded level_mode code };

    fn try_from(code: u8) -> Result<LevelMode, UnknownCode> {
        match code {
            0 => Ok(LevelMode::Singular),
            1 => Ok(LevelMode::MipMap),
            2 => Ok(LevelMode::RipMap),
            _ => Err(UnknownCode(code)),
        }
    }
}
