// Why a call was turned down: by which rule, in which module and about which place.
ghost use Rattle.std.specs.Prelude.{◌≡◌};
ghost use Rattle.numbers.specs.Refusals.{kind_of, module_number, number_of};

// The rules that a call can break. docs/RULES.md says each in full, under the number given here.
#[derive(Clone, Copy, PartialEq, Eq, Debug)]
pub enum Reason {
    NumberOutOfRange = 1,
    PositionPastTotal = 2,
    LevelIndexTooLarge = 3,
    DeepLayer = 4,
    WindowOutOfRange = 5,
    UnspecifiedLineOrder = 6,
    EmptySide = 7,
    BlockSideOutOfRange = 8,
    ChannelCount = 9,
    SamplingOutOfRange = 10,
    SamplingOnTiles = 11,
    SamplingNotDividing = 12,
    Subsampled = 13,
    WrongChunkCount = 14,
    NoSuchTile = 15,
    PositionTooLarge = 16,
    LineDistanceTooLarge = 17,
    LineAboveLayer = 18,
    TotalTooLarge = 19,
    UnreadableBytes = 20,
    NoBlockThere = 21,
    TableLength = 22,
    NoSuchBlock = 23,
    SlotFilled = 24,
    EmptyEntry = 25,
    EmptySlot = 26,
    FirstOffset = 27,
    DataLength = 28,
    FileEnd = 29,
    NotAllowedNow = 30,
}

// The module that refused: that of the innermost call that made the test.
#[derive(Clone, Copy, PartialEq, Eq, Debug)]
pub enum Module {
    Numbers = 1,
    Sides = 2,
    Schemes = 3,
    Layers = 4,
    Prefixes = 5,
    Slots = 6,
    Frames = 7,
    Program = 8,
}

// Whether the input contradicts itself or the limits, or asks for what this part leaves out.
#[derive(Clone, Copy, PartialEq, Eq, Debug)]
pub enum Kind {
    Invalid,
    NotSupported,
}

#[derive(Clone, Copy, PartialEq, Eq, Debug)]
pub struct Refusal {
    pub reason: Reason,
    pub module: Module,
    // The channel or slot, from 0, that the refusal is about; 0 where it is about none.
    pub place: usize,
}

impl Refusal {
    // About no place in particular.
    pub fn new(reason: Reason, module: Module) -> Refusal
        ensures { result ≡ record { reason = reason; «module» = «module»; place = 0 } }
    {
        Refusal {
            reason,
            module,
            place: 0,
        }
    }

    pub fn number(self) -> u8
        ensures { result ≡ number_of self.reason }
    {
        self.reason as u8
    }

    pub fn module_number(self) -> u8
        ensures { result ≡ module_number self.«module» }
    {
        self.module as u8
    }

    pub fn kind(self) -> Kind
        ensures { result ≡ kind_of (number_of self.reason) }
    {
        match self.reason {
            Reason::DeepLayer | Reason::Subsampled => Kind::NotSupported,
            _ => Kind::Invalid,
        }
    }
}
