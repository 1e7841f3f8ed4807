// Why a reader turns a film away (document 01, and 02 from 60 on). The number of each is what the C interface hands out.
ghost use Rattle.std.specs.Prelude.{◌≡◌};
ghost use Rattle.base_fields.specs.Refusal.{number};

#[derive(Clone, Copy, Debug, PartialEq, Eq)]
pub enum Refusal {
    // Atoms.
    HeaderCut = 1,
    ExtendedSizeCut = 2,
    SmallSize = 3,
    SmallExtendedSize = 4,
    FarEnd = 5,
    ChildPastParent = 6,
    OpenChild = 7,
    OpenBody = 8,
    BodyOverLimit = 9,
    BodyOverEnvelope = 10,
    BodyCut = 11,
    // Sample tables.
    ShortTable = 20,
    NoParameter = 21,
    NoCount = 22,
    RowsCut = 23,
    PatternLengthCut = 24,
    PatternCountCut = 25,
    PatternLengthZero = 26,
    IndexCut = 27,
    RowCountOver = 28,
    NoRecordLeft = 29,
    // Group descriptions.
    ShortSgpd = 30,
    NoDefaultIndex = 31,
    NoEntryCount = 32,
    NoEntryLength = 33,
    ZeroShare = 34,
    EntryCut = 35,
    // Typed entries.
    ShortEntry = 40,
    NoPoints = 41,
    PointCut = 42,
    TrailerCut = 43,
    OffsetsCut = 44,
    PiecesCut = 45,
    // The cue listing.
    NoTable = 50,
    SecondTable = 51,
    NoSgpd = 52,
    SecondSgpd = 53,
    OutputTooShort = 54,
    // Every function with an input.
    InputTooLong = 55,
    // The search for a track's stbl.
    NoTrack = 60,
    NoContainer = 61,
    // Where decoding begins.
    FrameNotCovered = 62,
    // Tables that are written.
    LengthDisagrees = 63,
    OutputShorter = 64,
    // Sync and dependency tables.
    SyncTableCut = 65,
    SyncNotRising = 66,
    // Marks of a csgp.
    IndexTooLarge = 67,
    // Rows repainted.
    NoStretch = 70,
    // A queue of fragments.
    QueueFull = 71,
    QueueEmpty = 72,
    NotInQueue = 73,
}

impl Refusal {
    // The number of document 01.
    pub fn number(self) -> u32
        ensures { result ≡ number self }
    {
        self as u32
    }
}

impl From<Refusal> for u32 {
    ghost from_gives = { λ refusal n. n ≡ number refusal };

    fn from(refusal: Refusal) -> u32 {
        refusal.number()
    }
}
