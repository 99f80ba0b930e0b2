// Why a call says no.
ghost use Rattle.std.specs.Prelude.{◌≡◌};
ghost use Rattle.refusals.specs.Said.{number, blocks_short, passed_on};

// Why a call says no, in the order of document 01's numbers.
#[derive(Clone, Copy)]
pub enum Refusal {
    // 1: packed bytes are not whole blocks.
    NotWholeBlocks,
    // 2: a float count or in_feat is not a multiple of the block's values.
    NotAMultiple,
    // 3: fewer weights than needed. Packed weights are counted, by the whole blocks that were found and that are needed;
    // of floats, and in a `_cpu` layer, both counts are 0.
    WeightsShort { found: usize, needed: usize },
    // 4: fewer readings than needed; in the `_cpu` layers, any other length; too many for one activation block.
    ReadingsShort,
    // 5: output, scratch, slots or marks too short; in the `_cpu` layers, an output of any other length.
    RoomShort,
    // 6: over a size that the call takes; a layer record's in_feat or out_feat out of range.
    TooLarge,
    // 7: an activation block whose sums are not the sums of its 32s.
    WrongSums,
    // 8: a row or chunk outside the layer.
    Outside,
    // 9: that piece is already done.
    AlreadyDone,
    // 10: a row is closed while a piece of it is open.
    PieceOpen,
    // 11: a record is malformed.
    Malformed,
    // 12: unknown record kind or weight format.
    Unknown,
    // 13: a window still has warm-up readings.
    WarmUp,
    // 14: more weights than needed, in a `_cpu` layer.
    WeightsLong,
    // 15: an activation block that was not made of n readings, or has a quant past its count that is not 0.
    WrongCount,
}

impl Refusal {
    // Its number in document 01, and 14 and 15 in document 02.
    pub fn number(self) -> u32
        ensures { result ≡ number self }
    {
        match self {
            Refusal::NotWholeBlocks => 1,
            Refusal::NotAMultiple => 2,
            Refusal::WeightsShort { .. } => 3,
            Refusal::ReadingsShort => 4,
            Refusal::RoomShort => 5,
            Refusal::TooLarge => 6,
            Refusal::WrongSums => 7,
            Refusal::Outside => 8,
            Refusal::AlreadyDone => 9,
            Refusal::PieceOpen => 10,
            Refusal::Malformed => 11,
            Refusal::Unknown => 12,
            Refusal::WarmUp => 13,
            Refusal::WeightsLong => 14,
            Refusal::WrongCount => 15,
        }
    }
}

// Fewer weights than needed, which are not counted in blocks.
pub const WEIGHTS_SHORT: Refusal = Refusal::WeightsShort {
    found: 0,
    needed: 0,
};

// Fewer packed weights than needed, by whole blocks.
pub fn blocks_short(found: usize, needed: usize) -> Refusal
    ensures { result ≡ blocks_short found needed }
{
    Refusal::WeightsShort { found, needed }
}

// What a call that gives nothing says of one that it rests on: its refusal is passed on.
pub fn passed_on<T: Drop>(answer: Result<T, Refusal>) -> Result<(), Refusal>
    ensures { result ≡ passed_on answer }
{
    match answer {
        Ok(_) => Ok(()),
        Err(refusal) => Err(refusal),
    }
}
