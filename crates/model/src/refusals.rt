// Why a call is refused: document 01, "Refused because of the input" and "Refused because of the state".
ghost use Rattle.std.specs.Prelude.{◌≡◌};
ghost use Rattle.model.specs.Refusals.{number};

#[derive(Clone, Copy, PartialEq, Eq)]
pub enum Refusal {
    // 1: "zero frames"
    NoFrames,
    // 2: "a frame or end above the top; an address of 2^40 or more; more than 2^40 bytes"
    OutOfBounds,
    // 3: "workspace below 4096 words, or held-list buffer below 2048"
    TooFewWords,
    // 4: "an empty reserved area"
    EmptyReservedArea,
    // 5: "more than 32 reserved areas"
    TooManyReservedAreas,
    // 6: "boot pieces meet one another or a reserved area"
    PiecesMeet,
    // 7: "more than 32 general pieces"
    TooManyPieces,
    // 10: "boot, and any list is not empty"
    NotEmpty,
    // 11: "the list rules below are broken"
    BrokenRules,
    // 12: "address not found"
    NotFound,
    // 13: "address not free"
    NotFree,
    // 14: "no general chunk has the count"
    NoLargeChunk,
    // 15: "*missing*, general-only request; carries frame and count"
    Missing { frame: u64, count: u64 },
    // 16: "growth meets a reserved region"
    MeetsReservedRegion,
    // 17: "two chunks are not enough"
    TooShort,
    // 18: "after the call a list would hold more than 32 (early) or 512 (sorted) entries; early growth also when either reserved list has
    // 32 already"
    NoPlace,
    // 19: "a returned frame is free, or the range isn't wholly in regions of one kind"
    NotHeld,
}

impl Refusal {
    // Its number in the document.
    pub fn number(self) -> u64
        ensures { result ≡ number self }
    {
        match self {
            Refusal::NoFrames => 1,
            Refusal::OutOfBounds => 2,
            Refusal::TooFewWords => 3,
            Refusal::EmptyReservedArea => 4,
            Refusal::TooManyReservedAreas => 5,
            Refusal::PiecesMeet => 6,
            Refusal::TooManyPieces => 7,
            Refusal::NotEmpty => 10,
            Refusal::BrokenRules => 11,
            Refusal::NotFound => 12,
            Refusal::NotFree => 13,
            Refusal::NoLargeChunk => 14,
            Refusal::Missing { .. } => 15,
            Refusal::MeetsReservedRegion => 16,
            Refusal::TooShort => 17,
            Refusal::NoPlace => 18,
            Refusal::NotHeld => 19,
        }
    }
}
