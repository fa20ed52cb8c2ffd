// What the calls answer. The table itself stands in memory as words (crate `words`). All that is said of them is in specs/.

#![tactic(auto)]

ghost use Rattle.std.specs.Prelude.{◌≡◌};
ghost use Rattle.table.specs.Answer.{number, ending_number};

// Why a call is refused, by the numbers of document 01, "Reasons for no", and of document 02.
#[derive(Clone, Copy, PartialEq, Eq)]
pub enum Refusal {
    // Table not sound.
    NotSound = 1,
    // Capacity not 1 to 128.
    BadCapacity = 2,
    // Step not in use.
    NotInUse = 3,
    // Exit above 3.
    BadExit = 4,
    // Exit to be filled holds a link.
    ExitFilled = 5,
    // Exit to copy or clear is empty.
    ExitEmpty = 6,
    // Kind not 1 to 3, or content out of range.
    BadKind = 7,
    // Steps in use equal the capacity.
    Full = 8,
    // Not a key line.
    NotKeyLine = 9,
    // Some line result is above 3.
    BadResult = 10,
    // A lent buffer is too short.
    TooShort = 11,
    // Not an image that is accepted.
    NotAccepted = 12,
    // The capacity is below the steps in use (document 02, W2), or the charges do not fit the new quotas (W5).
    DoesNotFit = 13,
    // The cabin is at its limit (W5).
    CabinAtLimit = 14,
    // Only steps reserved for other cabins are free (W5).
    StepsReserved = 15,
    // A cabin above 7, or a bad list of guarantees and limits (W5).
    BadCabins = 16,
    // An image needs edition 2: edition 1 cannot say its cabins, guarantees or limits (W6), or a contact (W9).
    NeedsEdition2 = 17,
    // A slip is not accepted (W7).
    SlipNotAccepted = 18,
    // A cabin above 15, on the line (W11).
    NoSuchCabin = 20,
    // Nobody waits for the line (W11).
    NobodyWaits = 21,
}

impl From<Refusal> for u16 {
    ghost from_gives = { λ why n. n ≡ number why };

    fn from(why: Refusal) -> u16 {
        why as u16
    }
}

// The answer of a call: two numbers, or why it is refused.
pub type Answer = Result<(u16, u16), Refusal>;

// All fields of one step.
#[derive(Clone, Copy, PartialEq, Eq)]
pub struct Fields {
    pub kind: u16,
    pub content: u16,
    pub own: u16,
    pub targets: [u16; 4],
    pub bits: [u16; 4],
    pub counts: [u16; 2],
    pub cabin: u16,
}

// How a trial ends: at an empty exit, at a contact with no result left, or at its limit of moves.
#[derive(Clone, Copy, PartialEq, Eq)]
pub enum Ending {
    Open,
    Spent,
    Stopped,
}

impl From<Ending> for u16 {
    ghost from_gives = { λ ending n. n ≡ ending_number ending };

    fn from(ending: Ending) -> u16 {
        ending as u16
    }
}

// Where a trial ends: how, the last step and the moves made.
#[derive(Clone, Copy, PartialEq, Eq)]
pub struct End {
    pub ending: Ending,
    pub last: u16,
    pub moves: u16,
}
