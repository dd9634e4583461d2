// Shared by the readers of every format: the limits and refusals of document 01, the result of a reading, and the answer of a check.
#![tactic(auto)]

ghost use Rattle.std.specs.Prelude.{◌≡◌};
ghost use Rattle.reading.specs.Checks.{refusal, checked};
ghost use Rattle.reading.specs.Refusals.{number};

// The limits of document 01: the octets of a message, its depth, and the largest message number.
pub const MESSAGE_LIMIT: usize = 65536;

pub const DEPTH_LIMIT: u64 = 8;

pub const LAST_NUMBER: u64 = 15;

// The refusals of documents 01 and 02, by their numbers.
#[derive(Clone, Copy, Debug, PartialEq, Eq)]
pub enum Refusal {
    // A message or a buffer over the length limit, or a frame that announces such a message.
    TooLong = 1,
    // A faulty field table or dictionary, a number that is no revision, or a message number over the last.
    Table,
    // Octets that end inside a control part, header, name, size, hint or FID.
    Cut,
    // Contents, or the padding after them, that would end after the message around them.
    PastTheEnd,
    // Messages nested nine deep.
    TooDeep,
    // A number of more than eight octets.
    NumberTooWide,
    // Contents that are not text.
    Text,
    // A field to write whose tag the table does not have in that message, or has with another kind.
    TagOrKind,
    // More octets to write than are free.
    NoRoom,
    // A writer's state that is not sound, or another buffer.
    State,
    // A close with no field open.
    NothingOpen,
    // A finish with a field open.
    StillOpen,
    // Another magic number or version of a message of a Tib format.
    Magic,
    // A size in a header of a Tib format that is not that of the buffer, or octets after the second frame.
    Size,
    // A bad name.
    Name,
    // A type, a size or a hint against the rules, or a FID without both flags.
    TypeSizeOrHint,
    // A real that cannot be read in fractions, or in decimals.
    NotInFractions,
    // No such field.
    Absent,
    // A field whose fid the dictionary does not have.
    NotInDictionary,
    // A field that repeats a single one.
    Repeated,
}

impl Refusal {
    // Returns the number of a refusal.
    pub fn number(self) -> u64
        ensures { result ≡ number self }
    {
        self as u64
    }
}

// Why octets are rejected, and the offset of the fault.
#[derive(Clone, Copy, Debug, PartialEq, Eq)]
pub struct Fault {
    pub refusal: Refusal,
    pub place: u64,
}

impl Refusal {
    // Returns this refusal at an offset.
    pub fn at(self, place: u64) -> Fault
        ensures { result ≡ record { refusal = self; place = place } }
    {
        Fault {
            refusal: self,
            place,
        }
    }
}

// The count of an accepted message's fields at all depths, and the depth of its deepest message.
#[derive(Clone, Copy, Debug, PartialEq, Eq)]
pub struct Counts {
    pub fields: u64,
    pub depth: u64,
}

// The answer of a check: a refusal number (0 if the message is accepted), the place of the fault, and for an accepted message the count of
// fields at all depths and the depth of the deepest message.
#[derive(Clone, Copy)]
pub struct Checked {
    pub refusal: u64,
    pub place: u64,
    pub fields: u64,
    pub depth: u64,
}

// Returns the answer for a message that is rejected, by the number of the refusal and its place.
#[tactic(auto, unfolding(crate::specs::Checks::refusal))]
pub fn refused(reason: u64, place: u64) -> Checked
    ensures { result ≡ refusal reason place }
{
    Checked {
        refusal: reason,
        place,
        fields: 0,
        depth: 0,
    }
}

// The answer for a message that is rejected.
impl From<Fault> for Checked {
    ghost from_gives = { λ fault answer. answer ≡ refusal (number fault.refusal) fault.place };

    fn from(fault: Fault) -> Checked {
        refused(fault.refusal.number(), fault.place)
    }
}

// The answer in numbers, by the result of a check.
impl From<Result<Counts, Fault>> for Checked {
    ghost from_gives = { λ r answer. answer ≡ checked r };

    fn from(read: Result<Counts, Fault>) -> Checked {
        match read {
            Ok(counts) => Checked {
                refusal: 0,
                place: 0,
                fields: counts.fields,
                depth: counts.depth,
            },
            Err(fault) => Checked::from(fault),
        }
    }
}
