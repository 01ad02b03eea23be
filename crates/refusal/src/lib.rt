// The table of refusals: one number for each meaning, the same in every call, output and format. A number is bound to its meaning by name and
// not by place, so that a new row moves no other. A call that may refuse answers a `Result`, whose number is 0 where it is `Ok`; numbers of
// rules are joined in their order.
#![tactic(auto)]

ghost use Rattle.std.specs.Prelude.{◌≡◌};
ghost use Rattle.refusal.specs.Table.{refusal_number};
ghost use Rattle.refusal.specs.Outcome.{number_of, outcome_unless};

// The number of a call that refuses nothing.
pub const ACCEPTED: u8 = 0;

// The refusals, each bound by name to its meaning and its number.
#[derive(Clone, Copy, Debug, PartialEq, Eq)]
pub enum Refusal {
    // file over the limit
    FileOverLimit = 1,
    // cut short
    CutShort = 2,
    // lead byte not in the subset
    LeadByteUnknown = 3,
    // unsigned above 2,147,483,647
    UnsignedTooLarge = 4,
    // string not UTF-8
    StringNotUtf8 = 5,
    // nested too deep
    NestedTooDeep = 6,
    // too many map entries
    TooManyEntries = 7,
    // key not a string
    KeyNotString = 8,
    // key repeated
    KeyRepeated = 9,
    // outer value not a map
    OuterNotMap = 10,
    // bytes after the outer map
    BytesAfter = 11,
    // required field missing
    FieldMissing = 12,
    // field of the wrong type
    FieldType = 13,
    // column under 12 bytes
    ColumnShort = 14,
    // codec unknown, or not of this kind
    CodecUnknown = 15,
    // header length or parameter out of range
    HeaderRange = 16,
    // payload size wrong
    PayloadSize = 17,
    // payload or column number not allowed
    NumberNotAllowed = 18,
    // produced length differs from the header
    LengthDiffers = 19,
    // counts disagree
    CountsDisagree = 20,
    // index outside its table
    IndexOutside = 21,
    // value outside its list
    ValueOutside = 22,
    // too many group types
    TooManyGroupTypes = 23,
    // major version not 1
    VersionNot1 = 24,
    // lent output too small
    BufferTooSmall = 25,
    // no such field
    NoSuchField = 26,
    // not exact in single precision
    NotExact = 27,
    // no such entry
    NoSuchEntry = 28,
    // receipt malformed
    ReceiptMalformed = 29,
    // job not rising
    JobNotRising = 30,
}

impl Refusal {
    // The number of a refusal.
    pub fn number(self) -> u8
        ensures { result ≡ refusal_number self }
    {
        self as u8
    }
}

// The number of an outcome: 0 where nothing was refused.
pub fn number(outcome: Result<(), Refusal>) -> u8
    ensures { result ≡ number_of outcome }
{
    match outcome {
        Ok(()) => ACCEPTED,
        Err(refusal) => refusal.number(),
    }
}

// The refusal of a rule, unless it holds: one of the table, or its number.
pub fn unless<E: Drop>(holds: bool, refusal: E) -> Result<(), E>
    ensures { result ≡ outcome_unless holds refusal }
{
    if holds {
        return Ok(());
    }
    Err(refusal)
}
