// The numbers a caller can get back.
ghost use Rattle.std.specs.Prelude.{◌≡◌};
ghost use Rattle.tables.specs.Refusals.{number_of, carried_by};

#[derive(Clone, Copy, Debug, PartialEq, Eq)]
pub enum Refusal {
    // 1: N is 0 or over 1,024
    Scans,
    // 2: Q is 0 or over 16
    Settings,
    // 3: law is not 0, 1 or 2
    StepLaw,
    // 4: n or d outside its range
    Multiplier,
    // 5: rate or distortion table not of the exact length
    Lengths,
    // 6: a lent buffer shorter than needed
    Buffer,
    // 7: illegal cell; the lowest one's number
    Cell(u64),
    // 8: no allowed sequence, whatever the limit
    NoSequence,
    // 9: allowed sequences exist, none within ceiling or budget
    NoneWithin,
    // 10: C is 0 or over 1,048,576
    Channels,
    // 11: file length not 1,024 or 1,536
    FileLength,
    // 12: a block's number or check is wrong; the lowest such block
    Block(u64),
    // 13: a header field breaks its rule; the lowest byte of the first such field
    Header(u64),
    // 14: an entry or filler breaks its rule; its entry number
    Entry(u64),
    // 16: a line of a list is malformed; its number from 1
    Malformed(u64),
    // 17: a number of a line is out of range; the line's number
    OutOfRange(u64),
    // 18: a line names a cell that one before it named; the line's number
    Twice(u64),
    // 19: B over 4,095 where the true best is asked
    Budget,
}

// The documents' number of a refusal.
pub fn number(r: Refusal) -> u64
    ensures { result ≡ number_of r }
{
    match r {
        Refusal::Scans => 1,
        Refusal::Settings => 2,
        Refusal::StepLaw => 3,
        Refusal::Multiplier => 4,
        Refusal::Lengths => 5,
        Refusal::Buffer => 6,
        Refusal::Cell(_) => 7,
        Refusal::NoSequence => 8,
        Refusal::NoneWithin => 9,
        Refusal::Channels => 10,
        Refusal::FileLength => 11,
        Refusal::Block(_) => 12,
        Refusal::Header(_) => 13,
        Refusal::Entry(_) => 14,
        Refusal::Malformed(_) => 16,
        Refusal::OutOfRange(_) => 17,
        Refusal::Twice(_) => 18,
        Refusal::Budget => 19,
    }
}

// What a refusal carries; 0 where it carries nothing.
pub fn carried(r: Refusal) -> u64
    ensures { result ≡ carried_by r }
{
    match r {
        Refusal::Cell(k)
        | Refusal::Block(k)
        | Refusal::Header(k)
        | Refusal::Entry(k)
        | Refusal::Malformed(k)
        | Refusal::OutOfRange(k)
        | Refusal::Twice(k) => k,
        Refusal::Scans
        | Refusal::Settings
        | Refusal::StepLaw
        | Refusal::Multiplier
        | Refusal::Lengths
        | Refusal::Buffer
        | Refusal::NoSequence
        | Refusal::NoneWithin
        | Refusal::Channels
        | Refusal::FileLength
        | Refusal::Budget => 0,
    }
}
