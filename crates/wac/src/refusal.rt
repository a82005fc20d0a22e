// Why a call is refused: rows 10 to 16 and 24 of document 01, "What comes back".
ghost use Rattle.std.specs.Prelude.{◌≡◌};
ghost use Rattle.wac.specs.Answers.{number_of, record_of};

// A refusal; `number_of` gives its number.
#[derive(Clone, Copy)]
pub enum Refusal {
    // The file is under 6 bytes.
    Short,
    // The mark is not WAC.
    NotWac,
    // The version is not 1.
    Version,
    // The count is above 128; or the file is full and cannot be appended to.
    TooMany,
    // The length is not 6 + 18 × count.
    Length,
    // The record with this number is against the table.
    Against(usize),
    // The writer's used length is past the buffer, or under 18 bytes are left after it.
    Room,
    // The number is not below the count.
    NoSuch,
}

// The refusal's number. A function and no From: a refusal has two numbers, this and its record's.
pub fn number_of(why: Refusal) -> u8
    ensures { result ≡ number_of why }
{
    match why {
        Refusal::Short => 10,
        Refusal::NotWac => 11,
        Refusal::Version => 12,
        Refusal::TooMany => 13,
        Refusal::Length => 14,
        Refusal::Against(_) => 15,
        Refusal::Room => 16,
        Refusal::NoSuch => 24,
    }
}

// The record's number that the refusal returns, and 0 where it returns none: C's codes and the printed lines
// have 0 there (`record_of`).
pub fn record_of(why: Refusal) -> usize
    ensures { result ≡ record_of why }
{
    match why {
        Refusal::Against(n) => n,
        _ => 0,
    }
}
