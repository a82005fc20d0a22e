// The permitted numbers of each byte of a record, and the one check that reads them.
ghost use Rattle.std.specs.Prelude.{◌≡◌, ◌+◌, ◌<◌, ◌≤◌, length, take};
ghost use Rattle.wac.specs.Limits.{certificates, record_bytes};
ghost use Rattle.wac.specs.File.{place_of, record_at};
ghost use Rattle.wac.specs.Ranges.{range_at, row_of, in_range, spare, byte_ok, record_ok, ranged};

use crate::limits::Table;

// The least and the greatest number that a byte may have. No RangeInclusive: the definitions speak of
// these two numbers (`in_range`), and one that is iterated has a third part.
#[derive(Clone, Copy)]
pub struct Range {
    pub least: u8,
    pub greatest: u8,
}

// The limits are usize (`table_limits`), and no From leads from there to a byte: hence `as`.
const NAME: Range = Range {
    least: Table::NAME as u8,
    greatest: Table::NAME as u8,
};

const AUTHORIZATION: Range = Range {
    least: Table::AUTHORIZATION as u8,
    greatest: Table::AUTHORIZATION as u8,
};

const KEY: Range = Range {
    least: 0,
    greatest: (Table::KEYS - 1) as u8,
};

const IDENTIFIER: Range = Range {
    least: 0,
    greatest: (Table::IDENTIFIERS - 1) as u8,
};

const NUMBER: Range = Range {
    least: 0,
    greatest: Table::SUBJECT_IDS as u8,
};

const DELEGATE: Range = Range {
    least: Table::DELEGATE as u8,
    greatest: Table::DELEGATE as u8,
};

const MARK: Range = Range {
    least: Table::DELEGATE as u8,
    greatest: Table::ACCESS as u8,
};

const NO_MARK: Range = Range {
    least: Table::UNUSED as u8,
    greatest: Table::UNUSED as u8,
};

const RIGHTS: Range = Range {
    least: 0,
    greatest: Table::ALL_RIGHTS as u8,
};

const NO_RIGHTS: Range = Range {
    least: 0,
    greatest: 0,
};

// How many bytes of a record the table permits numbers for; the dates after them may be any.
const RANGED: usize = 10;

// The permitted numbers of each byte: a row for names, a row for authorizations.
const RANGES: [[Range; RANGED]; 2] = [
    [
        NAME, KEY, IDENTIFIER, KEY, NUMBER, IDENTIFIER, IDENTIFIER, IDENTIFIER, NO_MARK, NO_RIGHTS,
    ],
    [
        AUTHORIZATION,
        KEY,
        DELEGATE,
        KEY,
        NUMBER,
        IDENTIFIER,
        IDENTIFIER,
        IDENTIFIER,
        MARK,
        RIGHTS,
    ],
];

// The byte that holds the subject's number of identifiers, and the three that hold them.
const NUMBER_AT: usize = 4;

const IDS_FROM: usize = 5;

const IDS_TO: usize = 8;

// The range of byte i in a record of this kind.
#[tactic(auto, unfolding(crate::specs::Ranges::range_at, crate::specs::Ranges::names, crate::specs::Ranges::authorizations))]
fn range_at(kind: u8, i: usize) -> Range
    requires { i < ranged }
    ensures { result ≡ range_at (row_of kind) i }
{
    if kind == Table::AUTHORIZATION as u8 {
        RANGES[1][i]
    } else {
        RANGES[0][i]
    }
}

// Does the number lie in the range?
fn within(range: Range, b: u8) -> bool
    ensures { result ≡ in_range range b }
{
    range.least <= b && b <= range.greatest
}

// Is byte i one of the three for identifiers, and past the subject's number of them?
#[tactic(auto, unfolding(crate::specs::Ranges::spare))]
fn is_spare(number: u8, i: usize) -> bool
    ensures { result ≡ spare number i }
{
    i < IDS_TO && IDS_FROM + usize::from(number) <= i
}

// Is byte i of the record as the table says?
#[tactic(auto, unfolding(crate::specs::Ranges::byte_ok))]
fn byte_ok(bytes: &[u8; Table::RECORD], i: usize) -> bool
    requires { i < ranged }
    ensures { result ≡ byte_ok bytes.now i }
{
    if is_spare(bytes[NUMBER_AT], i) {
        bytes[i] == Table::UNUSED as u8
    } else {
        within(range_at(bytes[0], i), bytes[i])
    }
}

// Does the record keep to the table?
#[tactic(auto, using(crate::proofs::Tests::all_below_true, crate::proofs::Tests::all_below_false), unfolding(crate::specs::Ranges::record_ok))]
pub fn record_ok(bytes: &[u8; Table::RECORD]) -> bool
    ensures { result ≡ record_ok bytes.now }
{
    for i in 0..RANGED {
        if !byte_ok(bytes, i) {
            return false;
        }
    }
    true
}

// The bytes of record n.
pub fn record_at(file: &[u8], n: usize) -> [u8; Table::RECORD]
    requires { (n < certificates) × (place_of (n + 1) ≤ length file.now) }
    ensures { result ≡ take record_bytes (record_at file.now n) }
{
    let at = Table::HEADER + Table::RECORD * n;
    let mut bytes = [0u8; Table::RECORD];
    bytes.copy_from_slice(&file[at..at + Table::RECORD]);
    bytes
}
