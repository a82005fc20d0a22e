// The limits of the certificate table. These numbers stand here and nowhere else in the code:
// every layer names them by these constants, and `table_limits` ties them to specs/Limits.
ghost use Rattle.std.specs.Prelude.{◌≡◌};
ghost use Rattle.wac.specs.Limits.{limits};

// The certificate table: its limits are its associated constants.
#[derive(Clone, Copy)]
pub struct Table;

impl Table {
    // Keys are 0 to 15.
    pub const KEYS: usize = 16;

    // Identifiers are 0 to 9.
    pub const IDENTIFIERS: usize = 10;

    // The mark "may delegate".
    pub const DELEGATE: usize = 10;

    // The mark "access only".
    pub const ACCESS: usize = 11;

    // A subject has at most this many identifiers.
    pub const SUBJECT_IDS: usize = 3;

    // A file has at most this many certificates.
    pub const CERTIFICATES: usize = 128;

    // The chain's lent places.
    pub const CHAIN_PLACES: usize = 200;

    // All rights together: read 1, open 2, sign 4, close 8.
    pub const ALL_RIGHTS: usize = 15;

    // The minute that means without end.
    pub const WITHOUT_END: u32 = 4294967295;

    // A byte that holds no symbol.
    pub const UNUSED: usize = 255;

    // The version of the file.
    pub const VERSION: u32 = 1;

    // The kind of a name certificate.
    pub const NAME: usize = 1;

    // The kind of an authorization.
    pub const AUTHORIZATION: usize = 2;

    // The end place, at which the entries of the marks arrive.
    pub const END: usize = Table::KEYS;

    // The entries of identifiers.
    pub const NAMED_ENTRIES: usize = Table::KEYS * Table::IDENTIFIERS * Table::KEYS;

    // All entries, and so the lent places for minutes and for steps.
    pub const ENTRIES: usize = Table::NAMED_ENTRIES + 2 * Table::KEYS;

    // The bytes of the file's header.
    pub const HEADER: usize = 6;

    // The bytes of a certificate.
    pub const RECORD: usize = 18;

    // The bytes of the largest file.
    pub const LARGEST: usize = Table::HEADER + Table::RECORD * Table::CERTIFICATES;
}

// The constants, in order. No From leads from u32 to usize.
pub fn table_limits() -> [usize; 19]
    ensures { result ≡ limits }
{
    [
        Table::KEYS,
        Table::IDENTIFIERS,
        Table::DELEGATE,
        Table::ACCESS,
        Table::SUBJECT_IDS,
        Table::CERTIFICATES,
        Table::CHAIN_PLACES,
        Table::ALL_RIGHTS,
        Table::WITHOUT_END as usize,
        Table::UNUSED,
        Table::VERSION as usize,
        Table::NAME,
        Table::AUTHORIZATION,
        Table::END,
        Table::NAMED_ENTRIES,
        Table::ENTRIES,
        Table::HEADER,
        Table::RECORD,
        Table::LARGEST,
    ]
}
