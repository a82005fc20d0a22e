// Numbers of several bytes, high byte first.
ghost use Rattle.std.specs.Prelude.{◌≡◌};
ghost use Rattle.wac.specs.Bytes.{half, word, word_bytes};

// The number in two bytes.
pub fn half_of(high: u8, low: u8) -> u32
    ensures { result ≡ half high low }
{
    u32::from(u16::from_be_bytes([high, low]))
}

// The number in four bytes.
pub fn word_of(first: u8, second: u8, third: u8, fourth: u8) -> u32
    ensures { result ≡ word first second third fourth }
{
    u32::from_be_bytes([first, second, third, fourth])
}

// The four bytes of a number.
pub fn word_bytes(w: u32) -> [u8; 4]
    ensures { result ≡ word_bytes w }
{
    w.to_be_bytes()
}
