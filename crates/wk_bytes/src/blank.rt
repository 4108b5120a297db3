//! Blank bytes: space, tab, newline and carriage return (own).
ghost use Rattle.std.specs.Prelude.{◌≡◌};
ghost use Rattle.wk_text_rules.specs.Blank.{is_blank, is_blank_byte, trimmed_start, trimmed_end, trimmed};

fn is_blank_byte(byte: u8) -> bool
    ensures { result ≡ is_blank_byte byte }
{
    byte == b' ' || byte == b'\t' || byte == b'\n' || byte == b'\r'
}

/// Whether every byte is blank; so is no byte at all. Takes no memory.
pub fn is_blank(bytes: &[u8]) -> bool
    ensures { result ≡ is_blank bytes.now }
{
    bytes.iter().all(|byte| is_blank_byte(*byte))
}

/// The bytes without the blank bytes at the start. Takes no memory.
pub fn trim_start(bytes: &[u8]) -> &[u8]
    ensures { result.now ≡ trimmed_start bytes.now }
{
    let mut start = 0;
    while start < bytes.len() && is_blank_byte(bytes[start]) {
        start += 1;
    }
    &bytes[start..]
}

/// The bytes without the blank bytes at the end. Takes no memory.
pub fn trim_end(bytes: &[u8]) -> &[u8]
    ensures { result.now ≡ trimmed_end bytes.now }
{
    let mut end = bytes.len();
    while 0 < end && is_blank_byte(bytes[end - 1]) {
        end -= 1;
    }
    &bytes[..end]
}

/// The bytes without the blank bytes at both ends. Takes no memory.
pub fn trim(bytes: &[u8]) -> &[u8]
    ensures { result.now ≡ trimmed bytes.now }
{
    trim_end(trim_start(bytes))
}
