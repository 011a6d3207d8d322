ghost use Rattle.std.specs.Prelude.{◌≡◌, reverse};
ghost use Rattle.base_core.specs.Bytes.{is_blank, drop_while, trim};

/// Whether the byte is a space or a tab.
pub fn is_blank(byte: u8) -> bool
    ensures { result ≡ is_blank byte }
{
    byte == b' ' || byte == b'\t'
}

/// The bytes without the blanks that they begin with.
pub fn trim_start(bytes: &[u8]) -> &[u8]
    ensures { result.now ≡ drop_while is_blank bytes.now }
{
    let mut rest = bytes;
    while let [first, others @ ..] = rest {
        if !is_blank(*first) {
            break;
        }
        rest = others;
    }
    rest
}

fn trim_end(bytes: &[u8]) -> &[u8]
    ensures { result.now ≡ reverse (drop_while is_blank (reverse bytes.now)) }
{
    let mut rest = bytes;
    while let [others @ .., last] = rest {
        if !is_blank(*last) {
            break;
        }
        rest = others;
    }
    rest
}

/// The bytes without the blanks at both ends.
pub fn trim(bytes: &[u8]) -> &[u8]
    ensures { result.now ≡ trim bytes.now }
{
    trim_end(trim_start(bytes))
}
