//! The forms of numbers and spellings, byte by byte.
ghost use Rattle.std.specs.Prelude.{◌≡◌, ◌≤◌, true, length};
ghost use Rattle.std.specs.List.{list_all};
ghost use Rattle.text.specs.Forms.{digit, letter, further, decimal_after, is_number, number_of, is_spelling};

/// Whether a spelling may begin with the byte: a letter or an underscore.
fn begins(b: u8) -> bool
    ensures { result ≡ letter b }
{
    b.is_ascii_alphabetic() || b == b'_'
}

/// Whether a spelling may go on with the byte: also a digit, a point or a hyphen.
fn goes_on(b: u8) -> bool
    ensures { result ≡ further b }
{
    begins(b) || b.is_ascii_digit() || b == b'.' || b == b'-'
}

/// Whether all bytes are digits.
fn are_digits(bytes: &[u8]) -> bool
    ensures { result ≡ list_all digit bytes.now }
{
    bytes.iter().all(u8::is_ascii_digit)
}

/// Whether a spelling may go on with each of the bytes.
fn go_on(bytes: &[u8]) -> bool
    ensures { result ≡ list_all further bytes.now }
{
    bytes.iter().all(|b| goes_on(*b))
}

/// Whether the bytes are one to nine digits, the first of several not 0.
fn is_decimal(bytes: &[u8]) -> bool
    ensures { result ≡ is_number bytes.now }
{
    match bytes {
        [] | [b'0', _, ..] => false,
        _ => bytes.len() <= 9 && are_digits(bytes),
    }
}

/// The number that at most nine digits write.
fn decimal(bytes: &[u8]) -> usize
    requires few { length bytes.now ≤ 9 }
    requires digits { list_all digit bytes.now ≡ true }
    ensures { result ≡ decimal_after 0 bytes.now }
{
    let mut n = 0;
    for b in bytes {
        n = n * 10 + usize::from(*b - b'0');
    }
    n
}

/// The number that the bytes write in plain decimal: at most nine digits, with no leading zero.
pub(crate) fn number(bytes: &[u8]) -> Option<usize>
    ensures { result ≡ number_of bytes.now }
{
    is_decimal(bytes).then(|| decimal(bytes))
}

/// Whether the bytes are a letter or underscore and up to 31 further letters, digits, underscores, points or hyphens.
pub(crate) fn is_name(bytes: &[u8]) -> bool
    ensures { result ≡ is_spelling bytes.now }
{
    match bytes {
        [] => false,
        [first, ..] => bytes.len() <= 32 && begins(*first) && go_on(bytes),
    }
}
