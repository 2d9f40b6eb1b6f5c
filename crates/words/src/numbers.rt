ghost use Rattle.std.specs.Prelude.{◌≡◌};
ghost use Rattle.std.specs.Char.{is_ascii_digit};
ghost use Rattle.std.specs.List.{list_all};
ghost use Rattle.words.specs.Numbers.{number_of};

fn all_digits(bytes: &[u8]) -> bool
    ensures { result ≡ list_all is_ascii_digit bytes.now }
{
    bytes.iter().all(|byte| byte.is_ascii_digit())
}

// One to nine decimal digits, with no zero in front but 0 itself.
pub fn read_number(bytes: &[u8]) -> Option<u32>
    ensures { result ≡ number_of bytes.now }
{
    if bytes.is_empty() || bytes.len() > 9 || !all_digits(bytes) {
        return None;
    }
    if bytes[0] == b'0' && bytes.len() > 1 {
        return None;
    }
    // a loop: `parse` of a `str` goes over the bytes twice more, and takes twice the time
    let mut number = 0;
    for byte in bytes {
        number = number * 10 + u32::from(*byte - b'0');
    }
    Some(number)
}
