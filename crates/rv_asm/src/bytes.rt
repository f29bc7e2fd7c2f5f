// A text's bytes from either end.
ghost use Rattle.std.specs.Prelude.{◌≡◌, ◌==◌, ◌≤◌, length};
ghost use Rattle.std.specs.List.{position_or_len};
ghost use Rattle.std.specs.Option.{option_map};
ghost use Rattle.rv_asm.specs.Bytes.{is_blank, without_blanks_before, without_blanks_after, trimmed, without_front, without_last};

/// Whether a byte is a space or a tab.
pub(crate) fn is_blank(c: u8) -> bool
    ensures { result ≡ is_blank c }
{
    c == b' ' || c == b'\t'
}

/// The place of the first such byte, or the length where there is none.
pub(crate) fn place_of_byte(byte: u8, text: &[u8]) -> usize
    ensures value { result ≡ position_or_len (λ c. c == byte) text.now }
    ensures within { result ≤ length text.now }
{
    for (i, c) in text.iter().enumerate() {
        if *c == byte {
            return i;
        }
    }
    text.len()
}

/// The place of the first blank, or the length where there is none.
pub(crate) fn place_of_blank(text: &[u8]) -> usize
    ensures value { result ≡ position_or_len is_blank text.now }
    ensures within { result ≤ length text.now }
{
    for (i, c) in text.iter().enumerate() {
        if is_blank(*c) {
            return i;
        }
    }
    text.len()
}

/// The text without the blanks at its ends.
pub(crate) fn trimmed(text: &[u8]) -> &[u8]
    ensures { result.now ≡ trimmed text.now }
{
    without_blanks_after(without_blanks_before(text))
}

/// The text from its first byte that isn't a blank.
pub(crate) fn without_blanks_before(text: &[u8]) -> &[u8]
    ensures { result.now ≡ without_blanks_before text.now }
{
    for (i, c) in text.iter().enumerate() {
        if !is_blank(*c) {
            return &text[i..];
        }
    }
    &text[text.len()..]
}

/// The text up to its last byte that isn't a blank.
fn without_blanks_after(text: &[u8]) -> &[u8]
    ensures { result.now ≡ without_blanks_after text.now }
{
    let mut front = text;
    while let Some((last, before)) = front.split_last() {
        if !is_blank(*last) {
            break;
        }
        front = before;
    }
    front
}

/// What follows a text that another begins with.
pub(crate) fn without_front<'a>(front: &[u8], text: &'a [u8]) -> Option<&'a [u8]>
    ensures { option_map (λ x. x.now) result ≡ without_front front.now text.now }
{
    text.strip_prefix(front)
}

/// What stands in front of the last byte, where that is the one given.
pub(crate) fn without_last(byte: u8, text: &[u8]) -> Option<&[u8]>
    ensures { option_map (λ x. x.now) result ≡ without_last byte text.now }
{
    match text.split_last() {
        Some((last, front)) if *last == byte => Some(front),
        _ => None,
    }
}
