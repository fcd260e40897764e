// Numbers as a script writes them: decimal digits, and no sign.
ghost use Rattle.std.specs.Prelude.{◌≡◌};
ghost use Rattle.commands.specs.Numbers.{number_read};

// The number that a text says, if it is one and at most `most`.
// One pass and no `parse`, which would take a plus, wants text for bytes and is three passes: tried, and reading a line took half as long again.
pub(crate) fn number(text: &[u8], most: u64) -> Option<u64>
    ensures { result ≡ number_read text.now most }
{
    if text.is_empty() {
        return None;
    }
    let mut value = 0u64;
    for b in text {
        if !b.is_ascii_digit() {
            return None;
        }
        value = value.checked_mul(10)?.checked_add(u64::from(*b - b'0'))?;
    }
    if value <= most { Some(value) } else { None }
}
