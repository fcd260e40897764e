// Text put into a buffer, from a place on.
ghost use Rattle.std.specs.Prelude.{◌≡◌, ◌+◌, ◌≤◌, length};
ghost use Rattle.answers.specs.Put.{with_text};

// Gives the place after the text.
pub(crate) fn put(buffer: &mut [u8], at: usize, text: &[u8]) -> usize
    requires { at + length text.now ≤ length buffer.old }
    ensures value { result ≡ at + length text.now }
    ensures after { buffer.new ≡ with_text buffer.old at text.now }
{
    let end = at + text.len();
    buffer[at..end].copy_from_slice(text);
    end
}
