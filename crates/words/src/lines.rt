ghost use Rattle.std.specs.Prelude.{◌≡◌, ◌≤◌, length};
ghost use Rattle.words.specs.Lines.{line_length};

// How many bytes stand before the next line feed, or before the end where there is none.
pub fn line_length(text: &[u8]) -> usize
    ensures is { result ≡ line_length text.now }
    ensures within { result ≤ length text.now }
{
    text.iter().take_while(|byte| **byte != b'\n').count()
}
