ghost use Rattle.std.specs.Iterator.{YieldsFirstRef, item_count};
ghost use Rattle.words.specs.Lines.{lines};

use words::lines::line_length;

// The lines of a text. Of the pieces of std's `split` a proof knows only how long they are.
#[derive(Drop)]
pub(crate) struct Lines<'a>(pub(crate) &'a [u8]);

impl<'a> Iterator for Lines<'a> {
    type Item = &'a [u8];

    ghost next_gives = { YieldsFirstRef (λ s. lines s.0.now) };

    ghost remaining = { item_count (λ s. lines s.0.now) };

    fn next(&mut self) -> Option<&'a [u8]> {
        let text = self.0;
        if text.is_empty() {
            return None;
        }
        let (line, rest) = text.split_at(line_length(text));
        self.0 = match rest.split_first() {
            Some((_, behind)) => behind,
            None => rest,
        };
        Some(line)
    }
}
