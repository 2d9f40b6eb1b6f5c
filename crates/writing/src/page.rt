ghost use Rattle.std.specs.Prelude.{◌≡◌, ◌+◌, ◌≤◌, [], ◌∷◌, ◌++◌, length, map, sum_by};
ghost use Rattle.arrayvec.specs.ArrayVec.{array_vec_len};
ghost use Rattle.writing.specs.Bytes.{line};
ghost use Rattle.writing.specs.Words.{text_of, room_of};
ghost use Rattle.writing.specs.Writes.{Writes};

use crate::unwritten::Unwritten;
use crate::word::Word;
use arrayvec::ArrayVec;
use itoa::{Buffer, Integer};

// A text of at most N bytes. It is put together here, and then printed at once.
// no `write!`: none of its clauses says that it succeeds where there is room
#[derive(Drop)]
pub(crate) struct Page<const N: usize> {
    bytes: ArrayVec<u8, N>,
}

impl<const N: usize> Page<N> {
    pub(crate) fn new() -> Page<N>
        ensures { result.bytes.items ≡ [] }
    {
        Page {
            bytes: ArrayVec::new(),
        }
    }

    fn text(&mut self, text: &[u8])
        requires { array_vec_len self.old.bytes + length text.now ≤ N }
        ensures { self.new.bytes.items ≡ self.old.bytes.items ++ text.now }
    {
        self.bytes.try_extend_from_slice(text).unwrap();
    }

    fn number<I: Integer>(&mut self, n: I)
        requires { array_vec_len self.old.bytes + I.MAX_STR_LEN ≤ N }
        ensures text { self.new.bytes.items ≡ self.old.bytes.items ++ I.text n }
        ensures short { array_vec_len self.new.bytes ≤ array_vec_len self.old.bytes + I.MAX_STR_LEN }
    {
        self.text(Buffer::new().format(n).as_bytes());
    }

    fn word(&mut self, word: Word<'_>)
        requires { array_vec_len self.old.bytes + room_of word ≤ N }
        ensures text { self.new.bytes.items ≡ self.old.bytes.items ++ text_of word.entry }
        ensures short { array_vec_len self.new.bytes + 1 ≤ array_vec_len self.old.bytes + room_of word.entry }
    {
        match word {
            Word::Text(text) => self.text(text),
            Word::Letter(letter) => self.bytes.push(letter),
            Word::Number(n) => self.number(n),
            Word::Label(Some(n)) => self.number(n),
            Word::Label(None) => self.bytes.push(b'-'),
            Word::Wide(n) => self.number(n),
            Word::Signed(n) => self.number(n),
        }
    }

    // A first word, and others behind single spaces.
    pub(crate) fn line(&mut self, first: Word<'_>, others: &[Word<'_>])
        requires { array_vec_len self.old.bytes + sum_by room_of (first ∷ others.now) ≤ N }
        ensures text { self.new.bytes.items ≡ self.old.bytes.items ++ line (map text_of (first.entry ∷ others.now)) }
        ensures short { array_vec_len self.new.bytes ≤ array_vec_len self.old.bytes + sum_by room_of (first.entry ∷ others.now) }
    {
        self.word(first);
        for word in others {
            self.bytes.push(b' ');
            self.word(*word);
        }
        self.bytes.push(b'\n');
    }

    // Copied into the front of the bytes that the caller lends, if they have room for every page of this size; else they are left
    // as they were.
    pub(crate) fn print(&self, out: &mut [u8]) -> Result<usize, Unwritten>
        ensures { Writes N self.now.bytes.items out.old result out.new }
    {
        if out.len() < N {
            return Err(Unwritten::FewBytes);
        }
        let text = self.bytes.as_slice();
        out[..text.len()].copy_from_slice(text);
        Ok(text.len())
    }
}
