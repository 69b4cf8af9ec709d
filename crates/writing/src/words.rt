// A word as it stands, written at the front of what is lent. The result is how much was written.
ghost use Rattle.std.specs.Prelude.{◌≤◌, length};
ghost use Rattle.writing.specs.Wrote.{Wrote};

pub fn put_word(out: &mut [u8], word: &[u8]) -> usize
    requires { length word.now ≤ length out.old }
    ensures { Wrote word.now out.old out.new result }
{
    out[..word.len()].copy_from_slice(word);
    word.len()
}
