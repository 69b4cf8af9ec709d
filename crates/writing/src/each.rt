// Texts by number, one after the other.
ghost use Rattle.std.specs.Prelude.{ℕ, ◌*◌, ◌≤◌, List, length};
ghost use Rattle.writing.specs.Each.{Callable, Short, WritesEach, texts};
ghost use Rattle.writing.specs.Wrote.{Wrote};

// `put` writes the text of a number at the front of what it is lent, and answers its length: at most MOST.
pub fn put_each<const MOST: usize, F: Fn(&mut [u8], usize) -> usize>(
    out: &mut [u8],
    n: usize,
    put: F,
) -> usize
    requires callable { Callable (F.pre put) MOST n }
    requires short { Short (F.post put) MOST n }
    requires in_bounds { MOST * n ≤ length out.old }
    ensures all_written { (text : ℕ → List ℕ) → WritesEach (F.post put) text n → Wrote (texts text n) out.old out.new result }
    ensures within { result ≤ MOST * n }
{
    let mut len: usize = 0;
    for i in 0..n {
        len += put(&mut out[len..], i);
    }
    len
}
