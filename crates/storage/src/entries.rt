// A list of at most eight lines: a record's children, or one of a step's two lists of expressions.
ghost use Rattle.std.specs.Prelude.{◌≡◌, ◌+◌, ◌≤◌, length, get_or};
ghost use Rattle.storage.specs.Entries.{list_of, entries_at};

// The first `count` of the nodes: fixed memory, of eight. It goes by value in records, so it is Copy, which the kit's ArrayVec is not; and
// no ghost field says that the count is at most 8, since what a record does (`before_of`, `After::of`) is asked of any.
#[derive(Clone, Copy)]
pub struct Entries {
    pub nodes: [u8; 8],
    pub count: u8,
}

impl Entries {
    // Of the eight bytes from b on, the first `count`.
    pub fn read(bytes: &[u8], b: usize, count: u8) -> Entries
        requires { b + 8 ≤ length bytes.now }
        ensures { result ≡ entries_at bytes.now b count }
    {
        let mut nodes = [0; 8];
        nodes.copy_from_slice(&bytes[b..b + 8]);
        Entries { nodes, count }
    }

    pub fn as_slice(&self) -> &[u8]
        requires { self.now.count ≤ 8 }
        ensures { result.now ≡ list_of self.now }
    {
        &self.nodes[..usize::from(self.count)]
    }

    // The first; 0 of an empty list.
    pub fn first(self) -> u8
        ensures { result ≡ get_or (list_of self) 0 0 }
    {
        if self.count == 0 { 0 } else { self.nodes[0] }
    }
}
