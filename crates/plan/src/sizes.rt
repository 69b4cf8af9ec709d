// The length of an array, which its type says, as a fact for proofs.
ghost use Rattle.std.specs.Prelude.{◌≡◌, length};

// It does nothing.
pub fn size<const N: usize>(a: &[u8; N])
    ensures { length a.now ≡ N }
{
    let _ = &a[..];
}
