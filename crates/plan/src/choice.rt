// A choice between two values: both are there, so that no branch decides.
ghost use Rattle.std.specs.Prelude.{◌≡◌, if◌then◌else◌};

pub fn pick<T: Copy>(b: bool, x: T, y: T) -> T
    ensures { result ≡ (if b then x else y) }
{
    if b { x } else { y }
}
