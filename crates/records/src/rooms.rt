// Large arrays. Written in place, every element would stand in every goal of the function that has them.
ghost use Rattle.std.specs.Prelude.{◌≡◌, length};

// Room for N values, all x.
pub fn room<T: Copy, const N: usize>(x: T) -> [T; N]
    ensures { length result ≡ N }
{
    [x; N]
}
