ghost use Rattle.std.specs.Prelude.{◌≡◌, ◌+◌, ◌*◌, ◌≤◌, length, take, drop};

// Part i of a list, each part of `size` places.
// Kept: transform has this for its tables; it asks that the part be there, and what other crates call asks nothing, so each has its own.
pub fn part_of<T>(list: &[T], i: usize, size: usize) -> &[T]
    requires { i * size + size ≤ length list.now }
    ensures same { result.now ≡ take size (drop (i * size) list.now) }
    ensures long { length result.now ≡ size }
{
    &list[i * size..i * size + size]
}
