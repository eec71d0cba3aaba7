// Copying as much of one piece as another has room for.
ghost use Rattle.std.specs.Prelude.{◌≡◌, ◌++◌, length, min, take, drop};

/// Copies the front of `from` to the front of `into`, as far as both go, and answers how many bytes
/// that are.
pub fn copy_front(into: &mut [u8], from: &[u8]) -> usize
    ensures count { result ≡ min (length into.old) (length from.now) }
    ensures after { into.new ≡ take result from.now ++ drop result into.old }
{
    let count = into.len().min(from.len());
    into[..count].copy_from_slice(&from[..count]);
    count
}
