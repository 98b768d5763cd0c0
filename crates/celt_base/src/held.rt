//! Bytes that are held, of which the first are done with.
ghost use Rattle.std.specs.Prelude.{◌≡◌, ◌≤◌, length, drop, vec_capacity};

/// Leaves out the first bytes. Where there are none to leave out, nothing is moved.
pub fn drop_front(bytes: &mut Vec<u8>, count: usize)
    requires { count ≤ length bytes.old.items }
    ensures bytes { bytes.new.items ≡ drop count bytes.old.items }
    ensures capacity { vec_capacity bytes.new ≡ vec_capacity bytes.old }
{
    if count == 0 {
        return;
    }
    bytes.copy_within(count.., 0);
    bytes.truncate(bytes.len() - count);
}
