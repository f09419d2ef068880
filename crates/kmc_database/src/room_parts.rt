//! Bytes put into a room, one part behind another.
ghost use Rattle.std.specs.Prelude.{◌≡◌, ◌+◌, ◌≤◌, ◌++◌, length, take, drop};

/// Puts a part behind the first `at` bytes of a room, and says where it ends. What stands behind that stays.
pub fn put_part(room: &mut [u8], at: usize, part: &[u8]) -> usize
    requires { at + length part.now ≤ length room.old }
    ensures bytes { take result room.new ≡ take at room.old ++ part.now }
    ensures end { result ≡ at + length part.now }
    ensures long { length room.new ≡ length room.old }
    ensures behind { drop result room.new ≡ drop result room.old }
{
    let end = at + part.len();
    room[at..end].copy_from_slice(part);
    end
}
