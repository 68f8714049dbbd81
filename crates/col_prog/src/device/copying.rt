// Copies between lists and pieces.
ghost use Rattle.std.specs.Prelude.{◌≡◌, ◌<◌, ◌≤◌, ◌+◌, ◌-◌, ◌++◌, length, take, min};

// Copies a front of what is left to the front of the piece, and answers how much.
pub fn copy_front(rest: &[u8], step: usize, piece: &mut [u8]) -> usize
    requires step { 0 < step }
    ensures count { result ≡ min (min (length rest.now) (length piece.new)) step }
    ensures left { result ≤ length rest.now }
    ensures bound { result ≤ length piece.new }
    ensures copied { take result piece.new ≡ take result rest.now }
    ensures end { result ≡ 0 → 0 < length piece.new → length rest.now ≡ 0 }
{
    let count = rest.len().min(piece.len()).min(step);
    piece[..count].copy_from_slice(&rest[..count]);
    count
}

// Copies a front of the piece over the room from a place on, and answers how much.
pub fn copy_into(piece: &[u8], step: usize, room: &mut [u8], at: usize) -> usize
    requires step { 0 < step }
    requires place { at ≤ length room.old }
    requires fits { length piece.now ≤ length room.old - at }
    ensures count { result ≡ min (length piece.now) step }
    ensures bound { result ≤ length piece.now }
    ensures progress { 0 < length piece.now → 0 < result }
    ensures copied { take (at + result) room.new ≡ take at room.old ++ take result piece.now }
{
    let count = piece.len().min(step);
    let end = at + count;
    room[at..end].copy_from_slice(&piece[..count]);
    count
}
