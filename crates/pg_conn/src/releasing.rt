ghost use Rattle.std.specs.Prelude.{◌≡◌, ◌+◌, ◌≤◌, ◌++◌, length};
ghost use Rattle.arrayvec.specs.ArrayVec.{array_vec_len};
ghost use Rattle.pg_call.specs.Requests.{spelled};
ghost use Rattle.pg_conn.specs.Holding.{release};

use arrayvec::ArrayVec;

// Adds bytes for which there is room.
fn extend(frame: &mut ArrayVec<u8, 64>, bytes: &[u8])
    requires { array_vec_len frame.old + length bytes.now ≤ 64 }
    ensures items { frame.new.items ≡ frame.old.items ++ bytes.now }
    ensures len { array_vec_len frame.new ≡ array_vec_len frame.old + length bytes.now }
{
    match frame.try_extend_from_slice(bytes) {
        Ok(()) => {}
        Err(_) => unreachable!(),
    }
}

/// The frame of the Query that releases a lock by this text. It takes no memory.
pub(crate) fn release_frame(text: &str) -> ArrayVec<u8, 64>
    requires { length text.now ≤ 51 }
    ensures { result.items ≡ spelled (release text.now) }
{
    let length = text.len() as u32 + 5;
    let mut frame = ArrayVec::new();
    extend(&mut frame, b"Q");
    extend(&mut frame, &length.to_be_bytes());
    extend(&mut frame, text.as_bytes());
    extend(&mut frame, &[0]);
    frame
}
