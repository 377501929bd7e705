//! Bytes placed at the front of a buffer.
ghost use Rattle.std.specs.Prelude.{◌≡◌, ◌<◌, ◌-◌, All, length, take, drop, min};

// Copies bytes to the front of the buffer, as many as there are and as fit, and gives their number.
// The rest of the buffer stays.
pub(crate) fn place(buf: &mut [u8], bytes: &[u8]) -> usize
    ensures count { result ≡ min (length buf.old) (length bytes.now) }
    ensures placed { take result buf.new ≡ take result bytes.now }
    ensures rest { drop result buf.new ≡ drop result buf.old }
{
    let count = buf.len().min(bytes.len());
    buf[..count].copy_from_slice(&bytes[..count]);
    count
}

// Copies bytes from a place on to the front of the buffer, as many as there are and as fit, and gives their number. Past the end there are none; the rest of
// the buffer stays.
pub(crate) fn place_from(buf: &mut [u8], bytes: &[u8], at: u64) -> usize
    ensures count { result ≡ min (length buf.old) (length bytes.now - at) }
    ensures placed { take result buf.new ≡ take result (drop at bytes.now) }
    ensures rest { drop result buf.new ≡ drop result buf.old }
{
    let start = bytes.len().min(at as usize);
    place(buf, &bytes[start..])
}

// That what a slice holds are bytes, which is known of each that is read. It does nothing.
pub(crate) fn are_bytes(bytes: &[u8])
    ensures { All (λ byte. byte < 256) bytes.now }
{
    for byte in bytes {
        let _value = *byte;
    }
}
