// A line in memory.
ghost use Rattle.std.specs.Prelude.{◌≡◌, ◌+◌, ◌≤◌, length};
ghost use Rattle.cache_tags.specs.Line.{padded, put_at};

/// A line as it is stored: as many of the bytes as a line has are its own.
#[derive(Clone, Copy)]
pub(crate) struct Stored {
    pub addr: u64,
    pub dirty: bool,
    pub bytes: [u8; 64],
}

/// Bytes in front, and zeros behind.
#[inline(always)]
pub(crate) fn pad(bytes: &[u8]) -> [u8; 64]
    requires { length bytes.now ≤ 64 }
    ensures { result ≡ padded bytes.now }
{
    let mut all = [0; 64];
    all[..bytes.len()].copy_from_slice(bytes);
    all
}

/// Puts bytes over others, from an offset on.
#[inline(always)]
pub(crate) fn put(bytes: &mut [u8], offset: usize, others: &[u8])
    requires { offset + length others.now ≤ length bytes.old }
    ensures { bytes.new ≡ put_at bytes.old offset others.now }
{
    bytes[offset..offset + others.len()].copy_from_slice(others);
}
