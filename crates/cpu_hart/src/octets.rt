// Little-endian numbers in front of a packet's bytes.
ghost use Rattle.std.specs.Prelude.{◌≡◌, ◌≤◌, ◌<◌, ◌^◌, length, take};
ghost use Rattle.rv_step.specs.Bytes.{number, bytes_of};
ghost use Rattle.rv_step.specs.Width.{IsSize};
ghost use Rattle.pkt_pool.specs.Packet.{with_front};

/// The number of the first 4 bytes.
#[inline(always)]
pub fn word(m: &[u8]) -> u32
    requires { 4 ≤ length m.now }
    ensures { result ≡ number (take 4 m.now) }
{
    u32::from_le_bytes([m[0], m[1], m[2], m[3]])
}

/// The number of the first 8 bytes.
#[inline(always)]
fn double(m: &[u8]) -> u64
    requires { 8 ≤ length m.now }
    ensures { result ≡ number (take 8 m.now) }
{
    u64::from_le_bytes([m[0], m[1], m[2], m[3], m[4], m[5], m[6], m[7]])
}

/// The number of the first bytes, so many of them.
#[inline(always)]
pub fn number(m: &[u8], size: u8) -> u64
    requires inside { 8 ≤ length m.now }
    requires size { IsSize size }
    ensures { result ≡ number (take size m.now) }
{
    match size {
        1 => m[0] as u64,
        2 => u16::from_le_bytes([m[0], m[1]]) as u64,
        4 => word(m) as u64,
        _ => double(m),
    }
}

/// The low bytes of v, so many of them, are put in front.
#[inline(always)]
pub(crate) fn put_number(m: &mut [u8], size: u8, v: u64)
    requires inside { 8 ≤ length m.old }
    requires size { IsSize size }
    ensures { m.new ≡ with_front m.old (bytes_of size v) }
{
    match size {
        1 => m[..1].copy_from_slice(&((v & 0xff) as u8).to_le_bytes()),
        2 => m[..2].copy_from_slice(&((v & 0xffff) as u16).to_le_bytes()),
        4 => m[..4].copy_from_slice(&((v & 0xffff_ffff) as u32).to_le_bytes()),
        _ => m[..8].copy_from_slice(&v.to_le_bytes()),
    }
}
