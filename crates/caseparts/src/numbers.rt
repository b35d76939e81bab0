// Numbers in bytes, low byte first.
ghost use Rattle.std.specs.Prelude.{◌+◌, ◌<◌};

// The 16-bit number at index i.
pub fn short_at<const N: usize>(bytes: &[u8; N], i: usize) -> u16
    requires { i + 1 < N }
{
    u16::from_le_bytes([bytes[i], bytes[i + 1]])
}

// The 32-bit number at index i.
pub fn long_at<const N: usize>(bytes: &[u8; N], i: usize) -> u32
    requires { i + 3 < N }
{
    u32::from_le_bytes([bytes[i], bytes[i + 1], bytes[i + 2], bytes[i + 3]])
}
