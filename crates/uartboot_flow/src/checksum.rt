// The CRC of the work buffer.
ghost use Rattle.std.specs.Prelude.{◌≡◌, ◌≤◌, length};
ghost use Rattle.uartboot_flow.specs.Flow.{crc16};

// The CRC-16 of the first bytes of the work buffer.
pub fn crc_of(count: u32, work: &[u8]) -> u16
    requires { count ≤ length work.now }
    ensures { result ≡ crc16 count work.now }
{
    let end = count as usize;
    crc::crc_of::<u16>(&work[..end])
}
