// The words of a transport stream packet that its flow is told by: ISO/IEC 13818-1, 2.4.3.2.
ghost use Rattle.std.specs.Prelude.{◌≡◌, ◌≤◌, length};
ghost use Rattle.up_base.specs.Transport.{packet_identifier};

/// The size of a packet in bytes.
pub const TS_SIZE: usize = 188;

/// sync_byte, with which each packet begins.
pub const SYNC_BYTE: u8 = 0x47;

/// The PID of null packets, which carry nothing.
pub const NULL_PID: u16 = 0x1FFF;

/// The PID in a packet's first three bytes: which flow of the multiplex the packet is of.
pub fn pid_of(packet: &[u8]) -> u16
    requires { 3 ≤ length packet.now }
    ensures { result ≡ packet_identifier packet.now }
{
    u16::from(packet[1] % 32) * 256 + u16::from(packet[2])
}
