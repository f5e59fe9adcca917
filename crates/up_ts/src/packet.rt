/// The size in bytes of the header, which begins each packet.
pub const HEADER_SIZE: usize = 4;

/// The adaptation_field_control of a packet with a payload and no adaptation field.
pub const PAYLOAD_ONLY: u8 = 1;

/// The adaptation_field_control of a packet with an adaptation field and then a payload.
pub const FIELD_AND_PAYLOAD: u8 = 3;

/// The largest adaptation_field_length: what is left of a packet after the header and the length byte.
pub const MAX_FIELD: u8 = 183;
