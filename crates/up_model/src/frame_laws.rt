// Laws of frames and of the bytes that are made of them.
ghost use Rattle.std.specs.Prelude.{◌≡◌, ◌∷◌, ◌++◌, List, ℕ, [], None, Some, Ok, All};
ghost use Rattle.up_base.specs.Number.{AreBytes};
ghost use Rattle.up_model.specs.FrameFronts.{packet_at};
ghost use Rattle.up_model.specs.FrameSpelling.{frame_of, frames_of};
ghost use Rattle.up_model.specs.FrameStreams.{
  IsFramed,
  HasNoFrame,
  broken_at,
  cut_at,
  whole_frames,
  rest_of_frames,
};
ghost use Rattle.up_model.specs.Packet.{Flow, IsLegal};
ghost use Rattle.up_model.specs.declared.plain_packet.PlainPacket.{PlainPacket};

/// The frame of a legal packet is read back, whatever follows it. What is read from bytes is a legal
/// packet, and is spelled so: no other bytes are read as it.
pub fn frames_are_read_back()
    ensures again { (packet : PlainPacket) (rest : List ℕ) → IsLegal packet
        → packet_at (frame_of packet ++ rest) ≡ Ok (packet, rest) }
    ensures spelled { (bytes : List ℕ) (packet : PlainPacket) (rest : List ℕ) → AreBytes bytes
        → packet_at bytes ≡ Ok (packet, rest)
        → IsLegal packet × (bytes ≡ frame_of packet ++ rest) }
{}

/// No frame of a packet begins that of another.
pub fn no_frame_begins_another()
    ensures { (first second : PlainPacket) (x y : List ℕ) → IsLegal first → IsLegal second
        → frame_of first ++ x ≡ frame_of second ++ y → (first ≡ second) × (x ≡ y) }
{}

/// A frame before other bytes is the first of the whole frames, and then come those of the other
/// bytes. Frames alone are neither broken nor unfinished.
pub fn whole_frames_come_one_by_one()
    ensures frames { (packet : PlainPacket) (bytes : List ℕ) → IsLegal packet
        → whole_frames (frame_of packet ++ bytes) ≡ packet ∷ whole_frames bytes }
    ensures rest { (packet : PlainPacket) (bytes : List ℕ) → IsLegal packet
        → rest_of_frames (frame_of packet ++ bytes) ≡ rest_of_frames bytes }
    ensures all { (flow : Flow) → All IsLegal flow
        → (whole_frames (frames_of flow) ≡ flow) × (rest_of_frames (frames_of flow) ≡ []) }
    ensures neither { (flow : Flow) → All IsLegal flow
        → (broken_at (frames_of flow) ≡ None) × (cut_at (frames_of flow) ≡ None) }
{}

/// Bytes are their whole frames and a rest at whose front no frame stands, and they are so in no
/// other way.
pub fn whole_frames_are_all()
    ensures framed { (bytes : List ℕ) → AreBytes bytes
        → IsFramed bytes (whole_frames bytes) (rest_of_frames bytes) }
    ensures none { (bytes : List ℕ) → AreBytes bytes → HasNoFrame (rest_of_frames bytes) }
    ensures only { (bytes : List ℕ) (flow : Flow) (rest : List ℕ) → AreBytes bytes
        → IsFramed bytes flow rest → HasNoFrame rest
        → (flow ≡ whole_frames bytes) × (rest ≡ rest_of_frames bytes) }
{}

/// More bytes change nothing that was judged: the whole frames stay, those of the rest with the new
/// bytes follow, and what is broken stays broken at its place.
pub fn what_was_judged_stays()
    ensures frames { (bytes more : List ℕ)
        → whole_frames (bytes ++ more)
        ≡ whole_frames bytes ++ whole_frames (rest_of_frames bytes ++ more) }
    ensures rest { (bytes more : List ℕ)
        → rest_of_frames (bytes ++ more) ≡ rest_of_frames (rest_of_frames bytes ++ more) }
    ensures broken { (bytes more : List ℕ) (place : ℕ)
        → broken_at bytes ≡ Some place → broken_at (bytes ++ more) ≡ Some place }
{}
