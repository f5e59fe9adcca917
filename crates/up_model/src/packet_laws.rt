// Laws of legal packets.
ghost use Rattle.std.specs.Prelude.{◌≡◌, ◌<◌, ◌≤◌, ◌⊎◌, ℕ, List, length, true};
ghost use Rattle.std.specs.FinMap as map;
ghost use Rattle.up_base.specs.Name.{is_name};
ghost use Rattle.up_model.specs.Packet.{IsLegal, plain};
ghost use Rattle.up_model.specs.Value.{IsLegalValue};
ghost use Rattle.up_model.specs.declared.limits.TheConstants.{MAX_ATTRS, MAX_PACKET};
ghost use Rattle.up_model.specs.declared.plain_packet.PlainPacket.{PlainPacket as ThePacket};
ghost use Rattle.up_model.specs.declared.value.Value.{Value as TheValue};

/// Bytes within the size of a packet are a legal one. A legal packet is legal with any such bytes in place of its own,
/// with a legal value under a name, where it has the name or room for one more, and without any attribute.
pub fn packets_stay_legal()
    ensures plain { (bytes : List ℕ) → length bytes ≤ MAX_PACKET → IsLegal (plain bytes) }
    ensures bytes { (packet : ThePacket) (bytes : List ℕ) → IsLegal packet
        → length bytes ≤ MAX_PACKET → IsLegal (record packet { bytes = bytes }) }
    ensures set { (packet : ThePacket) (name : List ℕ) (value : TheValue) → IsLegal packet
        → is_name name ≡ true → IsLegalValue value
        → (map.contains_key packet.attrs name ≡ true) ⊎ (map.len packet.attrs < MAX_ATTRS)
        → IsLegal (record packet { attrs = map.insert packet.attrs name value }) }
    ensures gone { (packet : ThePacket) (name : List ℕ) → IsLegal packet
        → IsLegal (record packet { attrs = map.remove packet.attrs name }) }
{}
