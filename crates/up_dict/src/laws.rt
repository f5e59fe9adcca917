// Laws about attributes as bytes, and about refusals.
ghost use Rattle.std.specs.Prelude.{◌≡◌, ◌<◌, ◌⊎◌, true, ℕ, List, None, All};
ghost use Rattle.std.specs.FinMap.{contains_key, len};
ghost use Rattle.up_dict.specs.Reading.{attrs_in};
ghost use Rattle.up_dict.specs.Refusal.{refusal_of};
ghost use Rattle.up_dict.specs.Spelling.{Attr, IsLegalAttr, spelled};
ghost use Rattle.up_model.specs.Attrs.{Attrs};
ghost use Rattle.up_model.specs.Value.{IsLegalValue};
ghost use Rattle.up_model.specs.declared.value.Value.{Value};

use up_model::MAX_ATTRS;

/// Attributes read back from the bytes that spell them.
#[tactic(auto, using(crate::proofs::ReadBack::attrs_read))]
pub fn attributes_read_back()
    ensures { (attrs : List Attr) → All IsLegalAttr attrs → attrs_in (spelled attrs) ≡ attrs }
{}

/// A legal value is set wherever its name is there or fewer than `MAX_ATTRS` are held.
#[tactic(auto, using(crate::proofs::Refused::taken))]
pub fn what_has_room_is_taken()
    ensures { (held : Attrs) (name : List ℕ) (value : Value) → IsLegalValue value
        → (contains_key held name ≡ true) ⊎ (len held < MAX_ATTRS)
        → refusal_of held name value ≡ None }
{}
