//! Attributes that are numbers.
ghost use Rattle.std.specs.Prelude.{◌≡◌};
ghost use Rattle.up_model.specs.Attrs.{unsigned_at};

use up_base::AttrName;
use up_model::ValueView;
use up_shape::LocalPacket;

/// The number of the attribute, where it is there and is one.
pub(crate) fn number_of<P: LocalPacket>(p: &P, name: &AttrName) -> Option<u64>
    ensures { result ≡ unsigned_at name.now (P.plain p.now).attrs }
{
    match p.value(name) {
        Some(ValueView::Unsigned(number)) => Some(number),
        _ => None,
    }
}
