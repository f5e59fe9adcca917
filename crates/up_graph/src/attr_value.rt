// What may stand at `value`: the value that an attribute is set to.
ghost use Rattle.std.specs.Prelude.{◌≡◌, ◌↔◌, IfOk, IsTrue};
ghost use Rattle.toml.specs.View.{table_view};
ghost use Rattle.up_graph.specs.AttrValue.{attr_value, is_legal_text};
ghost use Rattle.up_graph.specs.Field.{given, seen};
ghost use Rattle.up_model.specs.Value.{IsLegalValue};
ghost use Rattle.up_model.specs.declared.value.Value.TheVariants.{Words};

use crate::field::value_at;
use std::alloc::Global;
use toml::Table;
use up_base::{NoMemory, Text};
use up_model::{MAX_VALUE, Value};

#[tactic(auto, using(crate::proofs::Texts::utf8_test))]
fn is_legal_text(text: &str) -> bool
    ensures test { result ≡ is_legal_text text.now }
    ensures legal { IsTrue result ↔ IsLegalValue (Words text.now) }
{
    text.len() <= MAX_VALUE
}

/// A boolean, an integer from 0, or a text of at most 4,096 bytes. A missing value is void.
pub fn attr_value_at<'a>(
    alloc: Global,
    table: &'a Table,
) -> Result<Result<Value, &'a str>, NoMemory>
    ensures { IfOk result (λ value. seen (λ value. value) value
        ≡ given attr_value (table_view table.entry.now)) }
{
    Ok(match value_at(table, "value") {
        None => Ok(Value::Void),
        Some(toml::Value::Boolean(flag)) => Ok(Value::Flag(*flag)),
        Some(toml::Value::Integer(number)) if *number >= 0 => Ok(Value::Unsigned(*number as u64)),
        Some(toml::Value::String(text)) if is_legal_text(text.as_str()) => {
            Ok(Value::Words(Text::from_str(alloc, text.as_str())?))
        }
        Some(_) => Err("value"),
    })
}
