// The bytes of an attribute, put at the end of a run.
ghost use Rattle.std.specs.Prelude.{◌≡◌, ◌<◌, ◌≤◌, ◌++◌, true, length, take, OnOk, OnErr};
ghost use Rattle.std.specs.Str.{is_utf8};
ghost use Rattle.up_dict.specs.Spelling.{IsLegalAttr, attr_bytes, head_bytes};
ghost use Rattle.up_model.specs.Value.{lent, IsLegalValue};
ghost use Rattle.up_model.specs.ValueTypes.{value_bytes};

use up_base::NoMemory;
use up_model::{MAX_VALUE, ValueType, ValueView};

/// How many bytes a text has. It is UTF-8, as every text.
fn text_size(text: &str) -> usize
    ensures size { result ≡ length text.now }
    ensures utf8 { is_utf8 text.now ≡ true }
{
    text.len()
}

/// How many bytes the value has. One of at most `MAX_VALUE` is legal.
pub(crate) fn value_size(value: ValueView<'_>) -> usize
    ensures size { result ≡ length (value_bytes (lent value.entry)) }
    ensures legal { result ≤ MAX_VALUE → IsLegalValue (lent value.entry) }
{
    match value {
        ValueView::Void => 0,
        ValueView::Flag(_) => 1,
        ValueView::Unsigned(_) => 8,
        ValueView::Words(text) => text_size(text),
        ValueView::Opaque(bytes) => bytes.len(),
    }
}

/// Puts what stands before a value. After `NoMemory` a part of it may stand there.
fn push_head(run: &mut Vec<u8>, name: &[u8], kind: ValueType, size: u16) -> Result<(), NoMemory>
    requires { length name.now < 256 }
    ensures added { OnOk result (run.new.items ≡ run.old.items ++ head_bytes name.now kind size) }
    ensures before { OnErr result (take (length run.old.items) run.new.items ≡ run.old.items) }
{
    run.push(name.len() as u8)?;
    run.extend_from_slice(name)?;
    run.push(kind.number())?;
    run.extend_from_slice(&size.to_be_bytes())?;
    Ok(())
}

/// Puts the bytes of a value.
fn push_value(run: &mut Vec<u8>, value: ValueView<'_>) -> Result<(), NoMemory>
    ensures added { OnOk result (run.new.items ≡ run.old.items ++ value_bytes (lent value.entry)) }
    ensures unchanged { OnErr result (run.new.items ≡ run.old.items) }
{
    match value {
        ValueView::Void => {}
        ValueView::Flag(flag) => run.push(u8::from(flag))?,
        ValueView::Unsigned(number) => run.extend_from_slice(&number.to_be_bytes())?,
        ValueView::Words(text) => run.extend_from_slice(text.as_bytes())?,
        ValueView::Opaque(bytes) => run.extend_from_slice(bytes)?,
    }
    Ok(())
}

/// Puts the bytes of an attribute. After `NoMemory` a part of them may stand there.
fn push_attr(run: &mut Vec<u8>, name: &[u8], value: ValueView<'_>) -> Result<(), NoMemory>
    requires { IsLegalAttr (name.now, lent value) }
    ensures added { OnOk result
        (run.new.items ≡ run.old.items ++ attr_bytes (name.now, lent value.entry)) }
    ensures before { OnErr result (take (length run.old.items) run.new.items ≡ run.old.items) }
{
    let size = value_size(value);
    run.reserve(name.len() + 4 + size)?;
    push_head(run, name, ValueType::of(value), size as u16)?;
    push_value(run, value)
}

/// Adds an attribute at the end.
pub(crate) fn add_attr(run: &mut Vec<u8>, name: &[u8], value: ValueView<'_>) -> Result<(), NoMemory>
    requires { IsLegalAttr (name.now, lent value) }
    ensures added { OnOk result
        (run.new.items ≡ run.old.items ++ attr_bytes (name.now, lent value.entry)) }
    ensures unchanged { OnErr result (run.new.items ≡ run.old.items) }
{
    let len = run.len();
    let added = push_attr(run, name, value);
    if added.is_err() {
        run.truncate(len);
    }
    added
}
