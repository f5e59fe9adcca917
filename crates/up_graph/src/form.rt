// What may stand at `form`, and the form of a source.
ghost use Rattle.std.specs.Prelude.{◌≡◌, Ok};
ghost use Rattle.toml.specs.View.{table_view};
ghost use Rattle.up_graph.specs.Field.{given, seen};
ghost use Rattle.up_graph.specs.Form.{block, form, sink_form, source_form};

use crate::field::{both, value_at};
use crate::values::short_number_at;
use toml::{Table, Value};
use up_model::{DEFAULT_BLOCK, MAX_BLOCK, SinkForm, SourceForm};

/// How the packets of a source or a sink stand in its bytes.
#[derive(Clone, Copy)]
pub enum Form {
    Raw,
    Framed,
}

impl Form {
    /// The form of a sink.
    pub fn of_sink(self) -> SinkForm
        ensures { result ≡ sink_form self }
    {
        match self {
            Form::Raw => SinkForm::Raw,
            Form::Framed => SinkForm::Framed,
        }
    }
}

/// The form at `form`: `raw` or `framed`, and `raw` where nothing stands there.
pub fn form_at<'a>(table: &Table) -> Result<Form, &'a str>
    ensures { seen (λ form. form) result ≡ given form (table_view table.now) }
{
    match value_at(table, "form") {
        None => Ok(Form::Raw),
        Some(Value::String(word)) => match word.as_str() {
            "raw" => Ok(Form::Raw),
            "framed" => Ok(Form::Framed),
            _ => Err("form"),
        },
        Some(_) => Err("form"),
    }
}

/// What `block` gives beside this `form`: it stands beside `raw` alone.
fn block_at<'a>(table: &Table, form: &Result<Form, &str>) -> Result<SourceForm, &'a str>
    ensures { seen (λ form. form) result
        ≡ given (block (seen (λ form. form) form.now)) (table_view table.now) }
{
    let without = match form {
        Ok(Form::Raw) => {
            return match short_number_at(table, "block", 1, MAX_BLOCK, Some(DEFAULT_BLOCK)) {
                Ok(block) => Ok(SourceForm::Raw { block }),
                Err(field) => Err(field),
            };
        }
        Ok(Form::Framed) => SourceForm::Framed,
        Err(_) => SourceForm::Raw {
            block: DEFAULT_BLOCK,
        },
    };
    match value_at(table, "block") {
        None => Ok(without),
        Some(_) => Err("block"),
    }
}

/// The form of a source, of its `form` and its `block`.
pub fn source_form_at<'a>(table: &Table) -> Result<SourceForm, &'a str>
    ensures { seen (λ form. form) result ≡ source_form (table_view table.now) }
{
    let form = form_at(table);
    let block = block_at(table, &form);
    match both(form, block) {
        Ok((_, form)) => Ok(form),
        Err(field) => Err(field),
    }
}
