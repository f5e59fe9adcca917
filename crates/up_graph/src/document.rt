ghost use Rattle.std.specs.Prelude.{◌≡◌};
ghost use Rattle.toml.specs.Parse.{parse_document};
ghost use Rattle.toml.specs.View.{table_view};
ghost use Rattle.up_graph.specs.Answers.{Answers};
ghost use Rattle.up_graph.specs.Document.{document_of, parsed};

use crate::GraphRefused;
use std::alloc::Global;
use toml::Table;
use up_model::MAX_GRAPH;

/// The table that a text is.
#[tactic(auto, unfolding(crate::specs::Document::document_of))]
pub fn document_at(alloc: Global, text: &[u8]) -> Result<Table, GraphRefused>
    ensures { Answers table_view result (document_of text.now) }
{
    if text.len() > MAX_GRAPH {
        return Err(GraphRefused::TooBig { len: text.len() });
    }
    match std::str::from_utf8(text) {
        Ok(text) => parse(alloc, text),
        Err(_) => Err(GraphRefused::NotToml),
    }
}

fn parse(alloc: Global, text: &str) -> Result<Table, GraphRefused>
    ensures { Answers table_view result (parsed (parse_document text.now)) }
{
    match toml::table_from_str(alloc, text) {
        Ok(table) => Ok(table),
        Err(error) => {
            if error.is_memory() {
                Err(GraphRefused::NoMemory)
            } else {
                Err(GraphRefused::NotToml)
            }
        }
    }
}
