ghost use Rattle.std.specs.Prelude.{◌≡◌};
ghost use Rattle.up_strand.specs.Spellings.{form_of};

use std::alloc::Global;
use up_base::Bytes;
use up_model::SinkForm;

/// How a sink spells the packets that it takes.
#[derive(Drop)]
pub enum Spelling {
    /// Their bytes follow each other.
    Raw,
    /// Their frames do. Each is spelled in this room, which is kept for the next.
    Framed { frame: Bytes },
}

impl Spelling {
    /// That of a sink of the form. Nothing is allocated before the first frame.
    pub fn of(alloc: Global, form: SinkForm) -> Spelling
        ensures { form_of result ≡ form }
    {
        match form {
            SinkForm::Raw => Spelling::Raw,
            SinkForm::Framed => Spelling::Framed {
                frame: Bytes::new(alloc),
            },
        }
    }
}
