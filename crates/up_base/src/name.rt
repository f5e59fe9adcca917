ghost use Rattle.std.specs.Prelude.{◌≡◌, true};
ghost use Rattle.up_base.specs.Name.{is_name};
ghost use Rattle.up_base.specs.NameOf.{name_of};

use crate::BadName;
use crate::name_text::NameText;
use std::marker::{Model, PhantomData};

/// What a `PipeName` names.
#[derive(Clone, Copy, Debug)]
pub struct PipeNames;

/// What a `WorkerName` names.
#[derive(Clone, Copy, Debug)]
pub struct WorkerNames;

/// What an `AttrName` names.
#[derive(Clone, Copy, Debug)]
pub struct AttrNames;

/// A name of 1 to 64 bytes, each one of `A-Z a-z 0-9 . _ -`. `Of` keeps names of different things apart.
#[derive(Clone, Copy, Debug)]
pub struct Name<Of> {
    text: NameText,
    of: PhantomData<Of>,
}

pub type PipeName = Name<PipeNames>;

pub type WorkerName = Name<WorkerNames>;

/// The name of an attribute of a packet.
pub type AttrName = Name<AttrNames>;

impl<Of> Model for Name<Of> {
    ghost use Rattle.std.specs.Prelude.{List, ℕ};

    ghost Value = { List ℕ };

    ghost view = { λ name. name.text };

    ghost inverse = { λ bytes. record { text = bytes; of = record {} } };
}

impl<Of> Name<Of> {
    pub fn read(text: &[u8]) -> Result<Name<Of>, BadName>
        ensures { result ≡ name_of text.now }
    {
        let text = NameText::read(text)?;
        Ok(Name {
            text,
            of: PhantomData,
        })
    }

    /// `read` tests whether a text is a name.
    pub fn of(text: &[u8]) -> Name<Of>
        requires { is_name text.now ≡ true }
        ensures { result ≡ text.now }
    {
        Name {
            text: NameText::keep(text),
            of: PhantomData,
        }
    }

    pub fn bytes(&self) -> &[u8]
        ensures bytes { result.now ≡ self.now }
        ensures name { is_name result.now ≡ true }
    {
        self.text.bytes()
    }
}
