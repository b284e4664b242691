//! A text, of which few bytes stand in the value itself.
ghost use Rattle.std.specs.Prelude.{◌≡◌, IfOk};

use arrayvec::ArrayString;
use std::alloc::{AllocError, Global};
use std::marker::Model;

#[derive(Drop, Debug)]
enum Letters {
    Short(ArrayString<24>),
    Long(String),
}

/// A text, which contracts see as its bytes. Up to 24 stand in the value itself; more in a block of their own.
#[derive(Drop, Debug)]
pub(crate) struct Chars {
    letters: Letters,
}

impl Model for Chars {
    ghost use Rattle.std.specs.Prelude.{ℕ, List};
    ghost use Rattle.ks_record.specs.Payloads.{letters_of};

    ghost Value = { List ℕ };

    ghost view = { λ c. letters_of c.letters };
}

impl Clone for Chars {
    ghost is_clone = { λ c copy. copy ≡ c };

    fn clone(&self) -> Result<Chars, AllocError> {
        match &self.letters {
            Letters::Short(text) => Ok(Chars {
                letters: Letters::Short(*text),
            }),
            Letters::Long(text) => Ok(Chars {
                letters: Letters::Long(text.clone()?),
            }),
        }
    }
}

impl Chars {
    /// A copy of this text.
    pub(crate) fn from_str(alloc: Global, text: &str) -> Result<Chars, AllocError>
        ensures { IfOk result (λ c. c ≡ text.now) }
    {
        match ArrayString::from(text) {
            Ok(text) => Ok(Chars {
                letters: Letters::Short(text),
            }),
            Err(_) => Ok(Chars {
                letters: Letters::Long(String::from_str(alloc, text)?),
            }),
        }
    }

    pub(crate) fn as_str(&self) -> &str
        ensures { result.now ≡ self.now }
    {
        match &self.letters {
            Letters::Short(text) => text.as_str(),
            Letters::Long(text) => text.as_str(),
        }
    }
}
