//! Names of files.

ghost use Rattle.std.specs.Prelude.{◌≡◌, IfOk, string_bytes, true};

use std::alloc::{AllocError as OutOfMemory, Global};
use std::marker::Model;

/// A file name of the command line: 1 to 4,096 bytes without control characters (below 32, or 127).
/// Contracts see its bytes.
#[derive(Debug, Drop)]
pub struct FileName {
    text: String,
}

impl Model for FileName {
    ghost use Rattle.std.specs.Prelude.{◌≡◌, List, ℕ, string_bytes, true};
    ghost use Rattle.timing_base.specs.Name.{is_file_name};

    ghost Value = { List ℕ };

    ghost view = { λ name. string_bytes name.text };

    ghost invariant = { λ name. is_file_name (string_bytes name.text) ≡ true };
}

impl FileName {
    ghost use Rattle.timing_base.specs.Name.{is_file_name};

    /// Makes a file name of this text.
    pub fn from_text(text: String) -> FileName
        requires { is_file_name (string_bytes text) ≡ true }
        ensures { result ≡ string_bytes text }
    {
        FileName { text }
    }

    /// Returns an equal file name. Returns `Err` if memory runs out.
    pub fn try_copy(&self, alloc: Global) -> Result<FileName, OutOfMemory>
        ensures { IfOk result (λ copy. copy ≡ self.now) }
    {
        let text = String::from_str(alloc, self.text.as_str())?;
        Ok(FileName { text })
    }

    /// Returns the text of the name.
    pub fn as_str(&self) -> &str
        ensures text { result.now ≡ self.now }
        ensures within { is_file_name self.now ≡ true }
    {
        self.text.as_str()
    }
}
