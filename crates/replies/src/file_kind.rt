//! What a file is to an action.
ghost use Rattle.std.specs.Prelude.{◌≡◌};
ghost use Rattle.replies.specs.Answer.{kind_of as the_kind_of, is_module as begins_module};

use words::Takes;

/// What a file is to what takes files.
#[derive(Clone, Copy, Debug, PartialEq, Eq)]
pub enum FileKind {
    /// The bytes of a module.
    Module,
    /// A script.
    Script,
    /// The text of a module.
    Text,
}

// Whether bytes begin as modules do.
fn is_module(bytes: &[u8]) -> bool
    ensures value { result ≡ begins_module bytes.now }
{
    matches!(bytes, [0x00, 0x61, 0x73, 0x6D, ..])
}

impl FileKind {
    /// What bytes are to what takes such files.
    pub fn of(takes: Takes, bytes: &[u8]) -> FileKind
        ensures { result ≡ the_kind_of takes bytes.now }
    {
        match takes {
            Takes::Texts => FileKind::Text,
            Takes::Modules => FileKind::Module,
            Takes::ModulesAndScripts => {
                if is_module(bytes) {
                    FileKind::Module
                } else {
                    FileKind::Script
                }
            }
        }
    }
}
