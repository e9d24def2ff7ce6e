ghost use Rattle.std.specs.Prelude.{◌≡◌, ◌∷◌, [], Some, List, ℕ};
ghost use Rattle.mu_model_script.specs.Tokens.{after_prefix};
ghost use Rattle.std.specs.Option.{option_copied, option_map};
ghost use Rattle.mu_top.specs.Words.{command, command_named, command_of, image_command};

use mu_command_line::WordList;
use mu_script::number;

/// What a command line asks for.
#[derive(Clone, Copy, Debug, PartialEq, Eq)]
pub enum Command {
    /// Runs the script that the source gives.
    Replay,
    /// Writes the canonical octets of the payloads that the source gives.
    Check,
    /// Shows the messages of the payloads that the source gives.
    Show,
    /// Writes what the image is that the source gives, of this version.
    Image { version: u32 },
}

/// The command of this name.
fn command_named(word: &[u8]) -> Option<Command>
    ensures { option_map command result ≡ command_named word.now }
{
    if word == b"replay".as_slice() {
        return Some(Command::Replay);
    }
    if word == b"check".as_slice() {
        return Some(Command::Check);
    }
    if word == b"show".as_slice() {
        return Some(Command::Show);
    }
    None
}

/// What stands behind a key's name and `=`: none where the word has another key.
fn value_of<'a>(word: &'a [u8], key: &[u8]) -> Option<&'a [u8]>
    ensures { option_copied result ≡ after_prefix key.now word.now }
{
    word.strip_prefix(key)
}

/// `image` and its one key.
fn image_command(words: &WordList) -> Option<Command>
    ensures { (name : List ℕ) (keys : List (List ℕ)) → words.now ≡ Some (name ∷ keys) → option_map command result ≡ image_command keys }
{
    if words.word(2).is_some() {
        return None;
    }
    let value = value_of(words.word(1)?, b"version=")?;
    let version = number(value, 0, u32::MAX as u64)?;
    Some(Command::Image {
        version: version as u32,
    })
}

/// The command that the words spell: none where the list is overfull, or where they aren't in the grammar of commands.
pub fn read_words(words: &WordList) -> Option<Command>
    ensures { option_map command result ≡ command_of words.now }
{
    let word = words.word(0)?;
    if word == b"image".as_slice() {
        return image_command(words);
    }
    if words.word(1).is_some() {
        return None;
    }
    command_named(word)
}
