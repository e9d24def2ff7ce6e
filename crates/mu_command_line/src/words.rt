// The words of a command line.
ghost use Rattle.std.specs.Prelude.{◌≡◌, [], Some};
ghost use Rattle.std.specs.Option.{option_copied};
ghost use Rattle.mu_command_line.specs.Words.{with_word, word_at};

use arrayvec::ArrayVec;
use std::marker::Model;

/// The words of a command line: at most 32 words of 8,192 octets in all. With more it is overfull.
#[derive(Drop)]
pub struct WordList {
    octets: ArrayVec<u8, 8192>,
    lengths: ArrayVec<u16, 32>,
    overfull: bool,
}

impl Model for WordList {
    ghost use Rattle.std.specs.Prelude.{◌≡◌, ℕ, List, length, sum, Option, Some, None, if◌then◌else◌};
    ghost use Rattle.mu_command_line.specs.Words.{words_of};

    ghost Value = { Option (List (List ℕ)) };

    ghost view = { λ w. if w.overfull then None else Some (words_of w.lengths.items w.octets.items) };

    ghost invariant = { λ w. sum w.lengths.items ≡ length w.octets.items };
}

impl WordList {
    /// No words.
    pub fn new() -> WordList
        ensures { result ≡ Some [] }
    {
        WordList {
            octets: ArrayVec::new(),
            lengths: ArrayVec::new(),
            overfull: false,
        }
    }

    /// Appends a word. Where there would be more than 32 words, or more than 8,192 octets in all, the list is overfull
    /// from then on.
    pub fn add(&mut self, word: &str)
        ensures { self.new ≡ with_word self.old word.now }
    {
        let octets = word.as_bytes();
        if self.lengths.is_full() {
            self.overfull = true;
            return;
        }
        if self.octets.try_extend_from_slice(octets).is_err() {
            self.overfull = true;
            return;
        }
        self.lengths.push(octets.len() as u16);
    }

    /// The octets of the word at this place, from 0: none where there are fewer words, or the list is overfull.
    pub fn word(&self, place: usize) -> Option<&[u8]>
        ensures { option_copied result ≡ word_at self.now place }
    {
        if self.overfull {
            return None;
        }
        let mut octets = self.octets.as_slice();
        for (k, length) in self.lengths.as_slice().iter().enumerate() {
            let (word, rest) = octets.split_at(*length as usize);
            if k == place {
                return Some(word);
            }
            octets = rest;
        }
        None
    }
}
