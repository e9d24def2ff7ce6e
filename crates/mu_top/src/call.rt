// The one call of the program.
ghost use Rattle.std.specs.Prelude.{◌≡◌, ◌≢◌, ◌↔◌, ℕ, None, Some};
ghost use Rattle.mu_model_flash.specs.Cause.{Rose};
ghost use Rattle.mu_model_safety.specs.Laws.{EveryCutIsSafe, EveryWorldIsSafe};
ghost use Rattle.mu_top.specs.Images.{ImageCompletes, PrintsImage};
ghost use Rattle.mu_top.specs.Payloads.{PrintsPayloads, PayloadsComplete};
ghost use Rattle.mu_top.specs.Replay.{Replayed, ReplayCompletes};
ghost use Rattle.mu_top.specs.declared.payloads.PayloadText.TheVariants.{Canonical, Shown};
ghost use Rattle.mu_top.specs.Words.{command_of, Check, Image, Replay, Show};

use crate::image::print_image;
use crate::payloads::{PayloadText, print_payloads};
use crate::replay::replay;
use crate::words::{Command, read_words};
use mu_command_line::{Status, WordList};
use mu_model_safety::laws::every_world_is_safe;
use mu_outside::{Clock, Flash, Link, Sink, Source};
use std::alloc::Global;

/// How a command has ended, and the flash that was handed in.
#[derive(Drop)]
pub struct Ended<F> {
    /// The exit status: the number of a [`Status`].
    pub status: u8,
    pub flash: F,
}

/// Does what the words ask for, over the outside that is handed in, and answers the exit status.
///
/// `replay` runs the script that the source gives, line by line, and writes its trace to the sink. `check` writes the canonical
/// octets of the payloads that the source gives, one in hexadecimal on a line; `show` writes their messages, one on a line.
/// `image` writes the size, the version and the digest of the image that the source gives, its metadata and its Firmware ID.
pub fn top<S: Source, K: Sink, F: Flash, L: Link, C: Clock>(
    alloc: Global,
    words: &WordList,
    source: &mut S,
    sink: &mut K,
    flash: F,
    link: &mut L,
    clock: &mut C,
) -> Ended<F>
    // `replay` writes the model's run.
    ensures replay { command_of words.now ≡ Some Replay
        → Replayed (S.left source.old) (S.left source.new) (K.written sink.old) (K.written sink.new) result.status }

    // In every world of that run, and wherever the power of a node may go in it, each active image of each node is one that it was
    // made with, or a whole image that it accepted and whose Update Apply reached it verified.
    ensures safe { EveryWorldIsSafe × EveryCutIsSafe }

    // A sound script from a source and to a sink that don't fail is done whole, unless memory is wanting.
    ensures replay_complete { command_of words.now ≡ Some Replay → (Rose (S.faults source.old) (S.faults source.new) → ⊥) → (Rose (K.faults sink.old) (K.faults sink.new) → ⊥)
        → ReplayCompletes (S.left source.old) (S.left source.new) (K.written sink.old) (K.written sink.new) result.status }

    // `check` writes the canonical octets of each payload, `show` the line that shows its message; neither takes memory.
    ensures check { command_of words.now ≡ Some Check
        → PrintsPayloads Canonical (S.left source.old) (S.left source.new) (K.written sink.old) (K.written sink.new) result.status }
    ensures check_complete { command_of words.now ≡ Some Check → (Rose (S.faults source.old) (S.faults source.new) → ⊥) → (Rose (K.faults sink.old) (K.faults sink.new) → ⊥)
        → PayloadsComplete Canonical (S.left source.old) (S.left source.new) (K.written sink.old) (K.written sink.new) result.status }
    ensures check_memory { command_of words.now ≡ Some Check → result.status ≢ 9 }
    ensures show { command_of words.now ≡ Some Show
        → PrintsPayloads Shown (S.left source.old) (S.left source.new) (K.written sink.old) (K.written sink.new) result.status }
    ensures show_complete { command_of words.now ≡ Some Show → (Rose (S.faults source.old) (S.faults source.new) → ⊥) → (Rose (K.faults sink.old) (K.faults sink.new) → ⊥)
        → PayloadsComplete Shown (S.left source.old) (S.left source.new) (K.written sink.old) (K.written sink.new) result.status }
    ensures show_memory { command_of words.now ≡ Some Show → result.status ≢ 9 }

    // `image` writes what the image is; it takes no memory.
    ensures image { (version : ℕ) → command_of words.now ≡ Some (Image version)
        → PrintsImage version (S.left source.old) (S.left source.new) (K.written sink.old) (K.written sink.new) result.status }
    ensures image_complete { (version : ℕ) → command_of words.now ≡ Some (Image version) → (Rose (S.faults source.old) (S.faults source.new) → ⊥) → (Rose (K.faults sink.old) (K.faults sink.new) → ⊥)
        → ImageCompletes (S.left source.old) (S.left source.new) result.status }
    ensures image_memory { (version : ℕ) → command_of words.now ≡ Some (Image version) → result.status ≢ 9 }

    // 2 exactly where the words are no command, and then nothing was done.
    ensures usage { (result.status ≡ 2) ↔ (command_of words.now ≡ None) }
    ensures idle { command_of words.now ≡ None → (source.new ≡ source.old) × (sink.new ≡ sink.old) }

    // A fault of the source or the sink only where it has failed in this call.
    ensures source_fault { result.status ≡ 3 → Rose (S.faults source.old) (S.faults source.new) }
    ensures sink_fault { result.status ≡ 4 → Rose (K.faults sink.old) (K.faults sink.new) }

    // What a command doesn't use comes back untouched.
    ensures flash { result.flash ≡ flash }
    ensures link { link.new ≡ link.old }
    ensures clock { clock.new ≡ clock.old }
{
    every_world_is_safe();
    let status = match read_words(words) {
        None => Status::Usage,
        Some(Command::Replay) => replay(alloc, source, sink),
        Some(Command::Check) => print_payloads(PayloadText::Canonical, source, sink),
        Some(Command::Show) => print_payloads(PayloadText::Shown, source, sink),
        Some(Command::Image { version }) => print_image(version, source, sink),
    };
    Ended {
        status: status.number(),
        flash,
    }
}
