// One line of a script.
ghost use Rattle.std.specs.Prelude.{◌≡◌, ◌≤◌, ◌<◌, ◌+◌, length, slice_get, OnOk, IfErr, None};
ghost use Rattle.mu_model_script.specs.Pieces.{tokens_of};
ghost use Rattle.mu_model_script.specs.Texts.{bad_word, line_word};
ghost use Rattle.mu_model_world.specs.Judged.{most_events, place_at};
ghost use Rattle.mu_top.specs.LineDone.{Does, Stops};

use crate::work::LineStop;
use mu_model_script::{BadWhy, LineWhy};
use mu_script::read_line;
use mu_world::{Lines, World, WorldFault};

/// The place of the first octet of a token, by its number in the line from 0.
fn place_of(line: &[u8], token: u8) -> u16
    requires { length line.now ≤ 4096 }
    ensures { result ≡ place_at (slice_get (tokens_of line.now) token) }
{
    if token == 0 {
        return 0;
    }
    let mut left = token;
    for (i, octet) in line.iter().enumerate() {
        if *octet == b' ' {
            left -= 1;
            if left == 0 {
                return i as u16 + 1;
            }
        }
    }
    0
}

/// The word of a refusal of a line by itself.
fn line_word(why: LineWhy) -> &'static [u8]
    ensures { result.now ≡ line_word why }
{
    match why {
        LineWhy::Token => b"token",
        LineWhy::Long => b"long",
    }
}

/// The word of a refusal of a line in its world.
fn bad_word(why: BadWhy) -> &'static [u8]
    ensures { result.now ≡ bad_word why }
{
    match why {
        BadWhy::Token => b"token",
        BadWhy::Member => b"member",
        BadWhy::Packet => b"packet",
        BadWhy::Premise => b"premise",
    }
}

/// Does one line of a script, and prints what it prints. A refused line changes nothing.
pub(crate) fn do_line(world: &mut World, line: &[u8], lines: &mut Lines) -> Result<(), LineStop>
    requires short { length line.now ≤ 4096 }
    requires few { world.old.world.events < most_events }
    requires going { world.old.fault ≡ None }
    ensures ok { OnOk result (Does world.old.world line.now lines.old lines.new world.new.world) }
    ensures going { OnOk result (world.new.fault ≡ None) }
    ensures few { OnOk result (world.new.world.events ≤ world.old.world.events + 1) }
    ensures err { IfErr result (Stops world.old.world line.now) }
{
    let read = read_line(line);
    let event = match &read {
        Ok(Some(event)) => event,
        Ok(None) => return Ok(()),
        Err(fault) => {
            return Err(LineStop::Refused {
                place: fault.at,
                word: line_word(fault.why),
            });
        }
    };
    match world.line(event, lines) {
        Ok(()) => Ok(()),
        Err(WorldFault::Memory) => Err(LineStop::Memory),
        Err(WorldFault::Worn { .. }) => Err(LineStop::Worn),
        Err(WorldFault::TooLong) => {
            prove!(false);
            Err(LineStop::Memory)
        }
        Err(WorldFault::Bad { token, why }) => Err(LineStop::Refused {
            place: place_of(line, token),
            word: bad_word(why),
        }),
    }
}
