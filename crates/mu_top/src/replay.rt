// Running a script.
ghost use Rattle.std.specs.Prelude.{◌≡◌, ◌≢◌};
ghost use Rattle.mu_model_flash.specs.Cause.{Rose};
ghost use Rattle.mu_model_script.specs.Limits.{most_lines};
ghost use Rattle.mu_model_world.specs.Run.{Step, Bars, Wears};
ghost use Rattle.mu_model_world.specs.World.{new_world};
ghost use Rattle.mu_top.specs.Ends.{Completes, Ends};
ghost use Rattle.mu_top.specs.Replay.{ScriptEnds};

use crate::line::do_line;
use crate::work::{LineStop, LineWork, run};
use mu_command_line::{Status, write_all};
use mu_model_world::laws::runs;
use mu_outside::{Sink, Source};
use mu_world::{Lines, World};
use std::alloc::Global;
use std::marker::Model;

/// The most lines of a script.
const MOST_LINES: u32 = 100_000;

/// A world in which a script is run.
#[derive(Drop)]
struct Script {
    world: World,
    /// What the last line has printed.
    lines: Lines,
}

impl Model for Script {
    ghost use Rattle.mu_world.specs.Moved.{Held};

    ghost Value = { Held };

    ghost view = { λ s. s.world };
}

impl LineWork for Script {
    ghost use Rattle.std.specs.Prelude.{◌≡◌, ◌≤◌, ◌<◌, length, OnOk, IfErr};
    ghost use Rattle.mu_model_flash.specs.Cause.{Rose};
    ghost use Rattle.mu_model_script.specs.Limits.{most_lines};
    ghost use Rattle.mu_top.specs.HeldRun.{HeldStep, HeldBars, HeldWears, GoesOn};
    ghost use Rattle.mu_top.specs.LineDone.{DidLine, StopsLine};
    ghost use Rattle.std.proofs.lemmas.Bool.{lt-ltb};
    ghost use Rattle.std.proofs.Common.{refl};

    ghost does = { HeldStep };

    ghost bars = { HeldBars };

    ghost wears = { HeldWears };

    ghost grows = { λ _. Unit {0} };

    ghost most = { most_lines };

    ghost goes_on = { GoesOn };

    ghost too_long = { λ state line long. rw (lt-ltb 4096 (length line) long) refl };

    fn do_line<K: Sink>(&mut self, line: &[u8], sink: &mut K) -> Result<(), LineStop> {
        self.lines.clear();
        do_line(&mut self.world, line, &mut self.lines)?;
        match write_all(sink, self.lines.bytes()) {
            Ok(()) => Ok(()),
            Err(_) => Err(LineStop::Sink),
        }
    }
}

/// Runs the script that the source gives, line by line, and writes its trace.
pub(crate) fn replay<S: Source, K: Sink>(alloc: Global, source: &mut S, sink: &mut K) -> Status
    ensures ends { Ends Step Bars Wears new_world most_lines (S.left source.old) (S.left source.new) (K.written sink.old) (K.written sink.new) result }
    ensures complete { (Rose (S.faults source.old) (S.faults source.new) → ⊥) → (Rose (K.faults sink.old) (K.faults sink.new) → ⊥)
        → Completes ScriptEnds (S.left source.old) (S.left source.new) (K.written sink.old) (K.written sink.new) result }
    ensures source { result ≡ Status.SourceFault → Rose (S.faults source.old) (S.faults source.new) }
    ensures sink { result ≡ Status.SinkFault → Rose (K.faults sink.old) (K.faults sink.new) }
    ensures command { result ≢ Status.Usage }
{
    let world = match World::new(alloc) {
        Ok(world) => world,
        Err(_) => return Status::NoMemory,
    };
    let lines = Lines::new(alloc);
    runs();
    run(&mut Script { world, lines }, MOST_LINES, source, sink)
}
