// What a world shows of its members.
ghost use Rattle.std.specs.Prelude.{◌≡◌, ◌++◌, [], OnOk, if◌then◌else◌};
ghost use Rattle.mu_model_script.specs.Texts.{unread_text};
ghost use Rattle.mu_model_world.specs.Outcomes.{active_texts};

use crate::lines::Lines;
use crate::member::Member;
use std::alloc::AllocError;

/// Prints that a packet was unread at a member, where it wasn't handled.
pub(crate) fn print_unread(
    handled: bool,
    number: u32,
    address: u16,
    lines: &mut Lines,
) -> Result<(), AllocError>
    ensures { OnOk result (lines.new ≡ lines.old ++ (if handled then [] else unread_text number address)) }
{
    if handled {
        Ok(())
    } else {
        lines.unread(number, address)
    }
}

/// Prints the active images of a member.
pub(crate) fn print_active(
    member: &Member,
    address: u16,
    lines: &mut Lines,
) -> Result<(), AllocError>
    ensures { OnOk result (lines.new ≡ lines.old ++ active_texts address member.now.state.durable.images) }
{
    let count = member.images();
    let first = member.active(0);
    lines.active(address, first.version, first.size, &first.digest)?;
    if count == 2 {
        let second = member.active(1);
        lines.active(address, second.version, second.size, &second.digest)?;
    }
    Ok(())
}
