// The members of a script by their addresses.
ghost use Rattle.std.specs.Prelude.{◌≡◌, Some, None, [], map, nat_eq, IfSome, IfOk, IfErr, OnOk, OnErr, IsSome};
ghost use Rattle.std.specs.Map.{lookup};
ghost use Rattle.mu_codec.specs.View.{packet_of};
ghost use Rattle.mu_reference_node.specs.Events.{event_of};
ghost use Rattle.mu_world.specs.Outcome.{ArmedIn, CutIn, HandedTo, StoppedAt};

use crate::fault::{WorldFault, bad};
use crate::member::{Boot, Came, Member, Tear};
use indexmap::IndexMap;
use mu_codec::Outbox;
use mu_model_script::BadWhy;
use mu_reference_node::Event;
use std::alloc::Global;

/// An event comes to the member at an address, at a moment that isn't before its own. Where it isn't done, nothing has changed.
pub(crate) fn hand<'a>(
    alloc: Global,
    members: &mut IndexMap<u16, Member>,
    address: u16,
    event: Event<'a>,
    now: u64,
    out: &mut Outbox,
) -> Result<Came, WorldFault>
    requires { out.old.items ≡ [] }
    ensures ok { IfOk result (λ came. IfSome (lookup (nat_eq address) members.old.entries) (λ old.
        HandedTo members.old.entries members.new.entries address old (event_of event.entry) now (map packet_of out.new.items) came)) }
    ensures err { IfErr result (λ fault. IfSome (lookup (nat_eq address) members.old.entries) (λ old.
        StoppedAt address old (event_of event.entry) now fault)) }
    ensures same { OnErr result (members.new.entries ≡ members.old.entries) }
{
    let Some(member) = members.get_mut(&address) else {
        return Err(bad(1, BadWhy::Member));
    };
    match member.happen(alloc, address, event, now, out) {
        Ok(came) => Ok(came),
        Err(stop) => Err(WorldFault::at(address, stop)),
    }
}

/// The power of the member at an address goes between events.
pub(crate) fn cut(members: &mut IndexMap<u16, Member>, address: u16) -> Result<Boot, WorldFault>
    ensures ok { IfOk result (λ boot. IfSome (lookup (nat_eq address) members.old.entries) (λ old.
        CutIn members.old.entries members.new.entries address old boot)) }
    ensures found { OnOk result (IsSome (lookup (nat_eq address) members.old.entries)) }
    ensures err { IfErr result (λ fault. (lookup (nat_eq address) members.old.entries ≡ None) × (fault ≡ WorldFault.Bad 1 BadWhy.Member)) }
    ensures same { OnErr result (members.new.entries ≡ members.old.entries) }
{
    match members.get_mut(&address) {
        Some(member) => Ok(member.cut()),
        None => Err(bad(1, BadWhy::Member)),
    }
}

/// The power of the member at an address is to go in an event.
pub(crate) fn arm(
    members: &mut IndexMap<u16, Member>,
    address: u16,
    tear: Tear,
) -> Result<(), WorldFault>
    ensures ok { OnOk result (IfSome (lookup (nat_eq address) members.old.entries) (λ old.
        ArmedIn members.old.entries members.new.entries address old tear)) }
    ensures found { OnOk result (IsSome (lookup (nat_eq address) members.old.entries)) }
    ensures err { IfErr result (λ fault. (lookup (nat_eq address) members.old.entries ≡ None) × (fault ≡ WorldFault.Bad 1 BadWhy.Member)) }
    ensures same { OnErr result (members.new.entries ≡ members.old.entries) }
{
    match members.get_mut(&address) {
        Some(member) => {
            member.arm(tear);
            Ok(())
        }
        None => Err(bad(1, BadWhy::Member)),
    }
}
