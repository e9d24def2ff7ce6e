// The node that a flash holds.
ghost use Rattle.std.specs.Prelude.{◌≡◌, IsTrue, IfOk, IfErr, OnErr, MatchResult, None, true};
ghost use Rattle.mu_model_flash.specs.Cause.{Rose};
ghost use Rattle.mu_model_flash.specs.Flash.{Unchanged};
ghost use Rattle.mu_model_record.specs.Kinds.{IsStore};
ghost use Rattle.mu_model_node.specs.NodeState.{NodeDurable, restarted};
ghost use Rattle.mu_model_node.specs.BlobServer.{asleep};
ghost use Rattle.mu_model_represents.specs.RepresentsNode.{IsNoNodeRecord, RepresentsNode};
ghost use Rattle.mu_store.specs.declared.booting.BootWhy.TheVariants.{Flash as ByFlash, Foreign};
ghost use Rattle.mu_place.specs.Place.{place_flash, place_record, place_fresh};
ghost use Rattle.mu_blobsrv.specs.Views.{store_of, place_of, fault_of, session_of};
ghost use Rattle.mu_kept.specs.Views.{part_in};
ghost use Rattle.mu_note.specs.Views.{node_note};
ghost use Rattle.mu_node.specs.Rules.{GoesWith};
ghost use Rattle.mu_node.specs.Boots.{IsNodeKind};
ghost use Rattle.mu_node.specs.Views.{server_in, note_in as note_of, config_of, moment_of, place_in, fault_in, memory_of, seen_of, Holds};

use crate::judging::note_in;
use crate::node::Node;
use mu_blobsrv::{BlobServer, BootFail, BootWhy};
use mu_model_node::NodeConfig;
use mu_model_node::laws::states_are_sound;
use mu_model_represents::laws::{foreign_to_others, represented_is_sound};
use mu_model_serving::laws::nodes_serve_by_their_blocks;
use mu_model_shown_node::laws::memory_is_kept;
use mu_outside::Flash;
use mu_store::boot;

// The node of a server that a boot found, where its record is a node's.
fn node_of<F: Flash>(server: BlobServer<F>, config: NodeConfig) -> Result<Node<F>, BootFail<F>>
    requires fault { fault_of server ≡ None }
    ensures server { IfOk result (λ node. server_in node ≡ server) }
    ensures config { IfOk result (λ node. config_of node ≡ config) }
    ensures moment { IfOk result (λ node. moment_of node ≡ 0) }
    ensures note { IfOk result (λ node. GoesWith (place_record (place_of server)) (part_in (store_of server)) (node_note (note_of node))) }
    ensures foreign { IfErr result (λ fail. fail.why ≡ Foreign) }
    ensures flash { IfErr result (λ fail. fail.flash ≡ place_flash (place_of server)) }
    ensures none { OnErr result (IsNoNodeRecord (place_record (place_of server))) }
{
    match note_in(&server) {
        Some(note) => Ok(Node {
            server,
            config,
            note,
            moment: 0,
        }),
        None => Err(BootFail {
            why: BootWhy::Foreign,
            flash: server.into_flash(),
        }),
    }
}

impl<F: Flash> Node<F> {
    /// The node of a flash, at its place in the mesh: what the present record says, with the link Cut. It begins no operation. It looks at the
    /// control pages, then the marks, then the banks in rising order, then the tag: `Foreign` comes also where that isn't a node's.
    pub fn boot(flash: F, config: NodeConfig) -> Result<Node<F>, BootFail<F>>
        ensures kinds { IsTrue (F.seen flash).told → MatchResult result (λ node. IsStore (F.seen flash).octets (memory_of node).present) (λ fail. IsNodeKind (F.seen flash).octets fail.why) }
        ensures state { IsTrue (F.seen flash).told → (d : NodeDurable) → RepresentsNode d (F.seen flash).octets → MatchResult result (λ node. Holds F.seen node (restarted d)) (λ fail. fail.why ≡ ByFlash) }
        ensures fault { IfOk result (λ node. fault_in node ≡ None) }
        ensures config { IfOk result (λ node. config_of node ≡ config) }
        ensures asleep { IfOk result (λ node. session_of (server_in node) ≡ asleep) }
        ensures fresh { IfOk result (λ node. place_fresh (place_in node) ≡ 0) }
        ensures moment { IfOk result (λ node. moment_of node ≡ 0) }
        ensures same { MatchResult result (λ node. Unchanged (F.seen flash) (seen_of F.seen node)) (λ fail. Unchanged (F.seen flash) (F.seen fail.flash)) }
        ensures cause { IfErr result (λ fail. fail.why ≡ ByFlash → Rose (F.seen flash).faults (F.seen fail.flash).faults × (IsTrue (F.seen flash).only_armed → (F.seen fail.flash).off ≡ true)) }
    {
        foreign_to_others();
        represented_is_sound();
        states_are_sound();
        nodes_serve_by_their_blocks();
        memory_is_kept();
        let booted = match boot(flash) {
            Ok(booted) => booted,
            Err(fail) => return Err(fail),
        };
        let server = match BlobServer::from_boot(booted) {
            Ok(server) => server,
            Err(fail) => return Err(fail),
        };
        server.known();
        node_of(server, config)
    }
}
