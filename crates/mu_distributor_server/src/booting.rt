// The distributor that a flash holds.
ghost use Rattle.std.specs.Prelude.{◌≡◌, ◌≤◌, IsTrue, IfOk, IfErr, OnErr, MatchResult, None, true};
ghost use Rattle.mu_model_flash.specs.Cause.{Rose};
ghost use Rattle.mu_model_flash.specs.Flash.{Unchanged};
ghost use Rattle.mu_model_record.specs.Kinds.{IsStore};
ghost use Rattle.mu_model_distributor.specs.DistState.{DistDurable};
ghost use Rattle.mu_model_distributor.specs.DistEvents.{restarted};
ghost use Rattle.mu_model_node.specs.BlobServer.{asleep};
ghost use Rattle.mu_model_represents_distributor.specs.RepresentsDistributor.{IsNoDistributorRecord, RepresentsDistributor};
ghost use Rattle.mu_store.specs.declared.booting.BootWhy.TheVariants.{Flash as ByFlash, Foreign};
ghost use Rattle.mu_place.specs.Place.{place_flash, place_record, place_fresh};
ghost use Rattle.mu_blobsrv.specs.Views.{place_of, fault_of, session_of};
ghost use Rattle.mu_distributor_server.specs.Boots.{IsDistributorKind, IsBooted};
ghost use Rattle.mu_distributor_server.specs.Views.{server_in, memory_in, place_in, record_in, fault_in, seen_of, address_of, moment_of};
ghost use Rattle.mu_distributor_server.specs.Shows.{Holds};

use crate::distributor::Distributor;
use crate::judging::memory_of;
use mu_blobsrv::BlobServer;
use mu_model_represents::laws::blob_parts;
use mu_model_represents_distributor::laws::foreign_to_distributors;
use mu_model_stored_distributor::laws::distributor_is_read;
use mu_outside::Flash;
use mu_store::{BootFail, BootWhy, boot};

// The distributor of a server that a boot found, where its record is a distributor's.
#[tactic(auto, using(crate::proofs::Boots::rests_booted, crate::proofs::Boots::four_booted))]
fn distributor_of<F: Flash>(
    server: BlobServer<F>,
    address: u16,
) -> Result<Distributor<F>, BootFail<F>>
    requires fault { fault_of server ≡ None }
    ensures server { IfOk result (λ v. server_in v ≡ server) }
    ensures memory { IfOk result (λ v. IsBooted F.seen server (memory_in v)) }
    ensures address { IfOk result (λ v. address_of v ≡ address) }
    ensures moment { IfOk result (λ v. moment_of v ≡ 0) }
    ensures foreign { IfErr result (λ fail. fail.why ≡ Foreign) }
    ensures flash { IfErr result (λ fail. fail.flash ≡ place_flash (place_of server)) }
    ensures none { OnErr result (IsNoDistributorRecord (place_record (place_of server))) }
{
    match memory_of(&server) {
        Some(memory) => Ok(Distributor {
            server,
            memory,
            address,
            moment: 0,
        }),
        None => Err(BootFail {
            why: BootWhy::Foreign,
            flash: server.into_flash(),
        }),
    }
}

impl<F: Flash> Distributor<F> {
    /// The distributor of a flash, at its unicast address: what the present record says, with the link of its upload Cut. It begins no operation. It
    /// looks at the control pages, then the marks, then the banks in rising order, then the tag: `Foreign` comes also where that isn't a distributor's.
    pub fn boot(flash: F, address: u16) -> Result<Distributor<F>, BootFail<F>>
        requires least { 1 ≤ address }
        requires most { address ≤ 0x7FFF }
        ensures kinds { IsTrue (F.seen flash).told → MatchResult result (λ v. IsStore (F.seen flash).octets (record_in v)) (λ fail. IsDistributorKind (F.seen flash).octets fail.why) }
        ensures state { IsTrue (F.seen flash).told → (d : DistDurable) → RepresentsDistributor d (F.seen flash).octets
            → MatchResult result (λ v. Holds F.seen v (restarted address d)) (λ fail. fail.why ≡ ByFlash) }
        ensures fault { IfOk result (λ v. fault_in v ≡ None) }
        ensures address { IfOk result (λ v. address_of v ≡ address) }
        ensures asleep { IfOk result (λ v. session_of (server_in v) ≡ asleep) }
        ensures fresh { IfOk result (λ v. place_fresh (place_in v) ≡ 0) }
        ensures moment { IfOk result (λ v. moment_of v ≡ 0) }
        ensures same { MatchResult result (λ v. Unchanged (F.seen flash) (seen_of F.seen v)) (λ fail. Unchanged (F.seen flash) (F.seen fail.flash)) }
        ensures cause { IfErr result (λ fail. fail.why ≡ ByFlash → Rose (F.seen flash).faults (F.seen fail.flash).faults × (IsTrue (F.seen flash).only_armed → (F.seen fail.flash).off ≡ true)) }
    {
        foreign_to_distributors();
        blob_parts();
        distributor_is_read();
        let booted = match boot(flash) {
            Ok(booted) => booted,
            Err(fail) => return Err(fail),
        };
        let server = match BlobServer::from_boot(booted) {
            Ok(server) => server,
            Err(fail) => return Err(fail),
        };
        server.known();
        distributor_of(server, address)
    }
}
