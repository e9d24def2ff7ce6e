// New nodes on flashes.
ghost use Rattle.std.specs.Prelude.{◌≡◌, ◌⊎◌, ℕ, ◌+◌, ◌-◌, ◌*◌, ◌<◌, ◌≤◌, ◌^◌, [], ◌∷◌, IfOk, IfErr, MatchResult};
ghost use Rattle.mu_model_flash.specs.Run.{either, Broke};
ghost use Rattle.mu_model_record.specs.Changes.{first_state};
ghost use Rattle.mu_model_record.specs.Record.{entry_of};
ghost use Rattle.mu_model_record.specs.Turns.{Anything};
ghost use Rattle.mu_model_record.specs.declared.BankState.TheVariants.{Empty};
ghost use Rattle.mu_store.specs.Filled.{SourceFaults};
ghost use Rattle.mu_store.specs.Puts.{FailOf};
ghost use Rattle.mu_store.specs.View.{store_record, StoreFaults};
ghost use Rattle.mu_updsrv.specs.Made.{tag_of_one, old_tag_of_one, tag_of_two, MakesNode, MakesPair, NodeUnmade, PairUnmade};
ghost use Rattle.mu_updsrv.specs.Making.{IsShortTag, IsMaking, Fills, Unfilled, MadeFaults, FillsFirst, UnfilledFirst};

use crate::opening::{FirstOctets, Opening};
use core::mem::replace_with;
use mu_cells::Ways;
use mu_model_flash::laws::runs;
use mu_model_image::laws::images;
use mu_model_represents::laws::{represented_is_sound, written_node};
use mu_note::{Active, NodeNote, Tag, node_note_octets, old_node_note_octets, tag_of};
use mu_outside::{Flash, Source};
use mu_store::{FillFail, FillWhy, Store, format};
use std::marker::Brand;

fn tag_of_one() -> Tag
    ensures tag { result ≡ tag_of_one }
    ensures short { IsShortTag result }
{
    tag_of(
        &None,
        &node_note_octets(&NodeNote {
            active: Active::One(0),
            job: None,
        }),
    )
}

fn old_tag_of_one() -> Tag
    ensures tag { result ≡ old_tag_of_one }
    ensures short { IsShortTag result }
{
    tag_of(
        &None,
        &old_node_note_octets(&NodeNote {
            active: Active::One(0),
            job: None,
        }),
    )
}

fn tag_of_two() -> Tag
    ensures tag { result ≡ tag_of_two }
    ensures short { IsShortTag result }
{
    tag_of(
        &None,
        &node_note_octets(&NodeNote {
            active: Active::Two(0, 1),
            job: None,
        }),
    )
}

// A store with every bank Empty.
#[tactic(auto, using(crate::proofs::Makings::first_slots))]
fn formatted<F: Flash>(flash: F, banks: u8, pages: u16, tag: &Tag) -> Result<Store<F>, FillFail<F>>
    requires banks_least { 2 ≤ banks }
    requires banks_most { banks ≤ 4 }
    requires pages_least { 1 ≤ pages }
    requires pages_most { pages ≤ 256 }
    requires flash { (F.seen flash).pages ≡ 2 + banks * (1 + pages) }
    requires short { IsShortTag tag.now }
    ensures made { IfOk result (IsMaking F.seen flash (first_state banks pages tag.now) 3 0) }
    ensures why { IfErr result (λ fail. fail.why ≡ FillWhy.Flash) }
    ensures broke { IfErr result (λ fail. Broke (either Anything) tt (tt ∷ tt ∷ tt ∷ []) (F.seen flash) (F.seen fail.flash)) }
    ensures cause { MatchResult result (λ store. (F.seen flash).faults ≤ (F.seen store.base.flash).faults) (FailOf (F.seen flash) F.seen) }
{
    match format(flash, banks, pages, tag) {
        Ok(store) => Ok(store),
        Err(stopped) => Err(FillFail {
            why: FillWhy::Flash,
            flash: stopped.flash,
        }),
    }
}

// Fills a bank of a store that is being made.
fn filled<F: Flash, S: Source>(
    store: Store<F>,
    bank: u8,
    source: &mut S,
    version: u32,
    tag: &Tag,
) -> Result<Store<F>, FillFail<F>>
    requires there { bank < (store_record store).number }
    requires is_empty { entry_of (store_record store) bank ≡ Empty }
    requires few { (store_record store).count < 2 ^ 32 - 1 }
    requires short { IsShortTag tag.now }
    ensures fills { IfOk result (Fills F.seen store (record { bank = bank; version = version; tag = tag.now }) (S.left source.old) (S.left source.new)) }
    ensures unfilled { IfErr result (Unfilled F.seen store (S.left source.old) (S.left source.new)) }
    ensures cause { MatchResult result (λ new. (F.seen store.base.flash).faults ≤ (F.seen new.base.flash).faults) (FailOf (F.seen store.base.flash) F.seen) }
    ensures source { SourceFaults (S.faults source.old) (S.faults source.new) result }
{
    runs::<Ways<F>>();
    store.fill_whole(bank, source, version, tag)
}

// Fills bank 0 with the first octets of an input, so many, and gives the input back.
fn filled_first<F: Flash, S: Source, N: Opening>(
    source: S,
    store: Store<F>,
    first: u32,
    version: u32,
    tag: &Tag,
) -> (S, Result<Store<F>, FillFail<F>>)
    requires some { 1 ≤ first }
    requires there { 0 < (store_record store).number }
    requires is_empty { entry_of (store_record store) 0 ≡ Empty }
    requires few { (store_record store).count < 2 ^ 32 - 1 }
    requires short { IsShortTag tag.now }
    requires start { S.left source ≡ N.start }
    requires limit { first ≡ N.most }
    ensures fills { IfOk result.1 (FillsFirst F.seen first store (record { bank = 0; version = version; tag = tag.now }) (S.left source) (S.left result.0)) }
    ensures unfilled { IfErr result.1 (UnfilledFirst F.seen first store (S.left source) (S.left result.0)) }
    ensures cause { MatchResult result.1 (λ new. (F.seen store.base.flash).faults ≤ (F.seen new.base.flash).faults) (FailOf (F.seen store.base.flash) F.seen) }
    ensures source { SourceFaults (S.faults source) (S.faults result.0) result.1 }
{
    let mut octets: FirstOctets<S, N> = FirstOctets::new(source, first);
    let result = filled(store, 0, &mut octets, version, tag);
    (octets.back(), result)
}

fn first_filled<F: Flash, S: Source>(
    source: S,
    what: (Store<F>, u32, u32, &Tag),
) -> (S, Result<Store<F>, FillFail<F>>)
    requires some { 1 ≤ what.1 }
    requires there { 0 < (store_record what.0).number }
    requires is_empty { entry_of (store_record what.0) 0 ≡ Empty }
    requires few { (store_record what.0).count < 2 ^ 32 - 1 }
    requires short { IsShortTag what.3.now }
    ensures fills { IfOk result.1 (FillsFirst F.seen what.entry.1 what.entry.0 (record { bank = 0; version = what.entry.2; tag = what.entry.3.now }) (S.left source) (S.left result.0)) }
    ensures unfilled { IfErr result.1 (UnfilledFirst F.seen what.entry.1 what.entry.0 (S.left source) (S.left result.0)) }
    ensures cause { MatchResult result.1 (λ new. (F.seen what.entry.0.base.flash).faults ≤ (F.seen new.base.flash).faults) (FailOf (F.seen what.entry.0.base.flash) F.seen) }
    ensures source { SourceFaults (S.faults source) (S.faults result.0) result.1 }
{
    let (store, first, version, tag) = what;
    filled_first::<F, S, Brand>(source, store, first, version, tag)
}

// Fills bank 0 with the first octets of an input, so many.
fn filled_with_first<F: Flash, S: Source>(
    store: Store<F>,
    source: &mut S,
    first: u32,
    version: u32,
    tag: &Tag,
) -> Result<Store<F>, FillFail<F>>
    requires some { 1 ≤ first }
    requires there { 0 < (store_record store).number }
    requires is_empty { entry_of (store_record store) 0 ≡ Empty }
    requires few { (store_record store).count < 2 ^ 32 - 1 }
    requires short { IsShortTag tag.now }
    ensures fills { IfOk result (FillsFirst F.seen first store (record { bank = 0; version = version; tag = tag.now }) (S.left source.old) (S.left source.new)) }
    ensures unfilled { IfErr result (UnfilledFirst F.seen first store (S.left source.old) (S.left source.new)) }
    ensures cause { MatchResult result (λ new. (F.seen store.base.flash).faults ≤ (F.seen new.base.flash).faults) (FailOf (F.seen store.base.flash) F.seen) }
    ensures source { SourceFaults (S.faults source.old) (S.faults source.new) result }
{
    replace_with(source, (store, first, version, tag), first_filled)
}

// A node with one image, by its tag.
fn made<F: Flash, S: Source>(
    flash: F,
    pages: u16,
    source: &mut S,
    version: u32,
    tag: &Tag,
) -> Result<F, FillFail<F>>
    requires pages_least { 1 ≤ pages }
    requires pages_most { pages ≤ 256 }
    requires flash { (F.seen flash).pages ≡ 2 + 2 * (1 + pages) }
    requires tag { (tag.now ≡ tag_of_one) ⊎ (tag.now ≡ old_tag_of_one) }
    requires short { IsShortTag tag.now }
    ensures makes { IfOk result (λ made. MakesNode tag.now pages version (S.left source.old) (S.left source.new) (F.seen flash) (F.seen made)) }
    ensures unmade { IfErr result (λ fail. NodeUnmade pages (S.left source.old) (S.left source.new) (F.seen flash) (F.seen fail.flash) fail.why) }
    ensures cause { MadeFaults (F.seen flash) F.seen result }
    ensures source { SourceFaults (S.faults source.old) (S.faults source.new) result }
{
    images();
    represented_is_sound();
    written_node();
    runs::<Ways<F>>();
    let store = match formatted(flash, 2, pages, tag) {
        Ok(store) => store,
        Err(fail) => return Err(fail),
    };
    match filled(store, 0, source, version, tag) {
        Ok(store) => Ok(store.into_flash()),
        Err(fail) => Err(fail),
    }
}

/// Makes a node with one image, all that the source gives, in bank 0 of two banks of 1..256 pages. The flash has
/// `2 + 2 * (1 + pages)` pages. Its record count is then 2. Of a cut within it nothing is promised.
pub fn make_node<F: Flash, S: Source>(
    flash: F,
    pages: u16,
    source: &mut S,
    version: u32,
) -> Result<F, FillFail<F>>
    requires pages_least { 1 ≤ pages }
    requires pages_most { pages ≤ 256 }
    requires flash { (F.seen flash).pages ≡ 2 + 2 * (1 + pages) }
    ensures makes { IfOk result (λ made. MakesNode tag_of_one pages version (S.left source.old) (S.left source.new) (F.seen flash) (F.seen made)) }
    ensures unmade { IfErr result (λ fail. NodeUnmade pages (S.left source.old) (S.left source.new) (F.seen flash) (F.seen fail.flash) fail.why) }
    ensures cause { MadeFaults (F.seen flash) F.seen result }
    ensures source { SourceFaults (S.faults source.old) (S.faults source.new) result }
{
    made(flash, pages, source, version, &tag_of_one())
}

/// The same with the old note, which a node reads and replaces by its next record.
pub fn make_old_node<F: Flash, S: Source>(
    flash: F,
    pages: u16,
    source: &mut S,
    version: u32,
) -> Result<F, FillFail<F>>
    requires pages_least { 1 ≤ pages }
    requires pages_most { pages ≤ 256 }
    requires flash { (F.seen flash).pages ≡ 2 + 2 * (1 + pages) }
    ensures makes { IfOk result (λ made. MakesNode old_tag_of_one pages version (S.left source.old) (S.left source.new) (F.seen flash) (F.seen made)) }
    ensures unmade { IfErr result (λ fail. NodeUnmade pages (S.left source.old) (S.left source.new) (F.seen flash) (F.seen fail.flash) fail.why) }
    ensures cause { MadeFaults (F.seen flash) F.seen result }
    ensures source { SourceFaults (S.faults source.old) (S.faults source.new) result }
{
    made(flash, pages, source, version, &old_tag_of_one())
}

/// Makes a node with two images in banks 0 and 1 of three banks of 1..256 pages: image 0 is the first octets of the source, so many
/// (at least 1), and image 1 the rest. The flash has `2 + 3 * (1 + pages)` pages. Its record count is then 3. `Empty` comes where
/// nothing is left for an image, `TooBig` where more than a bank has is given for one. Of a cut within it nothing is promised.
pub fn make_pair<F: Flash, S: Source>(
    flash: F,
    pages: u16,
    source: &mut S,
    first: u32,
    version: u32,
    second_version: u32,
) -> Result<F, FillFail<F>>
    requires pages_least { 1 ≤ pages }
    requires pages_most { pages ≤ 256 }
    requires flash { (F.seen flash).pages ≡ 2 + 3 * (1 + pages) }
    requires some { 1 ≤ first }
    ensures makes { IfOk result (λ made. MakesPair pages first version second_version (S.left source.old) (S.left source.new) (F.seen flash) (F.seen made)) }
    ensures unmade { IfErr result (λ fail. PairUnmade pages first (S.left source.old) (S.left source.new) (F.seen flash) (F.seen fail.flash) fail.why) }
    ensures cause { MadeFaults (F.seen flash) F.seen result }
    ensures source { SourceFaults (S.faults source.old) (S.faults source.new) result }
{
    images();
    represented_is_sound();
    written_node();
    runs::<Ways<F>>();
    let tag = tag_of_two();
    let store = match formatted(flash, 3, pages, &tag) {
        Ok(store) => store,
        Err(fail) => return Err(fail),
    };
    let store = match filled_with_first(store, source, first, version, &tag) {
        Ok(store) => store,
        Err(fail) => return Err(fail),
    };
    match filled(store, 1, source, second_version, &tag) {
        Ok(store) => Ok(store.into_flash()),
        Err(fail) => Err(fail),
    }
}
