// The next record, written on the control pages.
ghost use Rattle.std.specs.Prelude.{◌≡◌, ℕ, ◌+◌, ◌-◌, ◌*◌, ◌<◌, ◌≤◌, ◌++◌, [], ◌∷◌, true, false, IsTrue, IfOk, OnOk, Result, length, take};
ghost use Rattle.mu_model_flash.specs.Bits.{AreOctets};
ghost use Rattle.mu_model_flash.specs.Cause.{HasCause};
ghost use Rattle.mu_model_flash.specs.Run.{either, Keeps, Runs};
ghost use Rattle.mu_model_record.specs.Record.{zeros, IsRecord, IsSpelled, IsShort};
ghost use Rattle.mu_model_record.specs.Next.{is_short, record_steps, fresh_after};
ghost use Rattle.mu_model_record.specs.Turns.{Anything};
ghost use Rattle.mu_record.specs.Place.{IsFirst, IsPlace, WritesNext, StaysPast};

use crate::entry::is_zero;
use crate::octets::record_octets;
use mu_cells::{Ways, erase_page, write_page, write_slot};
use mu_model_flash::laws::{ranges_of_octets, runs};
use mu_model_record::Record;
use mu_model_record::laws::{code_words, next_records, pages_of_a_flash};
use mu_outside::{Failed, Flash};

const LONG: u8 = 1;

const SHORT: u8 = 2;

const SLOTS: u8 = 4;

/// Where the present record lies: its control page, and how many slots after it read FF and may still be written.
#[derive(Clone, Copy, Debug, PartialEq, Eq)]
pub struct Place {
    pub page: u32,
    pub fresh: u8,
}

// Whether a record that is written is short.
fn is_short(fields: &Record) -> bool
    requires { length fields.now.tag ≡ 1792 }
    ensures result { result ≡ is_short fields.now }
    ensures short { IsTrue result → IsShort fields.now }
{
    is_zero(&fields.tag[256..1792])
}

fn first_octets(octets: &[u8; 2048]) -> [u8; 512]
    ensures first { result ≡ take 512 octets.now }
    ensures small { AreOctets result }
{
    let mut slot = [0; 512];
    slot.copy_from_slice(&octets[..512]);
    slot
}

// The octets of a short record in its slot.
fn slot_octets(fields: &Record) -> [u8; 512]
    requires in_range { IsRecord fields.now }
    requires short { IsShort fields.now }
    ensures spelled { IsSpelled 2 fields.now (result ++ zeros 1536) }
    ensures small { AreOctets result }
{
    first_octets(&record_octets(fields, SHORT))
}

// A short record in the next slot, which is fresh.
fn write_next<F: Flash>(flash: &mut F, place: Place, fields: &Record) -> Result<Place, Failed>
    requires place { IsPlace (F.seen flash.old) place.page place.fresh }
    requires fresh { 0 < place.fresh }
    requires in_range { IsRecord fields.now }
    requires short { IsShort fields.now }
    ensures place { IfOk result (λ p. IsPlace (F.seen flash.new) p.page p.fresh) }
    ensures fresh { IfOk result (λ p. p.fresh ≡ place.fresh - 1) }
    ensures keeps { Keeps (F.seen flash.old) (F.seen flash.new) }
    ensures stays { StaysPast (F.seen flash.old) (F.seen flash.new) result }
    ensures runs { WritesNext (F.seen flash.old) (F.seen flash.new) place.page place.fresh fields.now (λ d e. e ∷ []) result }
    ensures cause { HasCause (F.seen flash.old).faults (F.seen flash.new).faults result }
{
    ranges_of_octets();
    runs::<Ways<F>>();
    code_words();
    pages_of_a_flash();
    next_records();
    write_slot(flash, place.page, SLOTS - place.fresh, &slot_octets(fields))?;
    Ok(Place {
        page: place.page,
        fresh: place.fresh - 1,
    })
}

// A short record in the first slot of the other control page.
fn write_first<F: Flash>(flash: &mut F, place: Place, fields: &Record) -> Result<Place, Failed>
    requires place { IsPlace (F.seen flash.old) place.page place.fresh }
    requires in_range { IsRecord fields.now }
    requires short { IsShort fields.now }
    ensures place { IfOk result (λ p. IsPlace (F.seen flash.new) p.page p.fresh) }
    ensures fresh { IfOk result (λ p. p.fresh ≡ 3) }
    ensures keeps { Keeps (F.seen flash.old) (F.seen flash.new) }
    ensures stays { StaysPast (F.seen flash.old) (F.seen flash.new) result }
    ensures runs { WritesNext (F.seen flash.old) (F.seen flash.new) place.page place.fresh fields.now (λ d e. d ∷ e ∷ []) result }
    ensures cause { HasCause (F.seen flash.old).faults (F.seen flash.new).faults result }
{
    ranges_of_octets();
    runs::<Ways<F>>();
    code_words();
    pages_of_a_flash();
    next_records();
    let page = 1 - place.page;
    erase_page(flash, page)?;
    write_slot(flash, page, 0, &slot_octets(fields))?;
    Ok(Place { page, fresh: 3 })
}

// A long record on the other control page.
fn write_long<F: Flash>(flash: &mut F, place: Place, fields: &Record) -> Result<Place, Failed>
    requires place { IsPlace (F.seen flash.old) place.page place.fresh }
    requires in_range { IsRecord fields.now }
    ensures place { IfOk result (λ p. IsPlace (F.seen flash.new) p.page p.fresh) }
    ensures fresh { IfOk result (λ p. p.fresh ≡ 0) }
    ensures keeps { Keeps (F.seen flash.old) (F.seen flash.new) }
    ensures stays { StaysPast (F.seen flash.old) (F.seen flash.new) result }
    ensures runs { WritesNext (F.seen flash.old) (F.seen flash.new) place.page place.fresh fields.now (λ d e. d ∷ e ∷ []) result }
    ensures cause { HasCause (F.seen flash.old).faults (F.seen flash.new).faults result }
{
    runs::<Ways<F>>();
    next_records();
    let page = 1 - place.page;
    write_page(flash, page, &record_octets(fields, LONG))?;
    Ok(Place { page, fresh: 0 })
}

/// Writes the next record. A short one goes to the next slot where that is fresh, else to the first slot of the other control page; a long one
/// is that page. Every image that a cut may leave has the present record or this one.
pub fn write_record<F: Flash>(flash: &mut F, place: Place, fields: &Record) -> Result<Place, Failed>
    requires place { IsPlace (F.seen flash.old) place.page place.fresh }
    requires in_range { IsRecord fields.now }
    ensures place { IfOk result (λ p. IsPlace (F.seen flash.new) p.page p.fresh) }
    ensures fresh { IfOk result (λ p. p.fresh ≡ fresh_after place.fresh fields.now) }
    ensures keeps { Keeps (F.seen flash.old) (F.seen flash.new) }

    // All past the control pages is as before.
    ensures stays { StaysPast (F.seen flash.old) (F.seen flash.new) result }
    ensures runs { WritesNext (F.seen flash.old) (F.seen flash.new) place.page place.fresh fields.now (record_steps place.fresh) result }
    ensures cause { HasCause (F.seen flash.old).faults (F.seen flash.new).faults result }
{
    if !is_short(fields) {
        return write_long(flash, place, fields);
    }
    if place.fresh > 0 {
        return write_next(flash, place, fields);
    }
    write_first(flash, place, fields)
}

// Record 1 in the first slot of page 0.
fn write_short_anew<F: Flash>(flash: &mut F, fields: &Record) -> Result<(), Failed>
    requires both { 2 ≤ (F.seen flash.old).pages }
    requires in_range { IsRecord fields.now }
    requires short { IsShort fields.now }
    ensures keeps { Keeps (F.seen flash.old) (F.seen flash.new) }
    ensures stays { StaysPast (F.seen flash.old) (F.seen flash.new) result }
    ensures control { IsTrue (F.seen flash.old).told → OnOk result (IsFirst fields.now 3 (F.seen flash.new).octets) }
    ensures runs { Runs (either Anything) tt (tt ∷ tt ∷ tt ∷ []) (F.seen flash.old) (F.seen flash.new) result }
    ensures cause { HasCause (F.seen flash.old).faults (F.seen flash.new).faults result }
{
    ranges_of_octets();
    runs::<Ways<F>>();
    code_words();
    pages_of_a_flash();
    next_records();
    erase_page(flash, 1)?;
    erase_page(flash, 0)?;
    write_slot(flash, 0, 0, &slot_octets(fields))
}

// Record 1 as page 0.
fn write_long_anew<F: Flash>(flash: &mut F, fields: &Record) -> Result<(), Failed>
    requires both { 2 ≤ (F.seen flash.old).pages }
    requires in_range { IsRecord fields.now }
    ensures keeps { Keeps (F.seen flash.old) (F.seen flash.new) }
    ensures stays { StaysPast (F.seen flash.old) (F.seen flash.new) result }
    ensures control { IsTrue (F.seen flash.old).told → OnOk result (IsFirst fields.now 0 (F.seen flash.new).octets) }
    ensures runs { Runs (either Anything) tt (tt ∷ tt ∷ tt ∷ []) (F.seen flash.old) (F.seen flash.new) result }
    ensures cause { HasCause (F.seen flash.old).faults (F.seen flash.new).faults result }
{
    ranges_of_octets();
    runs::<Ways<F>>();
    next_records();
    erase_page(flash, 1)?;
    write_page(flash, 0, &record_octets(fields, LONG))
}

/// Erases both control pages and writes this record on page 0: three operations.
pub fn write_anew<F: Flash>(flash: &mut F, fields: &Record) -> Result<Place, Failed>
    requires both { 2 ≤ (F.seen flash.old).pages }
    requires in_range { IsRecord fields.now }
    ensures place { IfOk result (λ place. IsPlace (F.seen flash.new) place.page place.fresh) }
    ensures first { IfOk result (λ place. (place.page ≡ 0) × (place.fresh ≡ fresh_after 0 fields.now)) }
    ensures keeps { Keeps (F.seen flash.old) (F.seen flash.new) }
    ensures stays { StaysPast (F.seen flash.old) (F.seen flash.new) result }
    ensures control { IsTrue (F.seen flash.old).told → IfOk result (λ place. IsFirst fields.now place.fresh (F.seen flash.new).octets) }
    ensures runs { Runs (either Anything) tt (tt ∷ tt ∷ tt ∷ []) (F.seen flash.old) (F.seen flash.new) result }
    ensures cause { HasCause (F.seen flash.old).faults (F.seen flash.new).faults result }
{
    if is_short(fields) {
        write_short_anew(flash, fields)?;
        Ok(Place { page: 0, fresh: 3 })
    } else {
        write_long_anew(flash, fields)?;
        Ok(Place { page: 0, fresh: 0 })
    }
}
