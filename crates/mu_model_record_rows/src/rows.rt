//! Worked rows of records and flashes: functions that do nothing, whose contracts are evaluated.

ghost use Rattle.mu_model_record_rows.specs.Flashes.{EachFlash};
ghost use Rattle.mu_model_record_rows.specs.Ranges.{EachRange};
ghost use Rattle.mu_model_record_rows.specs.Records.{EachRecord};

/// A record's octets by place, what is short, operations, places, and which of two records is the present one.
pub fn records()
    ensures { EachRecord }
{}

/// What cuts and made patterns leave, what is written, clocks and counts of faults.
pub fn flashes()
    ensures { EachFlash }
{}

/// Both ends of the range of each field of a record.
pub fn ranges()
    ensures { EachRange }
{}
