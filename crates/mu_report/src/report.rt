ghost use Rattle.std.specs.Prelude.{◌≡◌, ◌≤◌, ◌↔◌, Bool, List, Some, IsSome, length};
ghost use Rattle.mu_model_wire.specs.Reports.{Reports, NamesASet, report_of};

use crate::set::{NumberSet, field_length};
use mu_model_wire::reports::{Report, lists, reports};

/// The report of a set of missing numbers, whose bound is at least 1: that all are missing, that
/// none is, else a bit field unless the list of number patterns is strictly shorter.
pub fn report_of(set: &NumberSet) -> Report
    requires { 1 ≤ length set.now }
    ensures { result ≡ report_of set.now }
{
    lists();
    let count = set.count();
    let bound = set.bound();
    if count == bound {
        return Report::All;
    }
    if count == 0 {
        return Report::Nothing;
    }
    if set.spelled_length() < field_length(bound) {
        Report::List(set.numbers())
    } else {
        Report::Bits(set.bit_field())
    }
}

/// The set of numbers below `n` that a report names. None exactly where it names none: the bit field
/// isn't that of `n` numbers, a bit at or past `n` is set, or a listed number is `n` or more.
pub fn read_report(report: &Report, n: u16) -> Option<NumberSet>
    requires { n ≤ 2048 }
    ensures named { (set : List Bool) → (result ≡ Some set) ↔ ((length set ≡ n) × Reports report.now set) }
    ensures some { IsSome result ↔ NamesASet report.now n }
{
    reports();
    match report {
        Report::All => Some(NumberSet::new(n).missing()),
        Report::Nothing => Some(NumberSet::new(n)),
        Report::Bits(octets) => NumberSet::from_bit_field(octets.as_slice(), n),
        Report::List(numbers) => NumberSet::from_numbers(numbers.as_slice(), n),
    }
}
