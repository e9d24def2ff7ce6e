ghost use Rattle.std.specs.Prelude.{◌≡◌, ◌<◌, ◌≤◌, ◌+◌, ◌++◌, ◌∷◌, [], map};
ghost use Rattle.arrayvec.specs.ArrayVec.{array_vec_len};
ghost use Rattle.mu_model_wire.specs.Fields.{perhaps, number as number_shown, octets as octets_shown};
ghost use Rattle.mu_model_wire.specs.Names.{label as label_name};
ghost use Rattle.mu_shown.specs.Lines.{name_of};
ghost use Rattle.mu_shown.specs.Seen.{seen, number_of};

use crate::names::Name;
use arrayvec::ArrayVec;

/// A field that is there.
#[derive(Clone, Copy)]
pub(crate) enum Field<'a> {
    /// A number, shown in decimal.
    Number(Name, u64),
    /// Octets, shown in hexadecimal.
    Octets(Name, &'a [u8]),
}

impl Default for Field<'_> {
    fn default() -> Self {
        Field::Number(Name::Mode, 0)
    }
}

/// The fields of a message that are there, in their order.
pub(crate) type Fields<'a> = ArrayVec<Field<'a>, 9>;

impl Field<'_> {
    pub(crate) fn name(&self) -> Name
        ensures { number_of result ≡ name_of (seen self.now) }
    {
        match self {
            Field::Number(name, _) => *name,
            Field::Octets(name, _) => *name,
        }
    }
}

pub(crate) fn number<'a>(fields: &mut Fields<'a>, name: Name, value: u64)
    requires { array_vec_len fields.old < 9 }
    ensures shown { map seen fields.new.items ≡ map seen fields.old.items ++ number_shown (number_of name) value ∷ [] }
    ensures len { array_vec_len fields.new ≡ array_vec_len fields.old + 1 }
{
    fields.push(Field::Number(name, value));
}

pub(crate) fn octets<'a>(fields: &mut Fields<'a>, name: Name, value: &'a [u8])
    requires { array_vec_len fields.old < 9 }
    ensures shown { map seen fields.new.items ≡ map seen fields.old.items ++ octets_shown (number_of name) value.now ∷ [] }
    ensures len { array_vec_len fields.new ≡ array_vec_len fields.old + 1 }
{
    fields.push(Field::Octets(name, value));
}

#[tactic(auto, using(crate::proofs::Told::nothing_shown))]
pub(crate) fn number_there<'a>(fields: &mut Fields<'a>, name: Name, value: Option<u64>)
    requires { array_vec_len fields.old < 9 }
    ensures shown { map seen fields.new.items ≡ map seen fields.old.items ++ perhaps (number_shown (number_of name)) value }
    ensures len { array_vec_len fields.new ≤ array_vec_len fields.old + 1 }
{
    if let Some(value) = value {
        number(fields, name, value);
    }
}

#[tactic(auto, using(crate::proofs::Told::nothing_shown))]
pub(crate) fn octets_there<'a>(fields: &mut Fields<'a>, name: Name, value: Option<&'a [u8]>)
    requires { array_vec_len fields.old < 9 }
    ensures shown { map seen fields.new.items ≡ map seen fields.old.items ++ perhaps (λ o. octets_shown (number_of name) o.now) value.entry }
    ensures len { array_vec_len fields.new ≤ array_vec_len fields.old + 1 }
{
    if let Some(value) = value {
        octets(fields, name, value);
    }
}

#[tactic(auto, using(crate::proofs::Told::nothing_shown))]
pub(crate) fn label_there<'a>(fields: &mut Fields<'a>, label: &'a Option<[u8; 16]>)
    requires { array_vec_len fields.old < 9 }
    ensures shown { map seen fields.new.items ≡ map seen fields.old.items ++ perhaps (octets_shown label_name) label.now }
    ensures len { array_vec_len fields.new ≤ array_vec_len fields.old + 1 }
{
    if let Some(label) = label {
        octets(fields, Name::Label, label);
    }
}

pub(crate) fn of_octet(value: Option<u8>) -> Option<u64>
    ensures { result ≡ value }
{
    match value {
        Some(value) => Some(value as u64),
        None => None,
    }
}

pub(crate) fn of_two(value: Option<u16>) -> Option<u64>
    ensures { result ≡ value }
{
    match value {
        Some(value) => Some(value as u64),
        None => None,
    }
}

pub(crate) fn of_four(value: Option<u32>) -> Option<u64>
    ensures { result ≡ value }
{
    match value {
        Some(value) => Some(value as u64),
        None => None,
    }
}
