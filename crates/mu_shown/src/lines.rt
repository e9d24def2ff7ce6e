use crate::fields::Fields;
use crate::lists::List;

/// A line in memory: the message's name, its fields that are there, and its entries.
#[derive(Drop)]
pub(crate) struct Line<'m, 'a> {
    pub name: &'static [u8],
    pub fields: Fields<'m>,
    pub list: List<'m, 'a>,
}
