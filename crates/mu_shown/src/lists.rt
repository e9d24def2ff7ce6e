ghost use Rattle.std.specs.Prelude.{◌≡◌, ◌<◌, map, length, slice_index_or, [], ◌∷◌};
ghost use Rattle.mu_model_wire.specs.Names.{missing};
ghost use Rattle.mu_model_wire.specs.Reports.{shown_numbers};
ghost use Rattle.mu_updmsg.specs.View.{entry_shown};
ghost use Rattle.mu_distmsg.specs.View.{pair_shown, row_shown};
ghost use Rattle.mu_shown.specs.Seen.{seen, list_shown};

use crate::fields::Field;
use crate::names::Name;
use arrayvec::ArrayVec;
use mu_distmsg::ReceiverRow;
use mu_updmsg::Entry;

/// The entries of a message.
#[derive(Clone, Copy)]
pub(crate) enum List<'m, 'a> {
    /// It has none.
    Nothing,
    /// Numbers of missing chunks.
    Numbers(&'m [u16]),
    /// Images of a node.
    Images(&'m [Entry<'a>]),
    /// Receivers to be added.
    Receivers(&'m [(u16, u8)]),
    /// What is known of receivers.
    Rows(&'m [ReceiverRow]),
}

impl<'m, 'a> List<'m, 'a> {
    pub(crate) fn len(&self) -> usize
        ensures { result ≡ length (list_shown self.now) }
    {
        match self {
            List::Nothing => 0,
            List::Numbers(numbers) => numbers.len(),
            List::Images(images) => images.len(),
            List::Receivers(receivers) => receivers.len(),
            List::Rows(rows) => rows.len(),
        }
    }

    pub(crate) fn entry(&self, place: usize) -> ArrayVec<Field<'a>, 6>
        requires { place < length (list_shown self.now) }
        ensures { map seen result.items ≡ slice_index_or (list_shown self.now) place [] }
    {
        match self {
            List::Nothing => ArrayVec::new(),
            List::Numbers(numbers) => number(numbers, place),
            List::Images(images) => image(images, place),
            List::Receivers(receivers) => receiver(receivers, place),
            List::Rows(rows) => row(rows, place),
        }
    }
}

fn number<'a>(numbers: &[u16], place: usize) -> ArrayVec<Field<'a>, 6>
    requires { place < length numbers.now }
    ensures { map seen result.items ≡ slice_index_or (shown_numbers missing numbers.now) place [] }
{
    let mut fields = ArrayVec::new();
    fields.push(Field::Number(Name::Missing, numbers[place] as u64));
    fields
}

fn image<'a>(images: &[Entry<'a>], place: usize) -> ArrayVec<Field<'a>, 6>
    requires { place < length images.now }
    ensures { map seen result.items ≡ slice_index_or (map entry_shown images.now) place [] }
{
    let image = images[place];
    let mut fields = ArrayVec::new();
    fields.push(Field::Octets(Name::Id, image.id));
    fields.push(Field::Octets(Name::Uri, image.uri));
    fields
}

fn receiver<'a>(receivers: &[(u16, u8)], place: usize) -> ArrayVec<Field<'a>, 6>
    requires { place < length receivers.now }
    ensures { map seen result.items ≡ slice_index_or (map pair_shown receivers.now) place [] }
{
    let receiver = receivers[place];
    let mut fields = ArrayVec::new();
    fields.push(Field::Number(Name::Address, receiver.0 as u64));
    fields.push(Field::Number(Name::Index, receiver.1 as u64));
    fields
}

fn row<'a>(rows: &[ReceiverRow], place: usize) -> ArrayVec<Field<'a>, 6>
    requires { place < length rows.now }
    ensures { map seen result.items ≡ slice_index_or (map row_shown rows.now) place [] }
{
    let row = rows[place];
    let mut fields = ArrayVec::new();
    fields.push(Field::Number(Name::Address, row.address as u64));
    fields.push(Field::Number(Name::Phase, row.phase as u64));
    fields.push(Field::Number(Name::UpdateStatus, row.update_status as u64));
    fields.push(Field::Number(Name::TransferStatus, row.transfer_status as u64));
    fields.push(Field::Number(Name::Progress, row.progress as u64 / 2));
    fields.push(Field::Number(Name::Index, row.image_index as u64));
    fields
}
