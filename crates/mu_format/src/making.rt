// Nodes that are made, by what is asked for.
ghost use Rattle.std.specs.Prelude.{◌≡◌, ◌≢◌, ◌⊎◌, ◌+◌, ◌*◌, ◌≤◌};
ghost use Rattle.mu_input.specs.Reading.{WhereTold};
ghost use Rattle.mu_model_flash.specs.Cause.{Rose};
ghost use Rattle.mu_updsrv.specs.Made.{tag_of_one, MakesNode};
ghost use Rattle.mu_dist.specs.Made.{MakesDistributor};
ghost use Rattle.mu_format.specs.declared.making.Kind.TheVariants.{Node, Distributor};
ghost use Rattle.mu_command_line.specs.Refusals.{refusal_within};
ghost use Rattle.mu_format.specs.Formats.{pages_of, refusal_of, Makes, CameOf};

use mu_command_line::Status;
use mu_dist::make_distributor;
use mu_outside::{Flash, Source};
use mu_updsrv::{FillWhy, make_node};

/// What a flash is made.
#[derive(Clone, Copy, Debug, PartialEq, Eq)]
pub enum Kind {
    /// A node with one image, all that the source gives.
    Node,
    /// A distributor without images and receivers. The source isn't read, and no version is looked at.
    Distributor,
}

/// What is asked for.
#[derive(Clone, Copy, Debug, PartialEq, Eq)]
pub struct Format {
    pub kind: Kind,
    /// Pages of a bank, 1..256.
    pub pages: u16,
    /// The version of the image.
    pub version: u32,
}

/// What came of it.
#[derive(Clone, Copy, Debug, PartialEq, Eq)]
pub(crate) enum Made {
    /// The flash is made.
    Whole,
    /// The flash has another number of pages.
    Pages,
    /// The input ends early, at this place.
    Short(u32),
    /// The input has an octet too many, at this place.
    Long(u32),
    /// The source failed.
    Source,
    /// The flash failed.
    Flash,
}

impl Made {
    ghost use Rattle.std.specs.Prelude.{◌≡◌};
    ghost use Rattle.mu_format.specs.Formats.{status_of};

    /// How the command ends that has written it.
    pub fn status(self) -> Status
        ensures { result ≡ status_of self }
    {
        match self {
            Made::Whole => Status::Done,
            Made::Pages => Status::Refused,
            Made::Short(_) => Status::Refused,
            Made::Long(_) => Status::Refused,
            Made::Source => Status::SourceFault,
            Made::Flash => Status::FlashFault,
        }
    }
}

impl Format {
    ghost use Rattle.std.specs.Prelude.{◌≡◌, ◌≤◌};
    ghost use Rattle.mu_format.specs.Formats.{pages_of};

    /// The pages of the flash that it asks for: two control pages, and for each bank a page of marks and its own.
    pub fn flash_pages(&self) -> u32
        requires { self.now.pages ≤ 256 }
        ensures { result ≡ pages_of self.now }
    {
        let banks: u32 = match self.kind {
            Kind::Node => 2,
            Kind::Distributor => 4,
        };
        2 + banks * (1 + self.pages as u32)
    }
}

// A node with one image, on a flash with the pages for it.
fn made_node<F: Flash, S: Source>(flash: F, pages: u16, version: u32, source: &mut S) -> (F, Made)
    requires pages_least { 1 ≤ pages }
    requires pages_most { pages ≤ 256 }
    requires flash { (F.seen flash).pages ≡ 2 + 2 * (1 + pages) }
    ensures told { WhereTold (S.left source.old) (S.left source.new) (λ held left. CameOf Node (refusal_within (4096 * pages) held) held left result.1) }
    ensures makes { result.1 ≡ Made.Whole → MakesNode tag_of_one pages version (S.left source.old) (S.left source.new) (F.seen flash) (F.seen result.0) }
    ensures cause { result.1 ≡ Made.Flash → Rose (F.seen flash).faults (F.seen result.0).faults }
    ensures source { result.1 ≡ Made.Source → Rose (S.faults source.old) (S.faults source.new) }
{
    let fail = match make_node(flash, pages, source, version) {
        Ok(flash) => return (flash, Made::Whole),
        Err(fail) => fail,
    };
    let made = match fail.why {
        FillWhy::Flash => Made::Flash,
        FillWhy::Worn => unreachable!(),
        FillWhy::Read => Made::Source,
        FillWhy::Empty => Made::Short(0),
        FillWhy::TooBig => Made::Long(4096 * pages as u32),
    };
    (fail.flash, made)
}

// A distributor without images, on a flash with the pages for it.
fn made_distributor<F: Flash>(flash: F, pages: u16) -> (F, Made)
    requires pages_least { 1 ≤ pages }
    requires pages_most { pages ≤ 256 }
    requires flash { (F.seen flash).pages ≡ 2 + 4 * (1 + pages) }
    ensures came { (result.1 ≡ Made.Whole) ⊎ (result.1 ≡ Made.Flash) }
    ensures makes { result.1 ≡ Made.Whole → MakesDistributor pages (F.seen flash) (F.seen result.0) }
    ensures cause { result.1 ≡ Made.Flash → Rose (F.seen flash).faults (F.seen result.0).faults }
{
    match make_distributor(flash, pages) {
        Ok(flash) => (flash, Made::Whole),
        Err(stopped) => (stopped.flash, Made::Flash),
    }
}

/// Makes what is asked for, where the flash has the pages for it.
pub(crate) fn make<F: Flash, S: Source>(what: Format, flash: F, source: &mut S) -> (F, Made)
    requires pages_least { 1 ≤ what.pages }
    requires pages_most { what.pages ≤ 256 }
    ensures told { WhereTold (S.left source.old) (S.left source.new) (λ held left. CameOf what.kind (refusal_of what (F.seen flash).pages held) held left result.1) }
    ensures makes { result.1 ≡ Made.Whole → Makes what (S.left source.old) (S.left source.new) (F.seen flash) (F.seen result.0) }
    ensures pages { (F.seen flash).pages ≢ pages_of what → (result.1 ≡ Made.Pages) × (result.0 ≡ flash) × (source.new ≡ source.old) }
    ensures unread { what.kind ≡ Distributor → source.new ≡ source.old }
    ensures cause { result.1 ≡ Made.Flash → Rose (F.seen flash).faults (F.seen result.0).faults }
    ensures source { result.1 ≡ Made.Source → Rose (S.faults source.old) (S.faults source.new) }
{
    if flash.pages() != what.flash_pages() {
        return (flash, Made::Pages);
    }
    match what.kind {
        Kind::Node => made_node(flash, what.pages, what.version, source),
        Kind::Distributor => made_distributor(flash, what.pages),
    }
}
