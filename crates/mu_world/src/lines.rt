// What lines print.
ghost use Rattle.std.specs.Prelude.{◌≡◌, ◌≤◌, ◌∷◌, ◌++◌, [], length, decimal, codes, OnOk, OnErr};
ghost use Rattle.hex.specs.Hex.{encode_lower};
ghost use Rattle.mu_model_wire.specs.Limits.{most_octets};
ghost use Rattle.mu_model_script.specs.Pieces.{blank};
ghost use Rattle.mu_model_script.specs.Texts.{address_text, sent_text, unread_text, active_text, phase_text, boot_text, text_line};

use itoa::Buffer;
use mu_codec::Packet;
use std::alloc::{AllocError, Global};
use std::marker::Model;

/// The text that lines print, in order.
#[derive(Drop)]
pub struct Lines {
    text: Vec<u8>,
    /// A line in the making.
    line: Vec<u8>,
}

impl Model for Lines {
    ghost use Rattle.std.specs.Prelude.{List, ℕ};

    ghost Value = { List ℕ };

    ghost view = { λ l. l.text.items };
}

/// One more token, behind a blank.
fn put_token(line: &mut Vec<u8>, token: &[u8]) -> Result<(), AllocError>
    ensures { OnOk result (line.new.items ≡ line.old.items ++ blank ∷ token.now) }
{
    line.push(b' ')?;
    line.extend_from_slice(token)
}

fn put_number(line: &mut Vec<u8>, number: u32) -> Result<(), AllocError>
    ensures { OnOk result (line.new.items ≡ line.old.items ++ blank ∷ decimal number) }
{
    let mut buffer = Buffer::new();
    put_token(line, buffer.format(number).as_bytes())
}

/// Octets of a message, in hexadecimal.
fn put_octets(line: &mut Vec<u8>, octets: &[u8]) -> Result<(), AllocError>
    requires { length octets.now ≤ most_octets }
    ensures { OnOk result (line.new.items ≡ line.old.items ++ blank ∷ encode_lower octets.now) }
{
    let mut room = [0; 760];
    let digits = &mut room[..2 * octets.len()];
    if hex::encode_to_slice(octets, digits).is_err() {
        prove!(false);
    }
    put_token(line, digits)
}

fn put_address(line: &mut Vec<u8>, address: u16) -> Result<(), AllocError>
    ensures { OnOk result (line.new.items ≡ line.old.items ++ blank ∷ address_text address) }
{
    let mut digits = [0; 4];
    if hex::encode_to_slice(&address.to_be_bytes(), &mut digits).is_err() {
        prove!(false);
    }
    put_token(line, &digits)
}

fn begin(line: &mut Vec<u8>, word: &[u8]) -> Result<(), AllocError>
    ensures { OnOk result (line.new.items ≡ word.now) }
{
    line.clear();
    line.extend_from_slice(word)
}

fn end(line: &mut Vec<u8>) -> Result<(), AllocError>
    ensures { OnOk result (line.new.items ≡ line.old.items ++ 10 ∷ []) }
{
    line.push(b'\n')?;
    Ok(())
}

#[tactic(auto, using(std::proofs::Common::append_assoc))]
fn sent_line(line: &mut Vec<u8>, number: u32, packet: &Packet) -> Result<(), AllocError>
    ensures { OnOk result (line.new.items ≡ sent_text number packet.now.from packet.now.to packet.now.payload.items) }
{
    begin(line, b"sent")?;
    put_number(line, number)?;
    put_address(line, packet.from)?;
    put_address(line, packet.to)?;
    put_octets(line, packet.payload.as_slice())?;
    end(line)
}

#[tactic(auto, using(std::proofs::Common::append_assoc))]
fn unread_line(line: &mut Vec<u8>, number: u32, address: u16) -> Result<(), AllocError>
    ensures { OnOk result (line.new.items ≡ unread_text number address) }
{
    begin(line, b"unread")?;
    put_number(line, number)?;
    put_address(line, address)?;
    end(line)
}

#[tactic(auto, using(std::proofs::Common::append_assoc))]
fn active_line(
    line: &mut Vec<u8>,
    address: u16,
    version: u32,
    size: u32,
    digest: &[u8; 32],
) -> Result<(), AllocError>
    ensures { OnOk result (line.new.items ≡ active_text address version size digest.now) }
{
    begin(line, b"active")?;
    put_address(line, address)?;
    put_number(line, version)?;
    put_number(line, size)?;
    put_octets(line, digest)?;
    end(line)
}

/// A line of a word, an address and two numbers.
#[tactic(auto, using(std::proofs::Common::append_assoc))]
fn numbers_line(
    line: &mut Vec<u8>,
    word: &[u8],
    address: u16,
    first: u32,
    second: u32,
) -> Result<(), AllocError>
    ensures { OnOk result (line.new.items ≡ text_line (word.now ∷ address_text address ∷ decimal first ∷ decimal second ∷ [])) }
{
    begin(line, word)?;
    put_address(line, address)?;
    put_number(line, first)?;
    put_number(line, second)?;
    end(line)
}

impl Lines {
    /// No text. This takes no memory.
    pub fn new(alloc: Global) -> Lines
        ensures { result ≡ [] }
    {
        Lines {
            text: Vec::new(alloc),
            line: Vec::new(alloc),
        }
    }

    /// The text so far.
    pub fn bytes(&self) -> &[u8]
        ensures { result.now ≡ self.now }
    {
        self.text.as_slice()
    }

    /// Forgets the text.
    pub fn clear(&mut self)
        ensures { self.new ≡ [] }
    {
        self.text.clear();
    }

    /// Packet `number` of the bag.
    pub fn sent(&mut self, number: u32, packet: &Packet) -> Result<(), AllocError>
        ensures ok { OnOk result (self.new ≡ self.old ++ sent_text number packet.now.from packet.now.to packet.now.payload.items) }
        ensures err { OnErr result (self.new ≡ self.old) }
    {
        sent_line(&mut self.line, number, packet)?;
        self.text.extend_from_slice(self.line.as_slice())
    }

    /// Packet `number` of the bag wasn't handled at this address.
    pub fn unread(&mut self, number: u32, address: u16) -> Result<(), AllocError>
        ensures ok { OnOk result (self.new ≡ self.old ++ unread_text number address) }
        ensures err { OnErr result (self.new ≡ self.old) }
    {
        unread_line(&mut self.line, number, address)?;
        self.text.extend_from_slice(self.line.as_slice())
    }

    /// The active image of the node at this address.
    pub fn active(
        &mut self,
        address: u16,
        version: u32,
        size: u32,
        digest: &[u8; 32],
    ) -> Result<(), AllocError>
        ensures ok { OnOk result (self.new ≡ self.old ++ active_text address version size digest.now) }
        ensures err { OnErr result (self.new ≡ self.old) }
    {
        active_line(&mut self.line, address, version, size, digest)?;
        self.text.extend_from_slice(self.line.as_slice())
    }

    /// The phases of the member at this address.
    pub fn phase(&mut self, address: u16, first: u8, second: u8) -> Result<(), AllocError>
        ensures ok { OnOk result (self.new ≡ self.old ++ phase_text address first second) }
        ensures err { OnErr result (self.new ≡ self.old) }
    {
        let first = u32::from(first);
        let second = u32::from(second);
        numbers_line(&mut self.line, b"phase", address, first, second)?;
        self.text.extend_from_slice(self.line.as_slice())
    }

    /// A boot of the member at this address, from a record of this count, with so many blocks held of a bank that is being filled.
    pub fn boot(&mut self, address: u16, count: u32, held: u16) -> Result<(), AllocError>
        ensures ok { OnOk result (self.new ≡ self.old ++ boot_text address count held) }
        ensures err { OnErr result (self.new ≡ self.old) }
    {
        numbers_line(&mut self.line, b"boot", address, count, u32::from(held))?;
        self.text.extend_from_slice(self.line.as_slice())
    }
}
