ghost use Rattle.std.specs.Prelude.{◌≡◌, length};
ghost use Rattle.uuid.specs.Parts.{swap_fields};
ghost use Rattle.uuid.specs.Text.{parsed};
ghost use Rattle.var_types.specs.Values.{AreBytes};

use crate::Put;
use thiserror::Error;
use uuid::Uuid;

/// A text is none of a GUID.
#[derive(Clone, Copy, Debug, PartialEq, Eq, Error)]
#[error("not a GUID")]
pub struct NotAGuid;

/// A GUID as UEFI stores it: the first three fields of its text are little-endian (UEFI 2.10, appendix A).
#[derive(Clone, Copy, Debug, PartialEq, Eq, PartialOrd, Ord)]
pub struct Guid {
    pub bytes: [u8; 16],
}

impl Guid {
    ghost use Rattle.var_types.specs.Guid.{IsGuid, guid_of, guid_text};

    /// The GUID of a text in one of the forms that `uuid` reads: hyphenated, simple, braced or URN, in either case.
    pub fn read(text: &str) -> Result<Self, NotAGuid>
        ensures { result ≡ guid_of text.now }
    {
        Self::read_bytes(text.as_bytes())
    }

    /// The GUID of a text that is given as its bytes.
    #[tactic(auto, unfolding(crate::specs::Guid::guid_of))]
    pub fn read_bytes(text: &[u8]) -> Result<Self, NotAGuid>
        ensures { result ≡ guid_of text.now }
    {
        match Uuid::try_parse_ascii(text) {
            Ok(uuid) => Ok(Guid {
                bytes: uuid.to_bytes_le(),
            }),
            Err(_) => Err(NotAGuid),
        }
    }

    /// Puts the 36 characters of the hyphenated form in lower case.
    #[tactic(auto, unfolding(crate::specs::Guid::guid_text))]
    pub fn write<P: Put>(&self, out: &mut P)
        ensures text { P.Puts out.old out.new (guid_text self.now) }
        ensures values { IsGuid self.now }
    {
        let mut buffer = Uuid::encode_buffer();
        let text = uuid_of(&self.bytes).hyphenated().encode_lower(&mut buffer);
        out.put(text.as_bytes());
    }
}

// The UUID of bytes as they are stored.
fn uuid_of(bytes: &[u8; 16]) -> Uuid
    ensures uuid { result ≡ swap_fields bytes.now }
    ensures length { length bytes.now ≡ 16 }
    ensures values { AreBytes bytes.now }
{
    Uuid::from_bytes_le(*bytes)
}
