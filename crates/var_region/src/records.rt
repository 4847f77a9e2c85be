ghost use Rattle.std.specs.Prelude.{◌≡◌, ◌≤◌, ◌<◌, ◌^◌, length, IfSome};
ghost use Rattle.var_types.specs.Layout.{longest_region};
ghost use Rattle.var_types.specs.Record.{Authenticated, is_bare, next_offset, record_at, whole_size};
ghost use Rattle.var_region.specs.Within.{IsWithin};

use var_header::{HEADER_BYTES, Header, read_header};
use var_types::{Record, align4};

fn is_bare(header: &Header) -> bool
    ensures { result ≡ is_bare header.now }
{
    header.state == 0xFF
        || header.name_size == u32::MAX
        || header.data_size == u32::MAX
        || header.attributes == u32::MAX
}

fn whole_size(header: &Header) -> u64
    ensures { result ≡ whole_size Authenticated header.now }
{
    HEADER_BYTES as u64 + u64::from(header.name_size) + u64::from(header.data_size)
}

/// The record at an offset of a region's bytes, if one stands there.
#[tactic(auto, unfolding(var_types::specs::Record::record_at, var_header::specs::Header::header_read))]
pub(crate) fn record_at(bytes: &[u8], at: u32) -> Option<Record>
    requires { length bytes.now ≤ longest_region }
    ensures is { result ≡ record_at Authenticated bytes.now at }
    ensures within { IfSome result (λ r. IsWithin (length bytes.now) at r) }
{
    let header = match read_header(bytes, at as usize, false) {
        Ok(header) => header,
        Err(_) => return None,
    };
    if is_bare(&header) {
        return Some(Record {
            at,
            header,
            whole: false,
        });
    }
    if u64::from(at) + whole_size(&header) > bytes.len() as u64 {
        return None;
    }
    Some(Record {
        at,
        header,
        whole: true,
    })
}

/// The offset behind a record, where the next one stands.
pub(crate) fn next_offset(found: &Record) -> u32
    requires { next_offset Authenticated found.now < 2 ^ 32 }
    ensures { result ≡ next_offset Authenticated found.now }
{
    let size = if found.whole {
        whole_size(&found.header)
    } else {
        HEADER_BYTES as u64
    };
    align4(u64::from(found.at) + size) as u32
}
