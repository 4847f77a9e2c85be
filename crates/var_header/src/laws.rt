//! Laws of the bytes of a header: each is the contract of a function that does nothing.
ghost use Rattle.std.specs.Prelude.{◌≡◌};
ghost use Rattle.var_header.specs.Header.{HeadersReadBack};

use crate::state::{VAR_ADDED, VAR_DELETED, VAR_HEADER_VALID_ONLY, VAR_IN_DELETED_TRANSITION};

/// A header that was written is read again.
pub fn headers_read_back()
    ensures { HeadersReadBack }
{}

/// The constants of a record's state have the numbers of EDK II (MdeModulePkg, VariableFormat.h).
pub fn states_have_their_numbers()
    ensures valid { VAR_HEADER_VALID_ONLY ≡ 0x7F }
    ensures added { VAR_ADDED ≡ 0x3F }
    ensures in_transition { VAR_IN_DELETED_TRANSITION ≡ 0xFE }
    ensures deleted { VAR_DELETED ≡ 0xFD }
{}
