use var_header::Header;

/// A record of a region: its offset in bytes, its header, and whether name and data follow it; else the record is its header only.
#[derive(Clone, Copy, Debug, PartialEq, Eq)]
pub struct Record {
    pub at: u32,
    pub header: Header,
    pub whole: bool,
}
