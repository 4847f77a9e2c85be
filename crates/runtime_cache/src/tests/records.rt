//! Stores made of records, written byte by byte, and calls over them with buffers whose other bytes are watched.
use crate::{get, next};
use std::alloc::{AllocError, Global};
use var_region::{Region, region_in};
use var_types::{GetAnswer, Guid, NextAnswer, Store};

pub(crate) const ADDED: u8 = 0x3F;

pub(crate) const IN_TRANSITION: u8 = 0x3E;

pub(crate) const DELETED: u8 = 0x3C;

/// What buffers hold before a call.
const CANARY: u8 = 0xC7;

const CANARY_UNIT: u16 = 0xC7C7;

/// A record of a store: its state, its attributes, the first byte of its GUID (the others are 0), its name's units without the NUL, and its data.
#[derive(Clone, Copy)]
pub(crate) struct Part<'a> {
    pub(crate) state: u8,
    pub(crate) attributes: u32,
    pub(crate) guid: u8,
    pub(crate) name: &'a [u16],
    pub(crate) data: &'a [u8],
}

pub(crate) fn guid(first: u8) -> Guid {
    let mut bytes = [0; 16];
    bytes[0] = first;
    Guid { bytes }
}

pub(crate) fn size_of(items: usize) -> u32 {
    u32::try_from(items).unwrap_or(0)
}

/// The header of a store, of which a region's first offset is behind.
pub(crate) fn headers(alloc: Global, store: Store) -> Result<Vec<u8>, AllocError> {
    match store {
        Store::NonVolatile => vec![in alloc; 0x11; 100],
        Store::Volatile => vec![in alloc; 0x22; 28],
    }
}

/// Puts a record behind others: StartId, State, a reserved byte, Attributes, a count, a time stamp and an index that are 0, NameSize, DataSize,
/// VendorGuid, the name with its NUL, the data, and 0xFF up to the next multiple of 4.
pub(crate) fn push(bytes: &mut Vec<u8>, part: &Part) -> Result<(), AllocError> {
    bytes.extend_from_slice(&[0xAA, 0x55, part.state, 0])?;
    bytes.extend_from_slice(&part.attributes.to_le_bytes())?;
    bytes.extend_from_slice(&[0; 28])?;
    let units = size_of(part.name.len());
    bytes.extend_from_slice(&units.wrapping_mul(2).wrapping_add(2).to_le_bytes())?;
    bytes.extend_from_slice(&size_of(part.data.len()).to_le_bytes())?;
    bytes.extend_from_slice(&guid(part.guid).bytes)?;
    for unit in part.name {
        bytes.extend_from_slice(&unit.to_le_bytes())?;
    }
    bytes.extend_from_slice(&[0, 0])?;
    bytes.extend_from_slice(part.data)?;
    if bytes.len() % 4 != 0 {
        bytes.extend_from_slice(&[0xFF; 4][bytes.len() % 4..])?;
    }
    Ok(())
}

/// The bytes of a store with these records, erased behind them.
pub(crate) fn store_bytes(
    alloc: Global,
    store: Store,
    parts: &[Part],
) -> Result<Vec<u8>, AllocError> {
    let mut bytes = headers(alloc, store)?;
    for part in parts {
        push(&mut bytes, part)?;
    }
    bytes.extend_from_slice(&[0xFF; 64])?;
    Ok(bytes)
}

/// The region of a store's bytes, where they are a store's.
pub(crate) fn region(store: Store, bytes: &[u8]) -> Option<Region> {
    if bytes.len() < 100 || bytes.len() > 65_536 {
        return None;
    }
    Some(region_in(store, bytes))
}

/// Two stores in a phase.
#[derive(Drop)]
pub(crate) struct Pair<'a> {
    pub(crate) non_volatile: Region<'a>,
    pub(crate) volatile: Region<'a>,
    pub(crate) runtime: bool,
}

impl Pair<'_> {
    /// A get of a name, with the least buffer that the call allows and then some; none where a byte behind the answer changed.
    pub(crate) fn get(
        &self,
        alloc: Global,
        name: (u8, &[u16]),
        room: u32,
    ) -> Result<Option<(GetAnswer, Vec<u8>)>, AllocError> {
        let least = room.min(65_536) as usize;
        let mut into = vec![in alloc; CANARY; least]?;
        if into.len() != least {
            return Ok(None);
        }
        let answer = get(
            &self.non_volatile,
            &self.volatile,
            self.runtime,
            &guid(name.0),
            name.1,
            room,
            &mut into,
        );
        let length = match answer {
            GetAnswer::Ok { length, .. } => length as usize,
            GetAnswer::NotFound | GetAnswer::TooSmall { .. } => 0,
        };
        if into.iter().skip(length).any(|byte| *byte != CANARY) {
            return Ok(None);
        }
        into.truncate(length);
        Ok(Some((answer, into)))
    }

    /// A next from a name, likewise.
    pub(crate) fn next(
        &self,
        alloc: Global,
        name: (u8, &[u16]),
        room: u32,
    ) -> Result<Option<(NextAnswer, Vec<u16>)>, AllocError> {
        let least = (room / 2).min(513) as usize;
        let mut into = vec![in alloc; CANARY_UNIT; least]?;
        if into.len() != least {
            return Ok(None);
        }
        let answer = next(
            &self.non_volatile,
            &self.volatile,
            self.runtime,
            &guid(name.0),
            name.1,
            room,
            &mut into,
        );
        let units = match answer {
            NextAnswer::Ok { units, .. } => units as usize,
            NextAnswer::NoSuch | NextAnswer::End | NextAnswer::TooSmall { .. } => 0,
        };
        if into.iter().skip(units).any(|unit| *unit != CANARY_UNIT) {
            return Ok(None);
        }
        into.truncate(units);
        Ok(Some((answer, into)))
    }
}
