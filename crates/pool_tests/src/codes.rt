//! The codes of the paths of records and of their gifts, as sets of numbers below 64.

use branch_core::{Part, Record, Records, code_of};

/// The codes with one more, which is new and below 64.
fn with_code(codes: u64, code: u32) -> Option<u64> {
    let bit = 1u64.wrapping_shl(code);
    if code < 64 && codes & bit == 0 {
        Some(codes | bit)
    } else {
        None
    }
}

/// The codes with those of the gifts of a record, where none is there already.
fn with_gifts(record: &Record, codes: u64) -> Option<u64> {
    let mut all = codes;
    for part in record.parts.as_slice().iter() {
        if let Part::Gift { path } = part {
            all = with_code(all, code_of(*path))?;
        }
    }
    Some(all)
}

/// The codes of the records, where each path has one record.
pub(crate) fn codes_of(records: &Records) -> Option<u64> {
    let mut codes = 0;
    for record in records.as_slice().iter() {
        codes = with_code(codes, code_of(record.path))?;
    }
    Some(codes)
}

/// The codes of the root and of the gifts, where each is given away once.
pub(crate) fn gifts_of(records: &Records) -> Option<u64> {
    let mut codes = 2;
    for record in records.as_slice().iter() {
        codes = with_gifts(record, codes)?;
    }
    Some(codes)
}
