//! What stands before a state: the version, the data's name and the text's name.

ghost use Rattle.plan_bytes.specs.Refusals.{HeadIs};

/// Why bytes are no suspended plan of this data and this query, in the order in which it is looked for.
#[derive(Clone, Copy, Debug, PartialEq, Eq)]
pub enum HeadFault {
    /// There are fewer than 66 bytes.
    Short,
    /// Byte 0 is not 2.
    Version,
    /// Bytes 1 to 32 are not the data's name.
    ForeignData,
    /// Bytes 33 to 64 are not the name of the query's text.
    ForeignQuery,
}

/// Looks at what stands before the state, and not at the state. The refusal is the first cause in the
/// order of `HeadFault`.
pub fn check_head(bytes: &[u8], data_id: &[u8; 32], query: &[u8; 32]) -> Result<(), HeadFault>
    ensures { HeadIs bytes.now data_id.now query.now result }
{
    if bytes.len() < 66 {
        return Err(HeadFault::Short);
    }
    if bytes[0] != 2 {
        return Err(HeadFault::Version);
    }
    if &bytes[1..33] != data_id.as_slice() {
        return Err(HeadFault::ForeignData);
    }
    if &bytes[33..65] != query.as_slice() {
        return Err(HeadFault::ForeignQuery);
    }
    Ok(())
}
