//! Sheets and files as a script hands them in: the fields of a file, and the check.
use crate::Stop;
use crate::words::Shown;
use amount::Amount;
use digest::kinds::AnyDigest;
use file::Fields;
use std::alloc::Global;
use verify::check;

pub(crate) fn place<A: Amount>(
    heap: Global,
    digest: AnyDigest,
    sheet: &[u8],
    file: &[u8],
) -> Result<String, Stop> {
    let n = check::<A, AnyDigest>(&digest, sheet, file)?.0;
    Ok(format!(in heap; "place {n}")?)
}

pub(crate) fn fields<A: Amount>(heap: Global, depth: u32, file: &[u8]) -> Result<String, Stop> {
    let mut line = String::from_str(heap, "fields")?;
    for found in Fields::new::<A>(file, depth) {
        let offset = found.offset;
        let name = found.field.name();
        let part = Shown(found.field.part());
        write!(line, " {name}@{offset}={part}")?;
    }
    Ok(line)
}
