//! A store by itself, as a script makes and calls it.
use crate::calls::{Shape, StoreKind};
use crate::words::Shown;
use crate::{Stop, said};
use anystore::types::AnyStore;
use chained::types::Chained;
use flat::types::Flat;
use numbering::{Closing, Key};
use std::alloc::{AllocError, Global};
use store::NodeStore;

pub(crate) fn measure(heap: Global, shape: Shape) -> Result<String, Stop> {
    let memory = shape.memory as usize;
    match shape.kind {
        StoreKind::Flat => flat::measure(shape.limits, memory)?,
        StoreKind::Chained(count) => chained::measure(shape.limits, count, memory)?,
    }
    said(heap, "fits")
}

// A new store over a memory of its own, each byte a5.
pub(crate) fn made(heap: Global, shape: Shape) -> Result<AnyStore, AllocError> {
    let memory = vec![in heap; 0xa5; shape.memory as usize]?;
    Ok(match shape.kind {
        StoreKind::Flat => AnyStore::Flat(Flat::new(memory, shape.limits)),
        StoreKind::Chained(count) => AnyStore::Chained(Chained::new(memory, shape.limits, count)),
    })
}

pub(crate) fn put(
    heap: Global,
    store: &mut AnyStore,
    key: Key,
    record: &[u8],
) -> Result<String, Stop> {
    store.put(key, record)?;
    said(heap, "put")
}

pub(crate) fn get(heap: Global, store: &mut AnyStore, key: Key, len: u32) -> Result<String, Stop> {
    let mut buffer = vec![in heap; 0xee; len as usize]?;
    let found = store.get(key, &mut buffer)?;
    let word = if found { "found" } else { "absent" };
    let bytes = Shown(&buffer);
    Ok(format!(in heap; "{word} {bytes}")?)
}

pub(crate) fn held(heap: Global, store: &AnyStore, closing: Closing) -> Result<String, Stop> {
    let n = store.held(closing)?;
    Ok(format!(in heap; "held {n}")?)
}

pub(crate) fn clear(heap: Global, store: &mut AnyStore, closing: Closing) -> Result<String, Stop> {
    store.clear(closing)?;
    said(heap, "cleared")
}

pub(crate) fn room(heap: Global, store: &AnyStore) -> Result<String, Stop> {
    let n = store.room();
    Ok(format!(in heap; "room {n}")?)
}
